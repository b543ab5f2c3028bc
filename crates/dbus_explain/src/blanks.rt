//! Blanks in place of a text.
#![tactic(auto)]

ghost use Rattle.dbus_explain.specs.Explained.{blanks};

use dbus_show::Draft;

/// A draft over another, which gains a blank for each character.
#[derive(Drop)]
pub(crate) struct Blanks<'d, D> {
    /// The draft that gains the blanks.
    pub(crate) draft: &'d mut D,
}

impl<D: Draft> Draft for Blanks<'_, D> {
    ghost use Rattle.dbus_explain.specs.Blanking.{Blanking};
    ghost use Rattle.dbus_explain.specs.BlankingLaws as laws;

    ghost gains = { Blanking D.gains };

    fn push_str(&mut self, text: &str) {
        write_blanks(self.draft, text);
    }

    ghost nothing = { laws.nothing D.gains D.nothing };

    ghost joins = { laws.joins D.gains D.joins };
}

/// Appends a blank for each character of a text.
fn write_blanks<D: Draft>(draft: &mut D, text: &str)
    ensures { D.gains draft.old (blanks text.now) draft.new }
{
    for _ in 0..text.chars().count() {
        draft.push_code(b' ');
    }
}
