//! Texts in which hidden characters are seen.
#![tactic(auto)]

use crate::draft::Draft;
use crate::escapes::Escapes;
use crate::quoted::write_escaped;

/// A draft over another, which gains each hidden character as an escape, `\u{202e}`, and every
/// other one as it is. [`is_hidden`](crate::is_hidden) says which are hidden.
#[derive(Drop)]
pub struct Visible<'d, D> {
    /// The draft that gains the text.
    pub draft: &'d mut D,
}

impl<D: Draft> Draft for Visible<'_, D> {
    ghost use Rattle.dbus_show.specs.Visible.{Sees};
    ghost use Rattle.dbus_show.specs.VisibleLaws as laws;

    ghost gains = { Sees D.gains };

    fn push_str(&mut self, text: &str) {
        if self.draft.is_full() {
            return;
        }
        if text.is_ascii() {
            self.draft.push_str(text);
        } else {
            write_escaped(self.draft, text, Escapes::Hidden);
        }
    }

    fn is_full(&self) -> bool {
        self.draft.is_full()
    }

    ghost nothing = { laws.nothing D.gains D.nothing };

    ghost joins = { laws.joins D.gains D.joins };
}
