//! A text with escapes.
#![tactic(auto)]

use dbus_show::{Draft, Escapes, write_escaped};

/// A draft over another, which gains a text with these escapes.
#[derive(Drop)]
pub(crate) struct Escaping<'d, D> {
    /// The draft that gains the text.
    pub(crate) draft: &'d mut D,
    /// The escapes.
    pub(crate) escapes: Escapes,
}

impl<D: Draft> Draft for Escaping<'_, D> {
    ghost use Rattle.dbus_explain.specs.Escaping.{GainsEscaped};
    ghost use Rattle.dbus_explain.specs.EscapingLaws as laws;

    ghost gains = { GainsEscaped D.gains };

    fn push_str(&mut self, text: &str) {
        write_escaped(self.draft, text, self.escapes);
    }

    ghost nothing = { laws.nothing D.gains D.nothing };

    ghost joins = { laws.joins D.gains D.joins };
}
