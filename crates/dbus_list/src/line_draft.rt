//! A draft that keeps a text to the cells of a terminal's line, and shows what a terminal would not.
#![tactic(auto)]

use crate::cut_draft::{CutDraft, Room};
use dbus_show::{Draft, Escapes, write_escaped};

/// A draft over one that cuts, which gains each hidden character as an escape, as
/// [`dbus_show::Visible`] does over any. It asks once for both whether a text is ASCII, which most
/// are.
#[derive(Drop)]
pub(crate) struct LineDraft<'l, 'd, D> {
    /// The draft that cuts.
    pub(crate) cut: &'l mut CutDraft<'d, D>,
}

impl<D: Draft> Draft for LineDraft<'_, '_, D> {
    ghost use Rattle.dbus_list.specs.LineDrafts.{Gains};
    ghost use Rattle.dbus_list.specs.LineDraftLaws as laws;

    ghost gains = { λ a text b. Gains D.gains a text b };

    fn push_str(&mut self, text: &str) {
        if self.cut.is_full() {
            return;
        }
        if !text.is_ascii() {
            write_escaped(self.cut, text, Escapes::Hidden);
            return;
        }
        match self.cut.room {
            Room::Left(left) => self.cut.push_ascii(left, text),
            _ => self.cut.push_str(text),
        }
    }

    fn is_full(&self) -> bool {
        self.cut.is_full()
    }

    ghost nothing = { laws.nothing D.gains };

    ghost joins = { laws.joins D.gains };
}
