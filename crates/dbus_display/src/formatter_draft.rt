//! Texts that are written piece by piece to a formatter.
#![tactic(auto)]

ghost use Rattle.std.specs.Prelude.{◌≡◌, false, IsOk};

use dbus_show::Draft;
use std::fmt;

/// A text that is written piece by piece to a formatter. Once a write failed, nothing more is
/// written.
#[derive(Drop)]
pub(crate) struct FormatterDraft<'a, W> {
    /// What writes the text.
    pub(crate) formatter: &'a mut fmt::Formatter<W>,
    /// Whether a write failed.
    pub(crate) failed: bool,
}

impl<W: fmt::Write> Draft for FormatterDraft<'_, W> {
    ghost use Rattle.dbus_display.specs.Written.{Gains};
    ghost use Rattle.dbus_display.specs.WrittenLaws as laws;

    ghost gains = { Gains W.write_str_gives };

    fn push_str(&mut self, text: &str) {
        if !self.failed {
            self.failed = self.formatter.write_str(text).is_err();
        }
    }

    fn is_full(&self) -> bool {
        self.failed
    }

    ghost nothing = { laws.nothing W.write_str_gives };

    ghost joins = { laws.joins W.write_str_gives };
}
