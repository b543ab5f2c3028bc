//! A text that is gathered and written as it comes.
#![tactic(auto)]

ghost use Rattle.std.specs.Prelude.{◌++◌};
ghost use Rattle.cli_report.specs.Gathering.{Goes};
ghost use Rattle.cli_report.specs.PageLaws as laws;

use crate::gathering::write_after;
use crate::output_buffer::OutputBuffer;
use dbus_show::Draft;
use dbus_stream::Sink;

/// What goes to a writer by what is gathered for it. Once a write failed, nothing more is
/// written.
#[derive(Drop)]
pub struct Page<'a, W> {
    /// What is gathered for the writer.
    pub gathered: &'a mut OutputBuffer,
    /// The writer.
    pub first: &'a mut W,
    /// Whether a write failed.
    pub failed: bool,
}

impl<W: Sink> Page<'_, W> {
    /// Appends bytes.
    #[inline]
    pub fn push_bytes(&mut self, bytes: &[u8])
        ensures { Goes W.held W.failures self.old bytes.now self.new }
    {
        if !self.gathered.push(bytes) {
            self.push_past(bytes);
        }
    }

    /// Writes what is gathered and then bytes, which have no room beside it.
    #[inline(never)]
    fn push_past(&mut self, bytes: &[u8])
        ensures { Goes W.held W.failures self.old bytes.now self.new }
    {
        if !self.failed {
            self.failed = write_after(bytes, self.gathered, self.first).is_err();
        }
    }

    /// Appends three texts, which have no room together.
    #[inline(never)]
    fn push_each(&mut self, before: &str, text: &str, after: &str)
        ensures { Goes W.held W.failures self.old (before.now ++ (text.now ++ after.now)) self.new }
    {
        self.push_str(before);
        self.push_str(text);
        self.push_str(after);
    }
}

impl<W: Sink> Draft for Page<'_, W> {
    ghost gains = { Goes W.held W.failures };

    #[inline]
    fn push_str(&mut self, text: &str) {
        self.push_bytes(text.as_bytes());
    }

    #[inline]
    fn push_between(&mut self, before: &str, text: &str, after: &str) {
        let (first, bytes, last) = (before.as_bytes(), text.as_bytes(), after.as_bytes());
        if !self.gathered.push_between(first, bytes, last) {
            self.push_each(before, text, after);
        }
    }

    ghost nothing = { laws.nothing W.held W.failures };

    ghost joins = { laws.joins W.held W.failures };
}
