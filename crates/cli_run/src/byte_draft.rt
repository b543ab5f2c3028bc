//! What gains texts and bytes, piece by piece.
#![tactic(auto)]

ghost use Rattle.std.specs.Prelude.{ℕ, List};
ghost use Rattle.cli_run.specs.LentDrafts.{GainsLent, joined, unchanged};

use cli_report::Page;
use dbus_show::Draft;
use dbus_stream::Sink;

/// A draft that gains bytes too, which need be no text.
pub(crate) trait ByteDraft: Draft {
    /// Appends bytes.
    fn append(&mut self, bytes: &[u8])
        ensures { Self.gains self.old bytes.now self.new };
}

impl<W: Sink> ByteDraft for Page<'_, W> {
    #[inline]
    fn append(&mut self, bytes: &[u8]) {
        self.push_bytes(bytes);
    }
}

/// A draft that is lent.
#[derive(Drop)]
pub(crate) struct LentDraft<'d, D> {
    /// The draft.
    pub(crate) draft: &'d mut D,
}

impl<D: Draft> Draft for LentDraft<'_, D> {
    ghost gains = { GainsLent D.gains };

    fn push_str(&mut self, text: &str) {
        self.draft.push_str(text);
    }

    fn push_between(&mut self, before: &str, text: &str, after: &str) {
        self.draft.push_between(before, text, after);
    }

    ghost nothing = { unchanged D.gains D.nothing };

    ghost joins = { joined D.gains D.joins };
}
