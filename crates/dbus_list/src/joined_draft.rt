//! A draft that joins the pieces of a text.
#![tactic(auto)]

ghost use Rattle.std.specs.Prelude.{◌≡◌, [], ℕ, List};
ghost use Rattle.dbus_list.specs.Joining.{Gains, HasJoined};

use arrayvec::ArrayString;
use dbus_show::Draft;

/// How many bytes are joined before the draft below gains them: more than a line of 80 cells has, so
/// that it gains most lines at once, and few of what is past their end.
const ROOM: usize = 96;

/// A draft over a draft, which joins short pieces of a text, since each piece costs that below more
/// than its bytes do.
#[derive(Drop)]
pub(crate) struct JoinedDraft<'d, D> {
    /// The draft that gains the text.
    pub(crate) draft: &'d mut D,
    /// What it has still to gain.
    pub(crate) kept: ArrayString<ROOM>,
}

impl<'d, D: Draft> JoinedDraft<'d, D> {
    /// Begins a text in a draft.
    pub(crate) fn new(draft: &'d mut D) -> Self
        ensures same { result.draft.ghost_name ≡ draft.entry.ghost_name }
        ensures begins { HasJoined D.gains draft.old [] result }
    {
        JoinedDraft {
            draft,
            kept: ArrayString::new(),
        }
    }

    /// Appends a text that has no room beside what is kept.
    #[inline(never)]
    fn push_past(&mut self, text: &str)
        ensures { Gains D.gains self.old text.now self.new }
    {
        self.finish();
        self.draft.push_str(text);
    }

    /// Hands on what is kept.
    pub(crate) fn finish(&mut self)
        ensures same { self.new.draft.ghost_name ≡ self.old.draft.ghost_name }
        ensures none { self.new.kept.bytes ≡ [] }
        ensures written { (before : D) (text : List ℕ) →
            HasJoined D.gains before text self.old → D.gains before text self.new.draft.now }
    {
        self.draft.push_str(self.kept.as_str());
        self.kept.clear();
    }
}

impl<D: Draft> Draft for JoinedDraft<'_, D> {
    ghost use Rattle.dbus_list.specs.JoiningLaws as laws;

    ghost gains = { λ a text b. Gains D.gains a text b };

    // Most pieces are known here, and of these a few instructions are left.
    #[inline(always)]
    fn push_str(&mut self, text: &str) {
        if self.is_full() {
            return;
        }
        if self.kept.try_push_str(text).is_err() {
            self.push_past(text);
        }
    }

    #[inline(always)]
    fn is_full(&self) -> bool {
        if self.kept.as_str().is_empty() {
            self.draft.is_full()
        } else {
            false
        }
    }

    ghost nothing = { laws.nothing D.gains };

    ghost joins = { laws.joins D.gains };
}
