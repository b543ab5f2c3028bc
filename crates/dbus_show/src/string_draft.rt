//! Texts that are written piece by piece into a string.
#![tactic(auto, unfolding(crate::specs::Gains::text_so_far, crate::specs::Gains::length_so_far))]

ghost use Rattle.std.specs.Prelude.{◌≡◌, ◌<◌, ◌∷◌, [], false, OnOk, OnErr, IfErr, string_bytes, string_capacity};
ghost use Rattle.dbus_show.specs.Gains.{Begins, Gains, length_so_far, text_so_far};

use crate::draft::Draft;
use arrayvec::ArrayString;
use std::alloc::{AllocError, Allocator};

/// How many bytes are gathered before the string gets them.
const KEPT: usize = 1024;

/// A text that is written piece by piece into a string of the caller.
///
/// Pieces are gathered, since many short ones cost the string more than a long one. Once an
/// allocation failed, the string gets nothing more, which [`StringDraft::finish`] reports.
#[derive(Drop)]
pub struct StringDraft<'a, A: Allocator> {
    /// The string that is written to.
    pub out: &'a mut String<A>,
    /// Whether an allocation failed.
    pub refused: bool,
    /// What the string has still to get.
    pub kept: ArrayString<KEPT>,
}

impl<'a, A: Allocator> StringDraft<'a, A> {
    /// Begins a text in a string, in place of what that holds.
    pub fn new(out: &'a mut String<A>) -> Self
        ensures same { result.out.ghost_name ≡ out.entry.ghost_name }
        ensures begins { Begins (string_capacity out.old) result }
    {
        out.clear();
        StringDraft {
            out,
            refused: false,
            kept: ArrayString::new(),
        }
    }

    /// Appends a text that has no room beside what is kept.
    #[inline(never)]
    fn push_past(&mut self, text: &str)
        ensures { Gains self.old text.now self.new }
    {
        self.flush();
        if !self.refused {
            self.refused = self.out.push_str(text).is_err();
        }
    }

    /// Hands on what is kept.
    fn flush(&mut self)
        ensures gained { Gains self.old [] self.new }
        ensures none { self.new.kept.bytes ≡ [] }
    {
        if !self.refused {
            self.refused = self.out.push_str(self.kept.as_str()).is_err();
        }
        self.kept.clear();
    }

    /// Ends the text. If an allocation failed, the string is empty.
    pub fn finish(&mut self) -> Result<(), AllocError>
        ensures same { self.new.out.ghost_name ≡ self.old.out.ghost_name }
        ensures unrefused { OnOk result (self.old.refused ≡ false) }
        ensures whole { OnOk result (string_bytes self.new.out.now ≡ text_so_far self.old) }
        ensures emptied { IfErr result (λ _. string_bytes self.new.out.now ≡ []) }
        ensures small { OnErr result (self.old.refused ≡ false →
            string_capacity self.old.out.now < length_so_far self.old) }
    {
        self.flush();
        if self.refused {
            self.out.clear();
            return Err(AllocError);
        }
        Ok(())
    }
}

impl<A: Allocator> Draft for StringDraft<'_, A> {
    ghost use Rattle.dbus_show.specs.Gaining as gaining;

    ghost gains = { Gains };

    #[inline]
    fn push_str(&mut self, text: &str) {
        if self.kept.try_push_str(text).is_err() {
            self.push_past(text);
        }
    }

    ghost nothing = { gaining.nothing };

    ghost joins = { gaining.joins };
}
