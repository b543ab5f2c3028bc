//! A line that is gathered from its pieces.
#![tactic(auto)]

ghost use Rattle.std.specs.Prelude.{◌≡◌, ◌≤◌, ◌↔◌, ◌++◌, ℕ, List, [], Some, IsTrue, OnOk, OnErr, option_map, vec_len};

use std::alloc::{AllocError, Allocator};

/// The bytes of a line that came so far, or none if these are more than `most`.
#[derive(Drop)]
pub(crate) struct Gathered<A: Allocator> {
    bytes: Vec<u8, A>,
    is_long: bool,
    most: usize,
    ghost short: { vec_len bytes ≤ most },
}

impl<A: Allocator> Gathered<A> {
    ghost use Rattle.dbus_lines.specs.Gathering.{gathered, IsWithin};

    /// A line of at most so many bytes, of which none came yet.
    pub(crate) fn new(alloc: A, most: usize) -> Gathered<A>
        ensures nothing { gathered result ≡ Some [] }
        ensures most { result.most ≡ most }
    {
        Gathered {
            bytes: Vec::new(alloc),
            is_long: false,
            most,
        }
    }

    /// Its bytes, or None if there are more than it may have.
    pub(crate) fn get(&self) -> Option<&[u8]>
        ensures { option_map (λ bytes. bytes.now) result ≡ gathered self.now }
    {
        if self.is_long {
            return None;
        }
        Some(self.bytes.as_slice())
    }

    /// Whether no byte of it came.
    pub(crate) fn is_empty(&self) -> bool
        ensures { (line : List ℕ) → IsWithin self.now.most line (gathered self.now) →
            IsTrue result ↔ (line ≡ []) }
    {
        !self.is_long && self.bytes.is_empty()
    }

    /// Lets go of its bytes, and keeps their memory.
    pub(crate) fn clear(&mut self)
        ensures nothing { gathered self.new ≡ Some [] }
        ensures most { self.new.most ≡ self.old.most }
    {
        self.bytes.clear();
        self.is_long = false;
    }

    /// Adds its next bytes.
    ///
    /// The error is that an allocation failed; then it has the bytes that it had.
    pub(crate) fn add(&mut self, piece: &[u8]) -> Result<(), AllocError>
        ensures added { OnOk result ((line : List ℕ) →
            IsWithin self.old.most line (gathered self.old) →
            IsWithin self.old.most (line ++ piece.now) (gathered self.new)) }
        ensures unchanged { OnErr result (gathered self.new ≡ gathered self.old) }
        ensures most { self.new.most ≡ self.old.most }
    {
        if self.is_long {
            return Ok(());
        }
        if piece.len() > self.most - self.bytes.len() {
            self.bytes.clear();
            self.is_long = true;
            return Ok(());
        }
        self.bytes.extend_from_slice(piece)
    }
}
