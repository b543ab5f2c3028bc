//! Lines out of bytes that come in pieces.

ghost use Rattle.std.specs.Prelude.{◌≡◌, ◌++◌, ◌+◌, ◌-◌, ◌≤◌, ℕ, [], length, take, MatchResult, IfSome};
ghost use Rattle.dbus_auth_lines.specs.declared.cutter.LineFault.TheVariants.{Memory};
ghost use Rattle.dbus_auth_lines.specs.Cut.{cut, Ends, More, Beginning, BeginsAs};
ghost use Rattle.dbus_auth_lines.specs.CutterViews.{fault_of, line_fault, IsWithin, Takes, TakesCut};

use crate::scanning::{BadLine, Found, find, line_of};
use std::alloc::{AllocError, Allocator, Global};
use thiserror::Error;

/// Why no line is given.
#[derive(Clone, Copy, PartialEq, Eq, Debug, Drop, Error)]
pub enum LineFault {
    /// An allocation failed. Nothing is changed.
    #[error("allocation failed")]
    Memory,
    /// The line has more than 16,384 bytes with its CR LF: its byte at place 16,382 is neither CR
    /// nor the LF of a CR LF.
    #[error("the line has more than 16,384 bytes")]
    TooLong,
    /// A byte that a line may not have: 0, a byte over 127, LF without CR, or a byte after CR that
    /// is not LF.
    #[error("a byte that a line may not have, at offset {at}")]
    BadByte {
        /// Its place in the line, from 0.
        at: usize,
    },
}

impl From<AllocError> for LineFault {
    ghost use Rattle.std.specs.Prelude.{◌≡◌};
    ghost use Rattle.dbus_auth_lines.specs.declared.cutter.LineFault.TheVariants.{Memory};

    ghost from_gives = { λ _ e. e ≡ Memory };

    fn from(_: AllocError) -> Self {
        LineFault::Memory
    }
}

/// The fault of a line as callers see it.
fn line_fault_of(fault: BadLine) -> LineFault
    ensures { result ≡ line_fault (fault_of fault) }
{
    match fault {
        BadLine::TooLong => LineFault::TooLong,
        BadLine::BadByte { at } => LineFault::BadByte { at },
    }
}

/// Cuts lines out of bytes that come in pieces. It keeps the bytes of an unfinished line, which are
/// at most 16,383.
#[derive(Drop)]
pub struct LineCutter<A: Allocator = Global> {
    alloc: A,
    kept: Vec<u8, A>,
    fault: Option<BadLine>,
    ghost asks_for_more: { cut kept.items ≡ More },
}

impl<A: Allocator + Copy> LineCutter<A> {
    ghost use Rattle.dbus_auth_lines.specs.CutterStates.{cutter_state};

    /// A cutter that keeps nothing. It allocates nothing yet.
    #[tactic(auto, using(crate::proofs::Scans::cut_empty))]
    pub fn new(alloc: A) -> Self
        ensures { cutter_state result ≡ record { kept = []; fault = None } }
    {
        LineCutter {
            alloc,
            kept: Vec::new(alloc),
            fault: None,
        }
    }

    /// Takes the bytes of the piece up to the end of the line, and gives the line without its CR
    /// LF, with the number of bytes taken. If no line ends in the piece, takes all of it and gives
    /// `None`. Pass the rest of the piece again.
    ///
    /// If a byte has a fault before any line ends, returns the first such fault and takes nothing;
    /// each later call returns it too. Returns `Memory` if an allocation failed: the cutter is
    /// unchanged then, so pass the same piece again.
    #[tactic(auto, using(crate::proofs::Cuts::takes_as))]
    pub fn take(&mut self, piece: &[u8]) -> Result<(usize, Option<Vec<u8, A>>), LineFault>
        ensures taken { (cutter_state self.old).fault ≡ None → (b : Beginning) →
            BeginsAs ((cutter_state self.old).kept ++ piece.now) b →
            Takes (cutter_state self.old).kept piece.now result (cutter_state self.new) b }
        // a fault stays for good
        ensures stays { IfSome (cutter_state self.old).fault (λ f.
            (result ≡ Err (line_fault f)) × (cutter_state self.new ≡ cutter_state self.old)) }
    {
        if let Some(fault) = self.fault {
            return Err(line_fault_of(fault));
        }
        self.cut_piece(piece)
    }

    /// `take` if there is no fault so far.
    #[tactic(auto, using(crate::proofs::Scans::cut_empty))]
    fn cut_piece(&mut self, piece: &[u8]) -> Result<(usize, Option<Vec<u8, A>>), LineFault>
        requires { self.old.fault ≡ None }
        ensures { TakesCut self.old.kept.items piece.now result (cutter_state self.new)
            (cut (self.old.kept.items ++ piece.now)) }
    {
        match find(&self.kept, piece) {
            Found::More => self.keep(piece),
            Found::Bad(fault) => {
                self.fault = Some(fault);
                Err(line_fault_of(fault))
            }
            Found::Ends(size) => {
                let line = line_of(self.alloc, &self.kept, piece, size)?;
                let taken = size - self.kept.len();
                self.kept.clear();
                Ok((taken, Some(line)))
            }
        }
    }

    /// Keeps a piece with no end of a line.
    fn keep(&mut self, piece: &[u8]) -> Result<(usize, Option<Vec<u8, A>>), LineFault>
        requires { cut (self.old.kept.items ++ piece.now) ≡ More }
        ensures kept { MatchResult result
            (λ t.
            (t.0 ≡ length piece.now) × (t.1 ≡ None) ×
            (self.new.kept.items ≡ self.old.kept.items ++ piece.now))
            (λ e. (e ≡ Memory) × (self.new.kept.items ≡ self.old.kept.items)) }
        ensures fault { self.new.fault ≡ self.old.fault }
    {
        self.kept.extend_from_slice(piece)?;
        Ok((piece.len(), None))
    }
}
