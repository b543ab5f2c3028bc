//! One end of a connection: a state machine over bytes that come in pieces.

ghost use Rattle.std.specs.Prelude.{◌≡◌, ◌++◌, ◌≤◌, ℕ, List, [], true, IfOk, OnErr, Some};
ghost use Rattle.dbus_auth_lines.specs.Cut.{cut, More};

use crate::bounds::{Bounds, Counted, left_after};
use crate::end_step::{EndStep, Status};
use dbus_auth_lines::scanning::{Found, find, line_of};
use std::alloc::{AllocError, Allocator};

/// What a state machine answers to a line.
#[derive(Drop)]
pub struct Reply<A: Allocator> {
    pub send: Vec<u8, A>,
    pub counts: Counted,
    pub status: Status,
}

/// A state machine that answers lines.
pub trait Machine<A: Allocator>: Drop {
    ghost use Rattle.dbus_auth.specs.Ends.{Turn};
    ghost use Rattle.dbus_auth.specs.EndStepViews.{IsReply};

    /// What it is about to be.
    type Next: Drop;

    // A machine as contracts see it, as it is and as it is about to be.
    ghost State: { Type 0 };

    ghost shown: { Self → State };

    ghost shown_as: { Self → Self.Next → State };

    // What it does on a line.
    ghost turn: { State → List ℕ → Turn State };

    /// The answer to a line, which has no CR LF, and what the machine is once that is sent. Nothing
    /// is changed.
    ///
    /// Returns `AllocError` if an allocation failed.
    fn answer(&self, alloc: A, line: &[u8]) -> Result<(Reply<A>, Self::Next), AllocError>
        ensures { IfOk result (λ t.
            IsReply t.0 (turn (shown self.now) line.now).send (turn (shown self.now) line.now).counts
            (turn (shown self.now) line.now).status ×
            (shown_as self.now t.1 ≡ (turn (shown self.now) line.now).next)) };

    /// Goes on so.
    fn go_on(&mut self, next: Self::Next)
        ensures { shown self.new ≡ shown_as self.old next };
}

/// An end, with its state machine. It keeps the bytes of an unfinished line, at most 16,383.
#[derive(Drop)]
pub struct End<M, A: Allocator> {
    pub(crate) alloc: A,
    pub(crate) machine: M,
    pub(crate) started: bool,
    kept: Vec<u8, A>,
    pub(crate) status: Status,
    left: Option<Bounds>,
    ghost asks_for_more: { cut kept.items ≡ More },
}

impl<M: Machine<A>, A: Allocator + Copy> End<M, A> {
    ghost use Rattle.dbus_auth.specs.Bounded.{within};
    ghost use Rattle.dbus_auth.specs.Ends.{not_started, cuts, takes};
    ghost use Rattle.dbus_auth.specs.EndStepViews.{end_state, DidStep};

    /// An end that took nothing. It allocates nothing yet.
    #[tactic(auto, using(dbus_auth_lines::proofs::Scans::cut_empty))]
    pub(crate) fn new(alloc: A, machine: M) -> Self
        ensures { end_state M.shown result ≡ not_started (M.shown machine) }
    {
        End {
            alloc,
            machine,
            started: false,
            kept: Vec::new(alloc),
            status: Status::Talking,
            left: None,
        }
    }

    /// Bounds what the end sends from here on.
    pub(crate) fn set_bounds(&mut self, bounds: Bounds)
        ensures bounded { end_state M.shown self.new ≡ within bounds (end_state M.shown self.old) }
        ensures started { self.new.started ≡ self.old.started }
    {
        self.left = Some(bounds);
    }

    /// Takes at most one line of the piece, with the byte 0 before it if the end has not started,
    /// and answers it.
    ///
    /// Returns `AllocError` if an allocation failed. The end is unchanged then.
    #[tactic(auto, unfolding(crate::specs::Ends::takes))]
    pub(crate) fn take(&mut self, piece: &[u8]) -> Result<EndStep<A>, AllocError>
        ensures step { IfOk result (λ s.
            DidStep s (end_state M.shown self.new)
            (takes M.turn (end_state M.shown self.old) piece.now)) }
        ensures started { self.old.started ≡ true → self.new.started ≡ true }
        ensures err { OnErr result (end_state M.shown self.new ≡ end_state M.shown self.old) }
    {
        match self.status {
            Status::Begun | Status::Closed => return Ok(self.nothing()),
            Status::Talking => {}
        }
        if self.started {
            return self.cut_line(0, piece);
        }
        match piece {
            [] => Ok(self.nothing()),
            [0, rest @ ..] => self.cut_line(1, rest),
            _ => {
                self.status = Status::Closed;
                Ok(self.nothing())
            }
        }
    }

    /// The step that takes and sends nothing.
    fn nothing(&self) -> EndStep<A>
        ensures taken { result.taken ≡ 0 }
        ensures send { result.send.items ≡ [] }
        ensures status { result.status ≡ self.now.status }
    {
        EndStep {
            taken: 0,
            send: Vec::new(self.alloc),
            status: self.status,
        }
    }

    /// Takes the bytes up to the end of the line, or the whole piece. `skipped` bytes came before
    /// it.
    #[tactic(auto, using(dbus_auth_lines::proofs::Scans::cut_empty))]
    fn cut_line(&mut self, skipped: usize, piece: &[u8]) -> Result<EndStep<A>, AllocError>
        requires { skipped ≤ 1 }
        ensures step { IfOk result (λ s.
            DidStep s (end_state M.shown self.new)
            (cuts M.turn (end_state M.shown self.old) skipped piece.now
            (cut (self.old.kept.items ++ piece.now)))) }
        ensures started { self.old.started ≡ true → self.new.started ≡ true }
        ensures err { OnErr result (end_state M.shown self.new ≡ end_state M.shown self.old) }
    {
        match find(&self.kept, piece) {
            Found::More => {
                self.kept.extend_from_slice(piece)?;
                self.started = true;
                Ok(EndStep {
                    taken: skipped + piece.len(),
                    send: Vec::new(self.alloc),
                    status: self.status,
                })
            }
            Found::Bad(_) => {
                self.status = Status::Closed;
                Ok(self.nothing())
            }
            Found::Ends(size) => {
                // all that can fail comes before the first change
                let line = line_of(self.alloc, &self.kept, piece, size)?;
                let (reply, next) = self.machine.answer(self.alloc, &line)?;
                let Reply {
                    send,
                    counts,
                    status,
                } = reply;
                let Some(left) = left_after(self.left, counts) else {
                    self.status = Status::Closed;
                    return Ok(self.nothing());
                };
                let taken = skipped + (size - self.kept.len());
                self.machine.go_on(next);
                self.kept.clear();
                self.started = true;
                self.status = status;
                self.left = left;
                Ok(EndStep {
                    taken,
                    send,
                    status,
                })
            }
        }
    }
}
