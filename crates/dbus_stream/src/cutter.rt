//! Messages out of bytes that come in pieces.
ghost use Rattle.std.specs.Prelude.{◌≡◌, ◌<◌, ◌≤◌, [], length, None, Some, Ok, Err, IfOk, IfSome};
ghost use Rattle.dbus_value_model.specs.Specification.{specification};
ghost use Rattle.dbus_value_model.specs.declared.fault.Fault.{Fault};
ghost use Rattle.dbus_header.specs.MessageOutcomes.{IsPartial};
ghost use Rattle.dbus_stream.specs.CutEnds.{truncated};
ghost use Rattle.dbus_stream.specs.Cutting.{fresh, Takes, TakeAnswers};
ghost use Rattle.dbus_stream.specs.CutterTaking.{cutting};

use crate::gatherer::Gatherer;
use crate::stream_fault::StreamFault;
use crate::taker::Taker;
use dbus_decode::{Answer, decode_known, decode_within};
use dbus_header::stated_length_within;
use dbus_message_model::Message;
use dbus_value_model::{Fault, Limits, Order, Reason, Refusal};
use std::alloc::{Allocator, Global};
use std::marker::Model;

/// Cuts messages out of bytes that come in pieces of any length. It keeps the bytes of the message
/// under way, so at most those of one message, and beside them a checker, so that no byte is looked
/// at again when more come. The limits of its messages are those that it was made with.
#[derive(Drop)]
pub struct Cutter<A: Allocator = Global> {
    alloc: A,
    // It holds the bytes of the message under way.
    gatherer: Gatherer<A>,
    fault: Option<Fault>,
}

impl<A: Allocator> Model for Cutter<A> {
    ghost use Rattle.dbus_stream.specs.Cutting.{CutterState};
    ghost use Rattle.dbus_stream.specs.Gathering.{IsUnderWay};

    ghost Value = { CutterState };

    ghost view = { λ c.
        record { limits = c.gatherer.limits; held = c.gatherer.held; fault = c.fault } };

    ghost invariant = { λ c. IsUnderWay c.gatherer };
}

// How many bytes of a piece were taken, and a message.
type Taken<A> = Result<(usize, Option<(Order, Message<A>)>), StreamFault>;

impl<A: Allocator + Copy> Cutter<A> {
    /// A cutter as [`Cutter::within`] makes it, under the limits of the specification.
    pub fn new(alloc: A) -> Self
        ensures { result ≡ fresh specification }
    {
        Cutter::within(alloc, Limits::specification())
    }

    /// A cutter that holds nothing yet, and returns messages that keep these limits. What it keeps
    /// is allocated by `alloc`.
    pub fn within(alloc: A, limits: Limits) -> Self
        ensures { result ≡ fresh limits }
    {
        Cutter {
            alloc,
            gatherer: Gatherer::within(alloc, limits),
            fault: None,
        }
    }

    /// Takes the bytes of the piece up to the end of the message under way and returns that
    /// message; or the whole piece, if the end is not there yet. Also returns the number of bytes
    /// of the piece that it took: pass the others again.
    ///
    /// `Format`: the bytes that are held and the piece begin with no message within its limits; it
    /// stays for good. `Memory`: an allocation failed. A call that returns an error takes nothing.
    ///
    /// ```rust
    /// use dbus_stream::Cutter;
    ///
    /// let mut cutter = Cutter::new(alloc);
    /// for piece in bytes.chunks(64) {
    ///     let mut rest = piece;
    ///     // Each call takes a byte at least.
    ///     for _ in 0..piece.len() {
    ///         let (taken, given) = cutter.take(rest)?;
    ///         if let Some((_, message)) = given {
    ///             println!(rt; "serial {}", message.parts().serial)?;
    ///         }
    ///         rest = rest.get(taken..).unwrap_or(&[]);
    ///     }
    /// }
    /// cutter.finish()?;
    /// ```
    pub fn take(
        &mut self,
        piece: &[u8],
    ) -> Result<(usize, Option<(Order, Message<A>)>), StreamFault>
        ensures within { IfOk result (λ r. r.0 ≤ length piece.now) }
        ensures takes { Takes self.old piece.now self.new result }
        // Of a piece with bytes, it takes at least one.
        ensures moves { IfOk result (λ r. 0 < length piece.now → 0 < r.0) }
        // A message ends with a byte of the piece.
        ensures ends { IfOk result (λ r. IfSome r.1 (λ given. 0 < r.0)) }
        // A fault shows in the piece.
        ensures unshown { IsPartial self.old.limits self.old.held }
    {
        if let Some(fault) = self.fault {
            return Err(StreamFault::Format(fault));
        }
        self.take_on(piece)
    }

    // The answer if it met no fault before: by one decoding, if nothing is held and the piece
    // states that all of its first message is there; else by the checker.
    fn take_on(&mut self, piece: &[u8]) -> Taken<A>
        requires { self.old.fault ≡ None }
        ensures { TakeAnswers self.old piece.now self.new result }
    {
        if self.gatherer.bytes().is_empty() && states_all(piece, self.gatherer.limits()) {
            self.take_decoded(piece)
        } else {
            self.take_checked(piece)
        }
    }

    // The answer by one decoding, if nothing is held.
    fn take_decoded(&mut self, piece: &[u8]) -> Taken<A>
        requires unfaulted { self.old.fault ≡ None }
        requires nothing { self.old.held ≡ [] }
        ensures answers { TakeAnswers self.old piece.now self.new result }
    {
        match decode_within(self.alloc, piece, self.gatherer.limits()) {
            Ok(
                Answer::Whole {
                    order,
                    message,
                    used,
                },
            ) => Ok((used, Some((order, message)))),
            Ok(Answer::Partial) => self.take_checked(piece),
            Err(Refusal::Memory) => Err(StreamFault::Memory),
            Err(Refusal::Format(fault)) => {
                self.fault = Some(fault);
                Err(StreamFault::Format(fault))
            }
        }
    }

    // The answer by the checker, which looks at no byte that is held. It is decoded once, where the
    // message ends, and of a body that the checker took no value is checked again.
    fn take_checked(&mut self, piece: &[u8]) -> Taken<A>
        requires { self.old.fault ≡ None }
        ensures { TakeAnswers self.old piece.now self.new result }
    {
        match self.gatherer.gather(piece) {
            Ok(Some(count)) => {
                let limits = self.gatherer.limits();
                match decode_known(self.alloc, self.gatherer.bytes(), limits) {
                    Ok(given) => {
                        self.gatherer.begin();
                        Ok((count, Some(given)))
                    }
                    Err(_) => {
                        self.gatherer.take_back(count);
                        Err(StreamFault::Memory)
                    }
                }
            }
            Ok(None) => Ok((piece.len(), None)),
            Err(StreamFault::Memory) => Err(StreamFault::Memory),
            Err(StreamFault::Format(fault)) => {
                self.fault = Some(fault);
                Err(StreamFault::Format(fault))
            }
        }
    }

    /// The number of bytes that it holds of the message under way.
    pub fn held(&self) -> usize
        ensures { result ≡ length self.now.held }
    {
        self.gatherer.bytes().len()
    }

    /// Whether the input may end here: `Ok` if nothing is held.
    ///
    /// The fault: `Truncated` at the number of bytes that are held, if there are any; or the fault
    /// that `take` returned, if it returned one.
    pub fn finish(&self) -> Result<(), Fault>
        ensures nothing { self.now.fault ≡ None → self.now.held ≡ [] → result ≡ Ok tt }
        ensures rest { self.now.fault ≡ None → ((self.now.held ≡ []) → ⊥) →
            result ≡ Err (truncated self.now.held) }
        ensures stays { (f : Fault) → self.now.fault ≡ Some f → result ≡ Err f }
    {
        if let Some(fault) = self.fault {
            return Err(fault);
        }
        if self.gatherer.bytes().is_empty() {
            return Ok(());
        }
        Err(Fault {
            at: self.gatherer.bytes().len() as u64,
            reason: Reason::Truncated,
        })
    }
}

// Whether the piece states that all of its first message is there.
fn states_all(piece: &[u8], limits: Limits) -> bool {
    match stated_length_within(piece, limits) {
        Ok(Some(stated)) => stated <= piece.len() as u64,
        _ => false,
    }
}

impl<A: Allocator + Copy> Taker for Cutter<A> {
    type Given = (Order, Message<A>);

    ghost known = { cutting A };

    fn take_piece(
        &mut self,
        _held: u64,
        piece: &[u8],
        given: &mut Option<(Order, Message<A>)>,
    ) -> Result<usize, StreamFault> {
        match self.take(piece) {
            Ok((count, message)) => {
                *given = message;
                Ok(count)
            }
            Err(fault) => Err(fault),
        }
    }
}
