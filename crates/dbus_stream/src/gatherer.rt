//! The bytes of a message that come in pieces, validated.
ghost use Rattle.std.specs.Prelude.{◌≡◌, ◌≤◌, ◌-◌, ℕ, List, true, false, length, take, IfOk};
ghost use Rattle.dbus_check.specs.Checks.{Stands, limits_of};
ghost use Rattle.dbus_header.specs.MessageOutcomes.{IsPartial};
ghost use Rattle.dbus_validate.specs.Validating.{IsValidatedWhole};
ghost use Rattle.dbus_stream.specs.Gathering.{GathererState, gathering, fresh, begun, under_way, Gathers};
ghost use Rattle.dbus_stream.specs.Taking.{Takes};

use crate::stream_fault::StreamFault;
use crate::taker::Taker;
use dbus_check::{Check, Checker};
use dbus_validate::{Validated, validate, validate_known};
use dbus_value_model::Limits;
use std::alloc::Allocator;
use std::marker::Model;
use std::mem;

/// Takes the bytes of messages, and gives what is validated of each. It gathers the bytes of a
/// message that comes in several pieces, and holds them still when it gives it; of a message that
/// lies whole in a piece it notes the length.
#[derive(Drop)]
pub struct Gatherer<A: Allocator> {
    alloc: A,
    limits: Limits,
    held: Vec<u8, A>,
    // It was handed the bytes that are held; nothing, if these are a whole message.
    checker: Checker,
    whole: bool,
    // How many bytes the message has that it gave last, if that lay whole in the piece.
    lent: usize,
}

impl<A: Allocator> Model for Gatherer<A> {
    ghost use Rattle.dbus_stream.specs.Gathering.{GathererState, IsGathering};

    ghost Value = { GathererState };

    ghost view = { λ g.
        record { limits = g.limits; held = g.held.items; whole = g.whole; lent = g.lent } };

    ghost invariant = { λ g. IsGathering g.limits g.held.items g.whole g.checker };
}

impl<A: Allocator + Copy> Gatherer<A> {
    /// A gatherer that holds nothing yet. What it holds is allocated by `alloc`.
    pub(crate) fn within(alloc: A, limits: Limits) -> Self
        ensures { result ≡ fresh limits }
    {
        Gatherer {
            alloc,
            limits,
            held: Vec::new(alloc),
            checker: Checker::within(limits),
            whole: false,
            lent: 0,
        }
    }

    /// Lends no message, and begins the next one if it holds a whole one.
    pub(crate) fn begin(&mut self)
        ensures { self.new ≡ begun self.old }
    {
        self.lent = 0;
        if self.whole {
            self.held.clear();
            self.whole = false;
        }
    }

    /// Lends and holds nothing, and begins a message.
    pub(crate) fn let_go(&mut self)
        ensures { self.new ≡ fresh self.old.limits }
    {
        self.lent = 0;
        self.held.clear();
        self.whole = false;
        self.checker.restart();
    }

    /// Takes the bytes of the piece up to the end of the message under way, and says how many these
    /// are; or the whole piece, if its end is not there yet.
    ///
    /// `Format`: the bytes that are held and the piece begin with no message. `Memory`: an
    /// allocation failed. Then nothing is taken.
    #[inline(always)]
    pub(crate) fn gather(&mut self, piece: &[u8]) -> Result<Option<usize>, StreamFault>
        requires { self.old.whole ≡ false }
        ensures { Gathers self.old piece.now self.new result }
    {
        match self.checker.take(piece) {
            Check::Partial => {
                if self.held.extend_from_slice(piece).is_err() {
                    check_again(&mut self.checker, self.held.as_slice());
                    return Err(StreamFault::Memory);
                }
                Ok(None)
            }
            Check::Done(count) => {
                if self.held.extend_from_slice(&piece[..count]).is_err() {
                    check_again(&mut self.checker, self.held.as_slice());
                    return Err(StreamFault::Memory);
                }
                self.checker.restart();
                self.whole = true;
                Ok(Some(count))
            }
            Check::Refused(fault) => {
                check_again(&mut self.checker, self.held.as_slice());
                Err(StreamFault::Format(fault))
            }
        }
    }

    /// The last `count` bytes of the message that it holds are taken back, so that more bytes are
    /// wanted.
    pub(crate) fn take_back(&mut self, count: usize)
        requires fits { count ≤ length self.old.held }
        requires partial { IsPartial self.old.limits
            (take (length self.old.held - count) self.old.held) }
        ensures { self.new ≡
            record {
              limits = self.old.limits;
              held = take (length self.old.held - count) self.old.held;
              whole = false;
              lent = self.old.lent;
            } }
    {
        self.held.truncate(self.held.len() - count);
        check_again(&mut self.checker, self.held.as_slice());
        self.whole = false;
    }

    /// The limits that its messages keep.
    pub(crate) fn limits(&self) -> Limits
        ensures { result ≡ self.now.limits }
    {
        self.limits
    }

    /// Whether it holds a whole message.
    pub(crate) fn is_whole(&self) -> bool
        ensures { result ≡ self.now.whole }
    {
        self.whole
    }

    /// How many bytes of the last piece are the message that it gave.
    pub(crate) fn lent(&self) -> usize
        ensures { result ≡ self.now.lent }
    {
        self.lent
    }

    /// The bytes that it holds.
    pub(crate) fn bytes(&self) -> &[u8]
        ensures { result.now ≡ self.now.held }
    {
        self.held.as_slice()
    }

    /// The bytes that it holds of the message under way.
    pub(crate) fn under_way(&self) -> &[u8]
        ensures bytes { result.now ≡ under_way self.now.whole self.now.held }
        ensures partial { IsPartial self.now.limits result.now }
    {
        if self.whole {
            &[]
        } else {
            self.held.as_slice()
        }
    }

    // What is validated of the whole message that it holds, which the checker took: its body is not
    // gone over again.
    fn validated_whole(&self) -> Validated
        requires { self.now.whole ≡ true }
        ensures { IsValidatedWhole self.now.limits self.now.held result }
    {
        validate_known(self.held.as_slice(), self.limits)
    }

    // Takes a piece that begins with no whole message, or goes on with one that is held, and writes
    // into `given` what is validated of the message that ends there, if one does. It is not
    // inlined: if a message lies whole in a piece, nothing makes room for it.
    #[inline(never)]
    fn take_gathered(
        &mut self,
        piece: &[u8],
        given: &mut Option<Validated>,
    ) -> Result<usize, StreamFault>
        requires { self.old.whole ≡ false }
        ensures within { IfOk result (λ n. n ≤ length piece.now) }
        ensures limits { self.new.limits ≡ self.old.limits }
        // Before the last message was let go, it stood otherwise.
        ensures takes { (before : GathererState) (w : List ℕ) → self.old ≡ begun before →
            under_way before.whole before.held ≡ w →
            Takes gathering before w piece.now self.new result given.new }
    {
        match self.gather(piece) {
            Ok(Some(count)) => {
                *given = Some(self.validated_whole());
                Ok(count)
            }
            Ok(None) => {
                *given = None;
                Ok(piece.len())
            }
            Err(fault) => Err(fault),
        }
    }

    /// Gives the whole message that it holds, and holds nothing.
    pub(crate) fn give(&mut self) -> Vec<u8, A>
        requires { self.old.whole ≡ true }
        ensures given { result.items ≡ self.old.held }
        ensures begun { self.new ≡ fresh self.old.limits }
    {
        self.whole = false;
        self.lent = 0;
        mem::replace(&mut self.held, Vec::new(self.alloc))
    }
}

impl<A: Allocator + Copy> Taker for Gatherer<A> {
    type Given = Validated;

    ghost known = { gathering };

    fn take_piece(
        &mut self,
        _held: u64,
        piece: &[u8],
        given: &mut Option<Validated>,
    ) -> Result<usize, StreamFault> {
        self.begin();
        if !self.held.is_empty() {
            return self.take_gathered(piece, given);
        }
        // So it is before each read.
        if piece.is_empty() {
            *given = None;
            return Ok(0);
        }
        *given = validate(piece, self.limits);
        match given {
            Some(validated) => {
                self.lent = validated.length;
                Ok(validated.length)
            }
            None => self.take_gathered(piece, given),
        }
    }
}

// Brings a checker back to the bytes that it was handed before.
fn check_again(checker: &mut Checker, held: &[u8])
    requires { IsPartial (limits_of checker.old) held.now }
    ensures stands { Stands checker.new held.now }
    ensures limits { limits_of checker.new ≡ limits_of checker.old }
{
    checker.restart();
    checker.take(held);
}
