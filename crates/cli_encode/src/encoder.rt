//! Lines taken one after another, each written as the message that it spells.
#![tactic(auto)]

ghost use Rattle.std.specs.Prelude.{◌≡◌, ◌<◌, ◌^◌, ℕ, List, [], true, false, IfOk, option_map};
ghost use Rattle.cli_report.specs.Gathering.{Gathers, gathered_bytes};
ghost use Rattle.dbus_lines.specs.Gathering.{IsWithin};
ghost use Rattle.cli_encode.specs.Outcomes.{IsOutcome, next_serial, order_in};
ghost use Rattle.cli_encode.specs.Steps.{IsNewEncoder, SameState, TakesLine, outcome_of};

use crate::encoding::Encoding;
use crate::ending::Stop;
use crate::explaining::explanation;
use crate::reason::{LineReason, Refusal};
use crate::writing::{tell_refused, write_bytes};
use cli_report::{Cause, OutputBuffer, Unwritten, write_out};
use dbus_encode::encode_into;
use dbus_json::Integers;
use dbus_json_lines::{NoMessage, is_blank, message_of_line};
use dbus_stream::Sink;
use dbus_value_model::Order;
use json::Scratch;
use std::alloc::{AllocError, Allocator};

// What becomes of a line.
#[derive(Drop)]
pub(crate) enum Made<A: Allocator> {
    // It is blank, and passed over.
    Passed,
    // Its message is made.
    Written,
    // It is refused, and this explains it, which is empty if that is not wanted.
    Refused(Refusal, String<A>),
}

// The order that is wanted, or the one that the line names.
fn order_in(wanted: Option<Order>, order: Order) -> Order
    ensures { result ≡ order_in wanted order }
{
    match wanted {
        Some(wanted) => wanted,
        None => order,
    }
}

// The serial after this one.
fn next_serial(serial: u32) -> u32
    ensures { result ≡ next_serial serial }
{
    if serial == u32::MAX { 1 } else { serial + 1 }
}

// What becomes of a line, which is None if it is too long. If it is written, its message's bytes
// are in `out` then, in place of what that held.
fn make<A: Allocator + Copy>(
    alloc: A,
    encoding: Encoding,
    line: Option<&[u8]>,
    serial: u32,
    scratch: &mut Scratch<A>,
    out: &mut Vec<u8, A>,
) -> Result<Made<A>, AllocError>
    ensures { IfOk result (λ made. (bytes : List ℕ) →
        IsWithin encoding.most bytes (option_map (λ l. l.now) line.entry) →
        IsOutcome encoding serial bytes (outcome_of made out.new.items)) }
{
    let Some(line) = line else {
        let refusal = Refusal {
            reason: LineReason::TooLong,
            at: encoding.most,
        };
        let explained = explanation(alloc, encoding.explains, &[], refusal)?;
        return Ok(Made::Refused(refusal, explained));
    };
    if is_blank(line) {
        return Ok(Made::Passed);
    }
    let integers = Integers::of(encoding.safe_integers);
    match message_of_line(alloc, line, encoding.limits, serial, integers, scratch) {
        Ok((order, message)) => {
            encode_into(out, &message, order_in(encoding.order, order))?;
            Ok(Made::Written)
        }
        Err(NoMessage::Refused(fault)) => {
            let refusal = Refusal {
                reason: LineReason::Unspelled(fault.reason),
                at: fault.at,
            };
            let explained = explanation(alloc, encoding.explains, line, refusal)?;
            Ok(Made::Refused(refusal, explained))
        }
        Err(NoMessage::Memory) => Err(AllocError),
    }
}

/// What takes lines one after another.
#[derive(Drop)]
pub(crate) struct Encoder<A: Allocator> {
    /// How they are encoded.
    pub(crate) encoding: Encoding,
    /// How many it took.
    pub(crate) number: u64,
    /// The serial of the next message, if its line tells none.
    pub(crate) serial: u32,
    /// Whether one was refused.
    pub(crate) refused: bool,
    /// Room for the bytes of a message, and for the texts of a line.
    pub(crate) spare: Vec<u8, A>,
    pub(crate) scratch: Scratch<A>,
    /// What is gathered for the first writer.
    pub(crate) gathered: OutputBuffer,
}

impl<A: Allocator + Copy> Encoder<A> {
    /// What took no line yet.
    pub(crate) fn new(alloc: A, encoding: Encoding) -> Self
        ensures new { IsNewEncoder result }
        ensures encoding { result.encoding ≡ encoding }
    {
        Encoder {
            encoding,
            number: 0,
            serial: 1,
            refused: false,
            spare: Vec::new(alloc),
            scratch: Scratch::new(alloc),
            gathered: OutputBuffer::new(),
        }
    }

    /// Writes what is gathered, and then nothing is gathered.
    pub(crate) fn settle<W: Sink>(&mut self, first: &mut W) -> Result<(), Unwritten>
        ensures gathers { Gathers W.held W.failures [] (gathered_bytes self.old.gathered)
            (gathered_bytes self.new.gathered) first.old first.new result }
        ensures settled { gathered_bytes self.new.gathered ≡ [] }
        ensures same { SameState self.old self.new }
    {
        write_out(&mut self.gathered, first)
    }

    /// Whether the run ends here, since a line was refused and it is not to go on.
    pub(crate) fn is_over(&self) -> bool
        ensures over { result ≡ true →
            (self.now.encoding.keeps_going ≡ false) × (self.now.refused ≡ true) }
        ensures goes_on { result ≡ false → self.now.encoding.keeps_going ≡ false →
            self.now.refused ≡ false }
    {
        self.refused && !self.encoding.keeps_going
    }

    /// Takes a line, which is None if it is too long: writes or gathers its message for the first
    /// writer, or tells the second that it is refused, after all that is gathered.
    ///
    /// `Cause`: `Memory` if an allocation failed, and then what is gathered was written; or
    /// `WriteFailed`. `Untold`: a write to the second writer failed.
    pub(crate) fn take<W: Sink, E: Sink>(
        &mut self,
        alloc: A,
        line: Option<&[u8]>,
        first: &mut W,
        second: &mut E,
    ) -> Result<(), Stop>
        requires { self.old.number < 2 ^ 63 }
        ensures { (bytes : List ℕ) →
            IsWithin self.old.encoding.most bytes (option_map (λ l. l.now) line.entry) →
            TakesLine W.held W.failures E.held E.failures bytes self.old self.new first.old
            first.new second.old second.new result }
    {
        let made = make(
            alloc,
            self.encoding,
            line,
            self.serial,
            &mut self.scratch,
            &mut self.spare,
        );
        match made {
            Ok(made) => self.finish(alloc, made, first, second),
            Err(AllocError) => match self.settle(first) {
                Ok(()) => Err(Stop::Cause(Cause::Memory)),
                Err(Unwritten) => Err(Stop::Cause(Cause::WriteFailed)),
            },
        }
    }

    // Writes what was made of a line, or tells that it is refused.
    fn finish<W: Sink, E: Sink>(
        &mut self,
        alloc: A,
        made: Made<A>,
        first: &mut W,
        second: &mut E,
    ) -> Result<(), Stop>
        requires { self.old.number < 2 ^ 63 }
        ensures { (line : List ℕ) →
            IsOutcome self.old.encoding self.old.serial line
            (outcome_of made self.old.spare.items) →
            TakesLine W.held W.failures E.held E.failures line self.old self.new first.old
            first.new second.old second.new result }
    {
        self.number += 1;
        match made {
            Made::Passed => Ok(()),
            Made::Written => {
                self.serial = next_serial(self.serial);
                match write_bytes(self.spare.as_slice(), &mut self.gathered, first) {
                    Ok(()) => Ok(()),
                    Err(Unwritten) => Err(Stop::Cause(Cause::WriteFailed)),
                }
            }
            Made::Refused(refusal, explained) => {
                self.serial = next_serial(self.serial);
                self.refused = true;
                match self.settle(first) {
                    Ok(()) => {
                        tell_refused(alloc, self.number, refusal, explained.as_str(), second)
                    }
                    Err(Unwritten) => Err(Stop::Cause(Cause::WriteFailed)),
                }
            }
        }
    }
}
