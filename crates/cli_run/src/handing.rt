//! The messages of a reader are handed to a visitor.
ghost use Rattle.std.specs.Prelude.{◌≡◌, ◌≤◌, ◌^◌, ℕ, None, IfOk, false};
ghost use Rattle.dbus_stream.specs.RawReading.{source_of, done_of, limits_of, looked_of, stopped_of, KeepsPackets};
ghost use Rattle.cli_run.specs.ByName.{ended_by, stopped_by};
ghost use Rattle.cli_run.specs.Handing.{GivesNext};
ghost use Rattle.cli_run.specs.Inputs.{time_of};
ghost use Rattle.cli_run.specs.Onward.{RawHandsOn};

use crate::counted::{Counted, NoMessage};
use crate::place::{Lent, MessagePlace};
use crate::visitor::MessageVisitor;
use cli_report::{Cause, Unwritten};
use dbus_stream::{Packet, RawReader, ReadFault, Source};
use dbus_validate::Validated;
use dbus_value_model::Limits;
use std::alloc::Allocator;

// What is validated of the next message, which the reader lends then, if there is one. If the
// reader keeps none, the visitor lets go of what it holds back, and then more is read, unless what
// is kept has a fault. If the visitor wants no more, nothing is looked at.
fn next_message<R: Source, A: Allocator + Copy, V: MessageVisitor>(
    messages: &mut RawReader<R, A>,
    visitor: &mut V,
) -> Result<Option<Validated>, NoMessage>
    requires { stopped_of messages.old ≡ None }
    ensures gives { GivesNext R.left R.calls R.failures V.takes V.leaves V.settled V.full
        messages.old messages.new visitor.old visitor.new result }
    ensures packets { KeepsPackets R.packets R.packet messages.old messages.new }
    ensures looked { looked_of messages.new ≡ looked_of messages.old }
    ensures few { IfOk result (λ _. done_of messages.new ≤ 2 ^ 50) }
    ensures same_reference { R.reference (source_of messages.new) ≡
        R.reference (source_of messages.old) }
{
    if visitor.is_full() {
        return match visitor.settle() {
            Ok(()) => Err(NoMessage::Enough),
            Err(Unwritten) => Err(NoMessage::Writer),
        };
    }
    match messages.advance_kept() {
        Ok(Some(validated)) => Ok(Some(validated)),
        Ok(None) => read_message(messages, visitor),
        Err(fault) => match visitor.settle() {
            Ok(()) => Err(NoMessage::Reader(fault)),
            Err(Unwritten) => Err(NoMessage::Writer),
        },
    }
}

// What is validated of the next message, which the reader lends then, if there is one. The visitor
// lets go of what it holds back before more is read.
fn read_message<R: Source, A: Allocator + Copy, V: MessageVisitor>(
    messages: &mut RawReader<R, A>,
    visitor: &mut V,
) -> Result<Option<Validated>, NoMessage>
    requires unstopped { stopped_of messages.old ≡ None }
    requires wanted { V.full visitor.old ≡ false }
    ensures gives { GivesNext R.left R.calls R.failures V.takes V.leaves V.settled V.full
        messages.old messages.new visitor.old visitor.new result }
    ensures packets { KeepsPackets R.packets R.packet messages.old messages.new }
    ensures looked { looked_of messages.new ≡ looked_of messages.old }
    ensures few { IfOk result (λ _. done_of messages.new ≤ 2 ^ 50) }
    ensures same_reference { R.reference (source_of messages.new) ≡
        R.reference (source_of messages.old) }
{
    match visitor.settle() {
        Ok(()) => match messages.advance() {
            Ok(validated) => Ok(validated),
            Err(fault) => Err(NoMessage::Reader(fault)),
        },
        Err(Unwritten) => Err(NoMessage::Writer),
    }
}

/// Hands each message of the reader to the visitor, up to the end of the input or a fault, or as
/// long as it wants more. The visitor holds nothing back then. `before` is how many messages came
/// before.
///
/// `Memory`, `ReadFailed`, `WriteFailed`, `TooManyReads`: why reading was given up.
pub(crate) fn hand_all<R: Source, A: Allocator + Copy, V: MessageVisitor>(
    limits: Limits,
    before: u64,
    messages: &mut RawReader<R, A>,
    visitor: &mut V,
) -> Result<Counted, Cause>
    requires unstopped { stopped_of messages.old ≡ None }
    requires within { limits_of messages.old ≡ limits }
    requires few { before ≤ done_of messages.old }
    ensures hands { RawHandsOn R.left R.calls R.failures R.packets R.packet V.takes V.leaves V.full
        limits before messages.old messages.new visitor.old visitor.new result }
    ensures packets { KeepsPackets R.packets R.packet messages.old messages.new }
    ensures looked { looked_of messages.new ≡ looked_of messages.old }
    ensures settled { IfOk result (λ _. V.settled visitor.new) }
    ensures same_reference { R.reference (source_of messages.new) ≡
        R.reference (source_of messages.old) }
{
    let mut count = before;
    'messages: loop {
        let offset = messages.done();
        match next_message(messages, visitor) {
            Ok(Some(validated)) => {
                count += 1;
                let packet = messages.packet();
                let lent = Lent {
                    bytes: messages.message(),
                    validated,
                    limits,
                    place: MessagePlace {
                        number: count,
                        offset,
                        time: time_of(packet),
                        in_packet: packet.is_some(),
                    },
                };
                match visitor.take(&lent) {
                    Ok(()) => {}
                    Err(cause) => return Err(cause),
                }
            }
            Ok(None) => {
                return Ok(Counted {
                    count,
                    size: messages.done(),
                    fault: None,
                });
            }
            Err(stop) => return stopped_by(count, messages.done(), stop),
        }
    }
}

// When a packet was captured, if that is known.
fn time_of(packet: Option<Packet>) -> Option<u64>
    ensures { result ≡ time_of packet }
{
    match packet {
        Some(packet) => packet.time,
        None => None,
    }
}

// How the run goes on if no message follows.
fn stopped_by(count: u64, size: u64, stop: NoMessage) -> Result<Counted, Cause>
    ensures { result ≡ stopped_by count size stop }
{
    match stop {
        NoMessage::Reader(fault) => ended_by(count, size, fault),
        NoMessage::Writer => Err(Cause::WriteFailed),
        NoMessage::Enough => Ok(Counted {
            count,
            size,
            fault: None,
        }),
    }
}

// The run's answer to a fault of the reader after these messages.
pub(crate) fn ended_by(count: u64, size: u64, fault: ReadFault) -> Result<Counted, Cause>
    ensures { result ≡ ended_by count size fault }
{
    match fault {
        ReadFault::Format(fault) => Ok(Counted {
            count,
            size,
            fault: Some(fault),
        }),
        ReadFault::Memory => Err(Cause::Memory),
        ReadFault::Device => Err(Cause::ReadFailed),
        ReadFault::TooManyReads => Err(Cause::TooManyReads),
    }
}
