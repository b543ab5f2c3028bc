//! The messages of an input, handed on by settings: those that are refused are told, and may be
//! passed over.
ghost use Rattle.std.specs.Prelude.{◌≡◌, ◌≤◌, ◌^◌, ◌++◌, ℕ, List, IfOk, string_bytes, true};
ghost use Rattle.dbus_stream.specs.GoingOn.{HasFault};
ghost use Rattle.dbus_stream.specs.Lasting.{is_truncated};
ghost use Rattle.dbus_stream.specs.Next.{DeviceCounts};
ghost use Rattle.dbus_stream.specs.RawReading.{IsNewReader, KeepsPackets, kept, looked_of, most_reads_of, source_of, stopped_of};
ghost use Rattle.cli_report.specs.Devices.{reading};
ghost use Rattle.cli_report.specs.FaultFronts.{IsFaultFront};
ghost use Rattle.cli_run.specs.Going.{Closes, PassesAll, cause_of, IsTold};
ghost use Rattle.cli_run.specs.PassingOn.{PassesInPacket, PassesLarger, PassesOn, Resyncing, ToPacket, way_of};
ghost use Rattle.cli_run.specs.Told.{TellsStop};
ghost use Rattle.cli_run.specs.Visiting.{Tells};

use crate::closing::number_of;
use crate::handing::hand_all;
use crate::tally::{Tally, closing_line};
use crate::visitor::{MessageVisitor, RunStop};
use cli_options::{Resync, Settings};
use cli_report::{
    Cause, ExitStatus, RefusedMessage, Unwritten, give_up, refusal_json, refusal_text,
};
use dbus_stream::{Found, Passed, RawReader, ReadFault, Sink, Source};
use dbus_value_model::{Fault, Reason};
use std::alloc::{AllocError, Allocator};

/// Hands the messages of a source to the visitor, as long as it wants more, up to its end, a message
/// that is refused and not passed over, or this number of reads. The visitor tells each refusal,
/// and then the last line, if there is one: what was passed over, if anything was refused and the
/// run is to go on, or, of `check`, that nothing is refused.
///
/// Returns the status that is due, or why the run is given up; and the source.
pub(crate) fn pass_through<R: Source + Drop, A: Allocator + Copy, V: MessageVisitor>(
    alloc: A,
    settings: Settings,
    is_check: bool,
    reads: u64,
    source: R,
    visitor: &mut V,
) -> (Result<ExitStatus, RunStop>, R)
    requires few { reads ≤ 2 ^ 32 }
    requires settled { V.settled visitor.old }
    ensures passes { PassesAll (reading R.left R.calls R.failures R.packets source result.1)
        settings reads is_check V.takes V.leaves V.full visitor.old visitor.new result.0 }
    ensures settled { IfOk result.0 (λ _. V.settled visitor.new) }
    ensures same_reference { R.reference result.1 ≡ R.reference source }
{
    let mut messages = RawReader::within(alloc, source, reads, settings.limits);
    let ended = hand_parts(alloc, settings, is_check, &mut messages, visitor);
    (ended, messages.into_source())
}

// The same of a new reader.
fn hand_parts<R: Source, A: Allocator + Copy, V: MessageVisitor>(
    alloc: A,
    settings: Settings,
    is_check: bool,
    messages: &mut RawReader<R, A>,
    visitor: &mut V,
) -> Result<ExitStatus, RunStop>
    requires new { IsNewReader (source_of messages.old) (most_reads_of messages.old) settings.limits
        messages.old }
    requires settled { V.settled visitor.old }
    ensures passes { PassesAll (reading R.left R.calls R.failures R.packets
        (source_of messages.old) (source_of messages.new))
        settings (most_reads_of messages.old) is_check V.takes V.leaves V.full visitor.old
        visitor.new result }
    ensures settled { IfOk result (λ _. V.settled visitor.new) }
    ensures same_reference { R.reference (source_of messages.new) ≡
        R.reference (source_of messages.old) }
{
    let mut tally = Tally {
        count: 0,
        size: 0,
        passed: 0,
        passed_size: 0,
        is_cut: false,
    };
    'parts: loop {
        let counted = match hand_all(settings.limits, tally.count, messages, visitor) {
            Ok(counted) => counted,
            Err(cause) => return Err(RunStop::Cause(cause)),
        };
        tally = tally.up_to(counted);
        let fault = match counted.fault {
            Some(fault) => fault,
            None => return close(alloc, settings, is_check, tally, None, visitor),
        };
        let refusal = RefusedMessage {
            number: counted.count + 1,
            offset: counted.size,
            fault,
            packet: number_of(messages.packet()),
        };
        match tell(alloc, settings, refusal, messages, visitor) {
            Ok(()) => {}
            Err(stop) => return Err(stop),
        }
        if !settings.keeps_going {
            return close(alloc, settings, is_check, tally, Some(fault), visitor);
        }
        match pass(settings.resync, refusal, messages) {
            Ok(Passed::Over) => tally = tally.past(messages.done()),
            Ok(Passed::CutOff) => {
                let ended = tally.at_end(messages.done(), refusal.packet.is_none());
                return close(alloc, settings, is_check, ended, Some(fault), visitor);
            }
            Ok(Passed::Not) => return close(alloc, settings, is_check, tally, Some(fault), visitor),
            Err(fault) => return Err(RunStop::Cause(cause_of(fault))),
        }
    }
}

// Passes over a refused message: in a capture up to the next packet, else up to where messages begin
// again, if that is looked for, or by the size that it states.
fn pass<R: Source, A: Allocator + Copy>(
    resync: Resync,
    refusal: RefusedMessage,
    messages: &mut RawReader<R, A>,
) -> Result<Passed, ReadFault>
    requires { HasFault (stopped_of messages.old) }
    ensures passes { PassesOn R.left R.calls R.packet messages.old messages.new
        (way_of refusal resync) result }
    ensures in_packet { way_of refusal resync ≡ ToPacket →
        PassesInPacket R.packets R.packet messages.old messages.new result }
    ensures failed { DeviceCounts (R.failures (source_of messages.old))
        (R.failures (source_of messages.new)) result }
    ensures same_reference { R.reference (source_of messages.new) ≡
        R.reference (source_of messages.old) }
    ensures packets { IfOk result (λ _. KeepsPackets R.packets R.packet messages.old messages.new) }
{
    if refusal.packet.is_some() {
        if is_truncated(refusal.fault) {
            return messages.pass_over();
        }
        return messages.next_packet();
    }
    match resync {
        Resync::Off => messages.pass_over(),
        Resync::Within(window) => seek(window, messages),
    }
}

// Goes on where messages begin again in the window; or passes over a message that is larger, if that
// is nowhere.
fn seek<R: Source, A: Allocator + Copy>(
    window: u32,
    messages: &mut RawReader<R, A>,
) -> Result<Passed, ReadFault>
    requires { HasFault (stopped_of messages.old) }
    ensures passes { Resyncing R.left R.calls R.packet messages.old messages.new window result }
    ensures failed { DeviceCounts (R.failures (source_of messages.old))
        (R.failures (source_of messages.new)) result }
    ensures same_reference { R.reference (source_of messages.new) ≡
        R.reference (source_of messages.old) }
    ensures packets { IfOk result (λ _. KeepsPackets R.packets R.packet messages.old messages.new) }
{
    match messages.resync(window) {
        Ok(Found::At(_offset)) => Ok(Passed::Over),
        Ok(Found::Nowhere) => pass_larger(window, messages),
        Ok(Found::Spent) => pass_larger(window, messages),
        Err(fault) => Err(fault),
    }
}

// Passes over the refused message by the size that it states, if that is larger than the window.
fn pass_larger<R: Source, A: Allocator + Copy>(
    window: u32,
    messages: &mut RawReader<R, A>,
) -> Result<Passed, ReadFault>
    ensures passes { PassesLarger R.left R.calls messages.old messages.new window result }
    ensures looked { looked_of messages.new ≡ looked_of messages.old }
    ensures failed { DeviceCounts (R.failures (source_of messages.old))
        (R.failures (source_of messages.new)) result }
    ensures same_reference { R.reference (source_of messages.new) ≡
        R.reference (source_of messages.old) }
    ensures packets { KeepsPackets R.packets R.packet messages.old messages.new }
{
    let Some(size) = messages.stated_size() else {
        return Ok(Passed::Not);
    };
    if size > u64::from(window) {
        messages.pass_over()
    } else {
        Ok(Passed::Not)
    }
}

// Whether the input ends within the message.
fn is_truncated(fault: Fault) -> bool
    ensures { result ≡ is_truncated fault.reason }
{
    matches!(fault.reason, Reason::Truncated)
}

// Has the visitor tell a refusal.
fn tell<R: Source, A: Allocator + Copy, V: MessageVisitor>(
    alloc: A,
    settings: Settings,
    refusal: RefusedMessage,
    messages: &RawReader<R, A>,
    visitor: &mut V,
) -> Result<(), RunStop>
    requires { V.settled visitor.old }
    ensures tells { Tells V.takes V.leaves (IsTold settings refusal (kept messages.now))
        visitor.old visitor.new result }
    ensures front { (front : List ℕ) × IsFaultFront settings.limits (kept messages.now) front }
    ensures settled { IfOk result (λ _. V.settled visitor.new) }
{
    let (held, part) = messages.kept();
    let Ok(text) = text_of(alloc, settings, refusal, held, part) else {
        return Err(RunStop::Cause(Cause::Memory));
    };
    match visitor.tell(text.as_str()) {
        Ok(()) => Ok(()),
        Err(Unwritten) => Err(RunStop::Untold),
    }
}

// What is told of a refusal by the settings: by those of the bytes that are kept, which are in two
// slices, that show its fault.
fn text_of<A: Allocator + Copy>(
    alloc: A,
    settings: Settings,
    refusal: RefusedMessage,
    held: &[u8],
    part: &[u8],
) -> Result<String<A>, AllocError>
    ensures told { IfOk result (λ text.
        IsTold settings refusal (held.now ++ part.now) (string_bytes text)) }
    ensures front { (front : List ℕ) ×
        IsFaultFront settings.limits (held.now ++ part.now) front }
{
    let Settings {
        explains,
        keeps_going,
        limits,
        ..
    } = settings;
    if settings.as_json {
        return refusal_json(alloc, limits, refusal, (held, part));
    }
    refusal_text(alloc, keeps_going, explains, limits, refusal, (held, part))
}

// Has the visitor tell the last line. Returns the status that is due then.
fn close<A: Allocator + Copy, V: MessageVisitor>(
    alloc: A,
    settings: Settings,
    is_check: bool,
    tally: Tally,
    fault: Option<Fault>,
    visitor: &mut V,
) -> Result<ExitStatus, RunStop>
    requires { V.settled visitor.old }
    ensures closes { Closes V.takes V.leaves settings.as_json is_check settings.keeps_going tally
        fault visitor.old visitor.new result }
    ensures settled { IfOk result (λ _. V.settled visitor.new) }
{
    let Ok(line) = closing_line(alloc, settings, is_check, tally, fault) else {
        return Err(RunStop::Cause(Cause::Memory));
    };
    match visitor.tell(line.as_str()) {
        Ok(()) => Ok(tally.status(fault)),
        Err(Unwritten) => Err(RunStop::Untold),
    }
}

// Why the run is given up if a refused message was not passed over. `Format` is answered if it was
// looked for where messages begin again, and the source gave bytes of no packet and then of one.
fn cause_of(fault: ReadFault) -> Cause
    ensures { result ≡ cause_of fault }
{
    match fault {
        ReadFault::Memory => Cause::Memory,
        ReadFault::Format(_) => Cause::Memory,
        ReadFault::Device => Cause::ReadFailed,
        ReadFault::TooManyReads => Cause::TooManyReads,
    }
}

/// Tells the second writer why a run is given up, unless a write to it failed.
pub(crate) fn tell_stop<E: Sink>(stop: RunStop, is_check: bool, second: &mut E) -> ExitStatus
    ensures failed { result ≡ ExitStatus.Failed }
    ensures tells { TellsStop E.held E.failures is_check stop second.old second.new }
{
    match stop {
        RunStop::Cause(cause) => give_up(cause, second),
        RunStop::Untold => {
            if is_check {
                give_up(Cause::WriteFailed, second)
            } else {
                ExitStatus::Failed
            }
        }
    }
}
