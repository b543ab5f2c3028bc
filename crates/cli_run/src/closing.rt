//! What is written after the messages of an input.
ghost use Rattle.std.specs.Prelude.{◌≡◌, IfOk, string_bytes};
ghost use Rattle.cli_run.specs.Going.{counts_json, counts_line, cut_text, truth};
ghost use Rattle.cli_run.specs.Output.{check_line, ok_line, status_of};
ghost use Rattle.cli_run.specs.Refusals.{number_of};
ghost use Rattle.cli_run.specs.Told.{WritesLine};

use crate::counted::Counted;
use crate::tally::Tally;
use cli_report::{Cause, ExitStatus, refused_line};
use dbus_stream::{Packet, Sink, WrittenOnly, write_all};
use dbus_value_model::Fault;
use std::alloc::{AllocError, Allocator};

/// Writes the line of what was counted, whose fault is of this packet.
pub(crate) fn write_count<A: Allocator + Copy, W: Sink>(
    alloc: A,
    counted: Counted,
    packet: Option<u64>,
    first: &mut W,
) -> Result<(), Cause>
    ensures { WritesLine W.held W.failures
        (check_line counted.count counted.size counted.fault packet)
        first.old first.new result }
{
    match check_line(alloc, counted, packet) {
        Ok(line) => match write_all(first, line.as_bytes()) {
            Ok(()) => Ok(()),
            Err(WrittenOnly(_)) => Err(Cause::WriteFailed),
        },
        Err(_) => Err(Cause::Memory),
    }
}

// The line of what was counted.
fn check_line<A: Allocator + Copy>(
    alloc: A,
    counted: Counted,
    packet: Option<u64>,
) -> Result<String<A>, AllocError>
    ensures { IfOk result (λ line.
        string_bytes line ≡ check_line counted.count counted.size counted.fault packet) }
{
    match counted.fault {
        None => ok_line(alloc, counted.count, counted.size),
        Some(fault) => refused_line(alloc, counted.size, fault, packet),
    }
}

/// The number of a packet, if there is one.
pub(crate) fn number_of(packet: Option<Packet>) -> Option<u64>
    ensures { result ≡ number_of packet }
{
    match packet {
        Some(packet) => Some(packet.number),
        None => None,
    }
}

/// How a run ends that read to the end of the input, or to a fault.
pub(crate) fn status_of(fault: Option<Fault>) -> ExitStatus
    ensures { result ≡ status_of fault }
{
    match fault {
        None => ExitStatus::Done,
        Some(_) => ExitStatus::Refused,
    }
}

/// What `check` writes of messages alone.
pub(crate) fn ok_line<A: Allocator + Copy>(
    alloc: A,
    count: u64,
    size: u64,
) -> Result<String<A>, AllocError>
    ensures { IfOk result (λ line. string_bytes line ≡ ok_line count size) }
{
    format!(in alloc; "ok {count} messages {size} bytes\n")
}

/// What is written at last if messages were refused, and the run is to go on.
pub(crate) fn counts_line<A: Allocator + Copy>(
    alloc: A,
    tally: Tally,
) -> Result<String<A>, AllocError>
    ensures { IfOk result (λ line. string_bytes line ≡ counts_line tally) }
{
    let Tally {
        passed,
        passed_size,
        ..
    } = tally;
    let count = tally.count.saturating_sub(passed);
    let size = tally.size.saturating_sub(passed_size);
    let end = cut_text(tally.is_cut);
    format!(in alloc;
        "{count} messages {size} bytes, {passed} passed over {passed_size} bytes{end}\n"
    )
}

/// The same counts as a line of JSON, RFC 8259: an object of how many messages are not passed over
/// and how many bytes they have, of those that are, and of whether the input ends within the last.
pub(crate) fn counts_json<A: Allocator + Copy>(
    alloc: A,
    tally: Tally,
) -> Result<String<A>, AllocError>
    ensures { IfOk result (λ line. string_bytes line ≡ counts_json tally) }
{
    let Tally {
        passed,
        passed_size,
        ..
    } = tally;
    let count = tally.count.saturating_sub(passed);
    let size = tally.size.saturating_sub(passed_size);
    let cut_off = truth(tally.is_cut);
    format!(in alloc;
        "{{\"messages\":{count},\"bytes\":{size},\"passed_over\":{passed},\"passed_bytes\":{passed_size},\"cut_off\":{cut_off}}}\n"
    )
}

// How JSON spells a truth value.
fn truth(is_true: bool) -> &'static str
    ensures { result.now ≡ truth is_true }
{
    if is_true { "true" } else { "false" }
}

// What says that the input ends within the last message that was passed over.
fn cut_text(is_cut: bool) -> &'static str
    ensures { result.now ≡ cut_text is_cut }
{
    if is_cut { ", the last one cut off" } else { "" }
}
