//! A command, over any reader and two writers, by its settings.
ghost use Rattle.std.specs.Prelude.{◌≡◌, ◌≤◌, ◌^◌, IsTrue, false};
ghost use Rattle.dbus_value_model.specs.Specification.{specification};
ghost use Rattle.cli_options.specs.Limiting.{ask_more};
ghost use Rattle.cli_report.specs.Devices.{reading, writing};
ghost use Rattle.cli_run.specs.Running.{Runs, RunsWith, check};

use crate::closing::{number_of, status_of, write_count};
use crate::counting::count_through;
use crate::ending::run_by;
use crate::output::OutputRenderer;
use crate::picking::selector_of;
use cli_options::{Command, Output, Resync, Settings, Window};
use cli_report::{Cause, ExitStatus, give_up};
use dbus_stream::{MOST_READS, Sink, Source};
use dbus_value_model::Limits;
use std::alloc::Allocator;

/// Does what [`run_within`] does, with at most 2^32 reads and under the limits of the
/// specification.
pub fn run<A: Allocator + Copy, R: Source, W: Sink, E: Sink>(
    alloc: A,
    command: Command,
    reader: &mut R,
    first: &mut W,
    second: &mut E,
) -> ExitStatus
    ensures { Runs (reading R.left R.calls R.failures R.packets reader.old reader.new)
        (writing W.held W.failures first.old first.new)
        (writing E.held E.failures second.old second.new)
        specification (2 ^ 32) command result }
{
    run_reads(alloc, command, MOST_READS, reader, first, second)
}

/// Does what [`run_within`] does, under the limits of the specification.
pub fn run_reads<A: Allocator + Copy, R: Source, W: Sink, E: Sink>(
    alloc: A,
    command: Command,
    reads: u64,
    reader: &mut R,
    first: &mut W,
    second: &mut E,
) -> ExitStatus
    requires { reads ≤ 2 ^ 32 }
    ensures { Runs (reading R.left R.calls R.failures R.packets reader.old reader.new)
        (writing W.held W.failures first.old first.new)
        (writing E.held E.failures second.old second.new)
        specification reads command result }
{
    run_within(
        alloc,
        command,
        Limits::specification(),
        reads,
        reader,
        first,
        second,
    )
}

/// Does what the command says with all that the reader gives, in messages that keep these limits,
/// each by itself. Its output goes to the first writer. At most `reads` reads are made, the one
/// that finds the end of the input among them.
///
/// Of each message that is selected `Text` is its text, with its number from 1, and with times after
/// its time. `JsonLine` is one line, an object of JSON, with that number, the offset at which the
/// message begins in the input, and, with times, the time of the packet that its last byte is of, if
/// the reader reports one. Numbers and offsets are those of the whole input. `InOrder` is the
/// message in that order, `AsIs` in its own. Both write messages as
/// they are read, unless they are to write raw ones: if the reader reports packets, as those of a
/// pcap file, `dbus_pcap::packet_header` before each with the time of the packet that its last byte
/// is of, and `dbus_pcap::file_header` before all, also if none is selected. Where the bytes after
/// the messages are none within the limits or too few, each of these writes `refused at P: NAME` on
/// the second writer, with the place from the start of the input and the name of the reason; and
/// ` in packet K` if the reader reports packets: the number of the one that has the byte by which
/// they are refused. `Nothing` writes that line on the first writer; or, if the input is messages
/// alone, `ok N messages B bytes`, how many they are and of how many bytes.
///
/// If the run fails, it stops at the first cause that it meets, and writes `read failed`, `write
/// failed`, `too many reads` or `out of memory` on the second writer. Each line ends in LF. What is
/// written is gathered up to 16,384 bytes, and goes out before each read and before the status is
/// given, also if memory ran out; if it does not go out then, the line is `write failed`. A writer
/// gets no more after a write to it failed.
///
/// The run holds at most the bytes of one message and of one read, what is gathered, for `InOrder`
/// room for the longest message so far that it byteswaps, and the rules of a selection once more, in
/// a set. `Nothing` of all messages builds no message, and allocates nothing for messages.
///
/// `Done`, `Refused`: all was written, no read and no write failed, and the status says which.
/// `Failed`: a read failed, a write to either writer failed or took none of its bytes, as many
/// reads were made as may be, or an allocation failed. It is never `Usage`.
pub fn run_within<A: Allocator + Copy, R: Source, W: Sink, E: Sink>(
    alloc: A,
    command: Command,
    limits: Limits,
    reads: u64,
    reader: &mut R,
    first: &mut W,
    second: &mut E,
) -> ExitStatus
    requires { reads ≤ 2 ^ 32 }
    ensures { Runs (reading R.left R.calls R.failures R.packets reader.old reader.new)
        (writing W.held W.failures first.old first.new)
        (writing E.held E.failures second.old second.new)
        limits reads command result }
{
    let settings = Settings {
        limits,
        as_json: false,
        explains: false,
        keeps_going: false,
        resync: Resync::Off,
        handshake: None,
        window: Window {
            skip: 0,
            limit: None,
            checks_rest: false,
        },
    };
    run_with(alloc, command, settings, reads, reader, first, second)
}

/// Does what [`run_within`] does, by more settings.
///
/// If they explain, the line of a message that is refused is followed by the lines of
/// `dbus_explain::explain_message`, by the fewest of its bytes that are refused.
///
/// If they keep going, a message that is refused is passed over: by a byte of a packet, up to the
/// next packet; else if its first 16 bytes state a size within the limits, whatever else they say:
/// by its order byte and the lengths of its fields and its body; or, with `resync`, up to where
/// messages begin again, as `dbus_stream::RawReader::resync` finds it. What came before it is
/// written, and then the line `refused at P: NAME in message N at O`, with ` in packet K` as above:
/// the place of the fault, and where the message begins, from the start of the input, and its
/// number among all messages of the input. The numbers and offsets of those after it count it. A
/// message that is not passed over is told by that line too, and ends the run. If any was refused,
/// the last line is `N messages B bytes, K passed over C bytes`, and then `, the last one cut off`
/// if the input ends within that one, of which the bytes that are there count.
///
/// If they ask for JSON, RFC 8259, each refusal is told by the line of `cli_report::refusal_json` in
/// place of these, and the last line, also that of `Nothing`, is an object: `messages` and `bytes` say
/// how many messages are not passed over and how many bytes they have, `passed_over` and
/// `passed_bytes` the same of those that are, and `cut_off` whether the input ends within the last
/// of these.
///
/// If the window has a limit, the run ends once so many messages are written: nothing is read then,
/// and the status and the last line are those of what was read. With a limit of 0
/// nothing is read. If the window says that the rest is checked, it is read too. `Nothing` reads all.
///
/// These lines go to the second writer, but of `Nothing` to the first. `Nothing` of an input without
/// fault writes `ok N messages B bytes`. If the settings ask for JSON, for explanations, to keep
/// going or for a window, it holds the bytes of a message as the other commands do.
///
/// `Done`: nothing was refused. `Refused`: something was, and all was told. `Failed`: as
/// [`run_within`] says; if it was not a write to the second writer that failed, the line of the
/// cause is its last.
pub fn run_with<A: Allocator + Copy, R: Source, W: Sink, E: Sink>(
    alloc: A,
    command: Command,
    settings: Settings,
    reads: u64,
    reader: &mut R,
    first: &mut W,
    second: &mut E,
) -> ExitStatus
    requires { reads ≤ 2 ^ 32 }
    ensures { RunsWith (reading R.left R.calls R.failures R.packets reader.old reader.new)
        (writing W.held W.failures first.old first.new)
        (writing E.held E.failures second.old second.new)
        settings reads command result }
{
    if only_checks(&command) && !settings.ask_more() {
        return check(alloc, settings, reads, reader, first, second);
    }
    let Ok(selector) = selector_of(&command.selection) else {
        return give_up(Cause::Memory, second);
    };
    let renderer = OutputRenderer {
        output: command.output,
        selector,
        window: settings.window,
        begun: false,
        owners: None,
        spare: Vec::new(alloc),
    };
    run_by(alloc, settings, reads, renderer, reader, first, second)
}

// Whether it is `check` of all messages.
fn only_checks(command: &Command) -> bool
    ensures { IsTrue result → command.now ≡ check }
{
    match command {
        Command {
            output: Output::Nothing,
            selection: None,
        } => true,
        _ => false,
    }
}

// What `check` does by settings that ask for no more: it counts the messages, and writes how many
// they are, or the fault, on the first writer.
fn check<A: Allocator + Copy, R: Source, W: Sink, E: Sink>(
    alloc: A,
    settings: Settings,
    reads: u64,
    reader: &mut R,
    first: &mut W,
    second: &mut E,
) -> ExitStatus
    requires few { reads ≤ 2 ^ 32 }
    requires no_more { ask_more settings ≡ false }
    ensures { RunsWith (reading R.left R.calls R.failures R.packets reader.old reader.new)
        (writing W.held W.failures first.old first.new)
        (writing E.held E.failures second.old second.new)
        settings reads check result }
{
    let (counted, source) = count_through(settings, reads, reader);
    let packet = number_of(source.packet());
    match counted {
        Ok(counted) => match write_count(alloc, counted, packet, first) {
            Ok(()) => status_of(counted.fault),
            Err(cause) => give_up(cause, second),
        },
        Err(cause) => give_up(cause, second),
    }
}
