//! The program over the words of its command line.
ghost use Rattle.std.specs.Prelude.{◌≡◌, map, string_bytes};
ghost use Rattle.cli_report.specs.Devices.{writing};
ghost use Rattle.dbus_tool.specs.Handshaking.{Shows, TakesHandshake, TellsHandshake, Lists, ahead};
ghost use Rattle.dbus_tool.specs.Words.{Does, DoesCalls, DoesTask, Notes, RefusesRule, RunsWords, ShowsText, calls_wanted, encoding_wanted, is_noted};

use crate::lines::handshake_line;
use crate::listing::write_lines;
use crate::rule_lines::rule_text;
use cli_encode::{Encoding, encode_lines};
use cli_options::{
    Asked, Command, RefusedRule, Request, Settings, Task, UsageFault, WantedCalls, WantedEncoding,
    WantedLines, command_of,
};
use cli_report::{Cause, ExitStatus, Unwritten, give_up};
use cli_run::{count_by_name, list_calls, list_lines, run_with, sum_calls};
use dbus_call_lines::{Form, Wanted};
use dbus_handshake_input::{HandshakeFault, ReadAhead, Side, pass_handshake};
use dbus_stream::{MOST_READS, Sink, Source, WrittenOnly, write_all};
use std::alloc::Global;

// What is said of a rule whose sender has no owner.
const OWNER_NOTE: &str =
    "note: no owner is known for a rule's sender; --owner NAME=UNIQUE gives one, and --learn-owners takes them from the input\n";

/// Does what [`run_with`] does for the command that the words name, of which the first is the
/// program's name, by the settings that they name and with at most 2^32 reads. If the words ask for
/// help, its text goes to the first writer. If they name no command, a text that says how goes to
/// the second; and if they name a command with a text that spells no rule, `rule refused
/// at P: NAME` and LF, the place in that text and the name of the reason, and then the lines that
/// explain it, if they ask for explanations.
///
/// If they ask for explanations, and a rule of `filter` asks for a well-known sender of which no
/// owner is known, as `cli_options::Selection::lacks_owner` says, a line on the second writer says
/// so first, and how to give owners.
///
/// If they name the side of a handshake, that is taken first, as
/// `dbus_handshake_input::pass_handshake` does, by reads which are none of the 2^32; the run has
/// what follows, and counts its offsets from there. Its reads are calls of the device below
/// `reader`, or are answered by bytes that were read ahead. If the input begins with no handshake
/// of that side, `handshake refused at P: NAME` and LF go to the second writer, with the place from
/// the start of the input and the name of the reason.
///
/// If they name `count`, the second writer gets the report of what is refused as from [`run_with`],
/// and then the first gets the tables of the number of messages with each name, as from
/// [`cli_run::count_by_name`].
///
/// If they name `list`, the first writer gets the lines of the messages, as from
/// [`cli_run::list_lines`].
///
/// If they name `calls`, the first writer gets the lines of the calls in the messages, as from
/// [`cli_run::list_calls`], or with `--members` the table of their members, as from
/// [`cli_run::sum_calls`].
///
/// If they name `encode`, the first writer gets the messages that the lines of the reader spell, as
/// from [`cli_encode::encode_lines`].
///
/// If they name `handshake` with a side, the first writer gets a line for each line of the side's
/// handshake, its offset, the line and what it says, and then `ok N lines B bytes`; or, if the
/// input begins with none, the lines before that place, and the second writer what is said above.
/// All goes out before the status is given, and no more than 16,384 bytes are gathered. No byte
/// after the handshake is looked at.
///
/// `Done`, `Refused`, `Failed`: as [`run_with`] says. `Done` also if help was written, and
/// `Refused` if a handshake was refused. `Usage`: the words name no command, or a rule is refused,
/// and that was reported. `Failed` also if such a text was not written, of help with `write failed`
/// on the second writer; and if an allocation failed, with `out of memory` there.
pub fn run_words<R: Source, W: Sink, E: Sink>(
    alloc: Global,
    words: &[String],
    reader: &mut ReadAhead<R>,
    first: &mut W,
    second: &mut E,
) -> ExitStatus
    ensures { RunsWords R.left R.calls R.failures R.packets R.packet reader.old reader.new
        (writing W.held W.failures first.old first.new)
        (writing E.held E.failures second.old second.new)
        (map string_bytes words.now) result }
{
    run_asked(alloc, command_of(alloc, words), reader, first, second)
}

/// Does what [`run_words`] does for words of which [`command_of`] returned this.
pub fn run_asked<R: Source, W: Sink, E: Sink>(
    alloc: Global,
    answer: Result<Asked, UsageFault>,
    reader: &mut ReadAhead<R>,
    first: &mut W,
    second: &mut E,
) -> ExitStatus
    ensures { Does R.left R.calls R.failures R.packets R.packet reader.old reader.new
        (writing W.held W.failures first.old first.new)
        (writing E.held E.failures second.old second.new) answer result }
{
    match answer {
        Ok(Asked::Messages(request)) => match note_owners(&request, second) {
            Ok(()) => do_task(alloc, request, reader, first, second),
            Err(WrittenOnly(_)) => ExitStatus::Failed,
        },
        Ok(Asked::Encode(wanted)) => encode_lines(
            alloc,
            encoding_wanted(wanted),
            MOST_READS,
            reader,
            first,
            second,
        ),
        Ok(Asked::Handshake(side)) => list_handshake(alloc, side, reader, first, second),
        Err(UsageFault::Memory) => give_up(Cause::Memory, second),
        Err(UsageFault::Help(text) | UsageFault::Version(text)) => {
            show_text(text.as_str(), first, second)
        }
        Err(UsageFault::Usage(text)) => show(text.as_str(), ExitStatus::Usage, second),
        Err(UsageFault::Rule(refused)) => refuse_rule(alloc, &refused, second),
    }
}

// Says of a rule whose sender has no owner that it has none, if there is one and the settings
// explain.
fn note_owners<E: Sink>(request: &Request, second: &mut E) -> Result<(), WrittenOnly>
    ensures { Notes E.held E.failures (is_noted request.now) second.old second.new result }
{
    if request.settings.explains && request.lacks_owner() {
        write_all(second, OWNER_NOTE.as_bytes())
    } else {
        Ok(())
    }
}

// Does what is asked for, after the handshake if the settings name its side.
fn do_task<R: Source, W: Sink, E: Sink>(
    alloc: Global,
    request: Request,
    reader: &mut ReadAhead<R>,
    first: &mut W,
    second: &mut E,
) -> ExitStatus
    ensures { DoesTask R.left R.calls R.failures R.packets R.packet reader.old reader.new
        (writing W.held W.failures first.old first.new)
        (writing E.held E.failures second.old second.new)
        request result }
{
    let Request {
        task,
        selection,
        settings,
    } = request;
    match take_handshake(alloc, settings.handshake, reader) {
        Ok(()) => match task {
            Task::Write(output) => {
                let command = Command { output, selection };
                run_with(alloc, command, settings, MOST_READS, reader, first, second)
            }
            Task::Count => count_by_name(alloc, settings, &selection, reader, first, second),
            Task::Calls(wanted) => do_calls(alloc, settings, wanted, reader, first, second),
            Task::Lines(width) => {
                let wanted = WantedLines { selection, width };
                list_lines(alloc, settings, &wanted, reader, first, second)
            }
        },
        Err(fault) => refuse_handshake(alloc, fault, second),
    }
}

// Lists the calls of messages, or sums them up by their members.
fn do_calls<R: Source, W: Sink, E: Sink>(
    alloc: Global,
    settings: Settings,
    wanted: WantedCalls,
    reader: &mut ReadAhead<R>,
    first: &mut W,
    second: &mut E,
) -> ExitStatus
    ensures { DoesCalls (ahead R.left R.calls R.failures R.packets R.packet reader.old reader.new)
        (writing W.held W.failures first.old first.new)
        (writing E.held E.failures second.old second.new)
        settings wanted.by_member (calls_wanted settings.as_json wanted) result }
{
    let list = calls_wanted(settings.as_json, wanted);
    if wanted.by_member {
        sum_calls(alloc, settings, list, reader, first, second)
    } else {
        list_calls(alloc, settings, list, reader, first, second)
    }
}

// Takes the handshake of a side, if one comes first.
fn take_handshake<R: Source>(
    alloc: Global,
    side: Option<Side>,
    reader: &mut ReadAhead<R>,
) -> Result<(), HandshakeFault>
    ensures { TakesHandshake R.left R.calls R.failures R.packets R.packet side reader.old reader.new
        result }
{
    match side {
        Some(side) => pass_handshake(alloc, side, reader),
        None => Ok(()),
    }
}

// The list that `calls` asks for.
fn calls_wanted(as_json: bool, wanted: WantedCalls) -> Wanted
    ensures { result ≡ calls_wanted as_json wanted }
{
    Wanted {
        form: if as_json { Form::Json } else { Form::Text },
        unanswered: wanted.unanswered,
        errors: wanted.errors,
        slower: wanted.slower,
    }
}

// How lines are encoded, as `encode` asks for it.
fn encoding_wanted(wanted: WantedEncoding) -> Encoding
    ensures { result ≡ encoding_wanted wanted }
{
    Encoding {
        limits: wanted.limits,
        order: wanted.order,
        safe_integers: wanted.safe_integers,
        explains: wanted.explains,
        keeps_going: wanted.keeps_going,
        most: wanted.max_line as usize,
    }
}

// Lists the lines of the handshake of a side.
fn list_handshake<R: Source, W: Sink, E: Sink>(
    alloc: Global,
    side: Side,
    reader: &mut ReadAhead<R>,
    first: &mut W,
    second: &mut E,
) -> ExitStatus
    ensures { Lists R.left R.calls R.failures R.packets R.packet reader.old reader.new
        (writing W.held W.failures first.old first.new)
        (writing E.held E.failures second.old second.new) side result }
{
    match write_lines(alloc, side, reader, first) {
        (_, Err(Unwritten)) => give_up(Cause::WriteFailed, second),
        (Ok(_), Ok(())) => ExitStatus::Done,
        (Err(fault), Ok(())) => refuse_handshake(alloc, fault, second),
    }
}

// Writes a text that was asked for: help, or the version.
fn show_text<W: Sink, E: Sink>(text: &str, first: &mut W, second: &mut E) -> ExitStatus
    ensures { ShowsText (writing W.held W.failures first.old first.new)
        (writing E.held E.failures second.old second.new) text.now result }
{
    match write_all(first, text.as_bytes()) {
        Ok(()) => ExitStatus::Done,
        Err(WrittenOnly(_)) => give_up(Cause::WriteFailed, second),
    }
}

// Writes the text of a fault, of which this is the status.
fn show<E: Sink>(text: &str, status: ExitStatus, second: &mut E) -> ExitStatus
    ensures { Shows E.held E.failures second.old second.new status text.now result }
{
    match write_all(second, text.as_bytes()) {
        Ok(()) => status,
        Err(WrittenOnly(_)) => ExitStatus::Failed,
    }
}

// Writes the line of a rule that is refused, and what explains it.
fn refuse_rule<E: Sink>(alloc: Global, refused: &RefusedRule, second: &mut E) -> ExitStatus
    ensures { RefusesRule E.held E.failures refused.now second.old second.new result }
{
    match rule_text(alloc, refused) {
        Ok(text) => show(text.as_str(), ExitStatus::Usage, second),
        Err(_) => give_up(Cause::Memory, second),
    }
}

// Writes why no handshake was read.
fn refuse_handshake<E: Sink>(alloc: Global, fault: HandshakeFault, second: &mut E) -> ExitStatus
    ensures { TellsHandshake E.held E.failures second.old second.new fault result }
{
    match fault {
        HandshakeFault::Memory => give_up(Cause::Memory, second),
        HandshakeFault::Device => give_up(Cause::ReadFailed, second),
        HandshakeFault::Refused { at, reason } => match handshake_line(alloc, at, reason) {
            Ok(line) => show(line.as_str(), ExitStatus::Refused, second),
            Err(_) => give_up(Cause::Memory, second),
        },
    }
}
