//! `dbus-wire`: reads D-Bus messages from standard input, one after the other, and does with them
//! what its command line says: `show` writes each as text, `json` as a line of JSON, `swap` in one
//! byte order, `filter` those that match a rule as they came, `check` counts them, and `count` by
//! names. `encode` writes the messages of lines of JSON. `handshake` lists the lines before them.
//! With `--handshake` the messages follow the handshake of one side of a connection. From a pcap or
//! pcapng file it reads the D-Bus packets, but for `encode`.
//!
//! Output and help go to standard output. A line on standard error, of `check` on standard output,
//! reports that the input is refused. Standard error also has how many packets of a file were passed
//! over, why they cannot be read on, why the command line is wrong, and why a run failed. The exit
//! status is 0 if the whole input is messages, or help or the version was asked for; 1 if the input
//! is refused; 2 if the command line is wrong; 3 if a read or a write failed, too many reads were
//! made, or memory ran out.
#![tactic(auto)]

ghost use Rattle.std.specs.Prelude.{◌≡◌, map, string_bytes, IfOk};
ghost use Rattle.cli_options.specs.Named.{IsNamedBy};
ghost use Rattle.cli_options.specs.Told.{TellsFault};
ghost use Rattle.std.specs.IoError.{error_kind};
ghost use Rattle.cli_report.specs.Devices.{writing};
ghost use Rattle.dbus_tool.specs.Handshaking.{Shows};
ghost use Rattle.dbus_tool.specs.Words.{RunsWords};
ghost use Rattle.dbus_wire.specs.FileReports.{settings_of, takes_lines};
ghost use Rattle.dbus_wire.specs.NoWords.{TellsNoWords};

mod file_report;

use dbus_capture::Capture;
use dbus_stream::{FromRead, FromWrite, Sink, Source, WrittenOnly, write_all};
use dbus_tool::{Asked, ExitStatus, ReadAhead, Settings, UsageFault, command_of, run_asked};
use file_report::{FileEnd, Telling, form_of, tell_file};
use std::alloc::Global;
use std::io::ErrorKind;
use std::process::ExitCode;
use std::{env, io};

fn main(rt: HostRuntime) -> ExitCode {
    let mut first = FromWrite::new(rt.stdout());
    let mut second = FromWrite::new(rt.stderr());
    let status = match words_of(&rt) {
        Ok(words) => run(
            rt.alloc(),
            words.as_slice(),
            FromRead::new(rt.stdin()),
            &mut first,
            &mut second,
        ),
        Err(error) => tell_no_words(error.kind(), &mut second),
    };
    ExitCode::from(status.code())
}

// The words of the command line, of which the first is the program's name.
fn words_of(rt: &HostRuntime) -> io::Result<Vec<String>> {
    Ok(env::args(rt)?.collect(rt.alloc())?)
}

// Does what the words ask for with an input, of which the packets are read if it is a file of them,
// and says then what is wrong with the file; but `encode` reads lines, also if they begin as one.
fn run<R: Source + Drop, W: Sink, E: Sink>(
    alloc: Global,
    words: &[String],
    input: R,
    first: &mut W,
    second: &mut E,
) -> ExitStatus {
    let asked = command_of(alloc, words);
    if takes_lines(&asked) {
        let mut reader = ReadAhead::new(input);
        return run_on(alloc, words, asked, &mut reader, first, second);
    }
    let (passes_cut, form) = match settings_of(&asked) {
        Some(settings) => (settings.keeps_going, form_of(settings)),
        None => (false, Telling::Text),
    };
    let mut capture = Capture::new(input, passes_cut);
    let mut reader = ReadAhead::new(&mut capture);
    let status = run_on(alloc, words, asked, &mut reader, first, second);
    let cut = capture.cut_packets();
    let end = FileEnd {
        cut,
        others: capture.passed_over().wrapping_sub(cut),
        fault: capture.fault(),
    };
    tell_file(alloc, end, form, status, second)
}

// Does what these words ask for, as they were read.
fn run_on<R: Source, W: Sink, E: Sink>(
    alloc: Global,
    _words: &[String],
    asked: Result<Asked, UsageFault>,
    reader: &mut ReadAhead<R>,
    first: &mut W,
    second: &mut E,
) -> ExitStatus
    requires named { IfOk asked (IsNamedBy (map string_bytes _words.now)) }
    requires faults { TellsFault (map string_bytes _words.now) asked }
    ensures { RunsWords R.left R.calls R.failures R.packets R.packet reader.old reader.new
        (writing W.held W.failures first.old first.new)
        (writing E.held E.failures second.old second.new)
        (map string_bytes _words.now) result }
{
    run_asked(alloc, asked, reader, first, second)
}

// Whether standard input is lines: no file of packets, also if its first bytes are those of one.
fn takes_lines(asked: &Result<Asked, UsageFault>) -> bool
    ensures { result ≡ takes_lines asked.now }
{
    matches!(asked, Ok(Asked::Encode(_)))
}

// The settings of a command over messages, if the words ask for one. Packets that were cut are
// passed over if it keeps going.
fn settings_of(asked: &Result<Asked, UsageFault>) -> Option<Settings>
    ensures { result ≡ settings_of asked.now }
{
    match asked {
        Ok(Asked::Messages(request)) => Some(request.settings),
        Ok(Asked::Encode(_) | Asked::Handshake(_)) | Err(_) => None,
    }
}

// Says why the words of the command line are not there.
fn tell_no_words<E: Sink>(kind: ErrorKind, second: &mut E) -> ExitStatus
    ensures { TellsNoWords E.held E.failures second.old second.new kind result }
{
    if kind == ErrorKind::OutOfMemory {
        tell("out of memory\n", ExitStatus::Failed, second)
    } else {
        tell(
            "error: an argument is not UTF-8\n",
            ExitStatus::Usage,
            second,
        )
    }
}

// Writes a line, and returns the status, or that it failed.
fn tell<E: Sink>(line: &str, status: ExitStatus, second: &mut E) -> ExitStatus
    ensures { Shows E.held E.failures second.old second.new status line.now result }
{
    match write_all(second, line.as_bytes()) {
        Ok(()) => status,
        Err(WrittenOnly(_)) => ExitStatus::Failed,
    }
}
