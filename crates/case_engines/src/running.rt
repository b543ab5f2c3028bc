//! Runs of the program over the words of its command line.

use crate::devices::Device;
use crate::made::text_of;
use crate::readers::reads_of;
use case_questions::{Memory, Question, Reply, named};
use dbus_tool::{
    Asked, Command, ExitStatus, ReadAhead, Task, command_of, run, run_reads, run_with, run_within,
    run_words,
};
use std::alloc::{Allocator, Global};
use std::cell::Cell;

// The call that runs a command.
#[derive(Clone, Copy)]
enum Call {
    Run,
    Reads,
    Within,
    With,
}

const CALLS: &[(&str, Call)] = &[
    ("run", Call::Run),
    ("run_reads", Call::Reads),
    ("run_within", Call::Within),
    ("run_with", Call::With),
];

// What a run reads from and writes to.
#[derive(Drop)]
struct Devices<'a, 'b> {
    reader: Device<'a, 'b>,
    first: Device<'a, 'b>,
    second: Device<'a, 'b>,
}

// How the program ends for words; or how the command that they name ends by the call of `by=`,
// which may make `reads=` reads, if they name one over messages.
fn status_of<A: Allocator + Copy>(
    alloc: Global,
    heap: A,
    words: &[String],
    question: Question<'_>,
    devices: &mut Devices<'_, '_>,
) -> Option<ExitStatus> {
    let Devices {
        reader,
        first,
        second,
    } = devices;
    let Some(name) = question.setting("by") else {
        let mut ahead = ReadAhead::new(reader);
        return Some(run_words(alloc, words, &mut ahead, first, second));
    };
    let call = named(CALLS, name)?;
    let Ok(Asked::Messages(request)) = command_of(alloc, words) else {
        return None;
    };
    let Task::Write(output) = request.task else {
        return None;
    };
    let settings = request.settings;
    let command = Command {
        output,
        selection: request.selection,
    };
    let (limits, reads) = (settings.limits, reads_of(question));
    Some(match call {
        Call::Run => run(heap, command, reader, first, second),
        Call::Reads => run_reads(heap, command, reads, reader, first, second),
        Call::Within => run_within(heap, command, limits, reads, reader, first, second),
        Call::With => run_with(heap, command, settings, reads, reader, first, second),
    })
}

// The words that hexadecimal digits spell, with a comma between any two.
fn words_of(alloc: Global, digits: &str) -> Option<Vec<String>> {
    let mut words = Vec::new(alloc);
    for digits in digits.split(',') {
        words.push(text_of(alloc, digits)).ok()?;
    }
    Some(words)
}

// Adds how a run ends over an input: its status, whether it read, and what it wrote; and with
// `told=all` how often it read, how often its reader and both writers failed, and how much the
// first writer had at each read and in the end. Returns what that has.
fn say_run<A: Allocator + Copy>(
    reply: &mut Reply,
    heap: A,
    question: Question<'_>,
    words: &str,
    input: &[u8],
) -> Option<Vec<u8>> {
    let alloc = reply.alloc();
    let (taken, other) = (Cell::new(0), Cell::new(0));
    let mut devices = Devices {
        reader: Device::new(
            alloc,
            input,
            question,
            "reader-size",
            "reader-fails",
            &taken,
        ),
        first: Device::new(alloc, b"", question, "first-size", "first-fails", &taken),
        second: Device::new(alloc, b"", question, "second-size", "second-fails", &other),
    };
    let words = words_of(alloc, words)?;
    let status = status_of(alloc, heap, &words, question, &mut devices)?;
    let Devices {
        reader,
        first,
        second,
    } = devices;
    reply.number(u64::from(status.code()));
    reply.word(if reader.calls > 0 { "read" } else { "unread" });
    reply.bytes(&first.held);
    reply.bytes(&second.held);
    if question.setting("told").is_some() {
        reply.counted("reads", reader.calls);
        reply.counted("failures", reader.failures);
        reply.number(first.failures);
        reply.number(second.failures);
        reply.word("written");
        reply.word(reader.seen.line());
        reply.number(taken.get());
    }
    Some(first.held)
}

/// Adds how the program ends for the words of a question over an input; and if there are two lists
/// of words, with a semicolon between, for the second over what the first made.
pub(crate) fn say_runs<A: Allocator + Copy>(
    reply: &mut Reply,
    memory: Memory<A>,
    question: Question<'_>,
) -> Option<()> {
    let bytes = question.bytes(reply.alloc(), 1);
    let heap = memory.heap;
    match question.word(2).split_once(';') {
        Some((first, second)) => {
            let made = say_run(reply, heap, question, first, &bytes)?;
            say_run(reply, heap, question, second, &made)?;
        }
        None => {
            say_run(reply, heap, question, question.word(2), &bytes)?;
        }
    }
    Some(())
}
