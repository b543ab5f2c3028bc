//! What takes a stream out of a source: readers of messages, and of the handshake before them.

ghost use Rattle.std.specs.Prelude.{◌≤◌, ◌^◌};

use crate::devices::Device;
use crate::streams::OUT_OF_MEMORY;
use case_questions::{Memory, Question, Reply, named};
use dbus_capture::Capture;
use dbus_device::Source;
use dbus_handshake_input::{ReadAhead, Side, pass_handshake};
use dbus_message::encode;
use dbus_stream::{CheckReader, MOST_READS, MessageReader, Passed, RawReader, ReadFault};
use std::alloc::Allocator;
use std::cell::Cell;

// A call of a reader.
#[derive(Clone, Copy)]
enum Call {
    Next,
    Advance,
    Kept,
    Pass,
    // What is lent, and how many bytes the messages have that it gave.
    Lent,
    Done,
}

const CALLS: &[(&str, Call)] = &[
    ("next", Call::Next),
    ("advance", Call::Advance),
    ("kept", Call::Kept),
    ("pass", Call::Pass),
    ("lent", Call::Lent),
    ("done", Call::Done),
];

trait Reader<A: Allocator + Copy> {
    // Makes a call, and adds what it gives.
    fn call(&mut self, reply: &mut Reply, spare: A, call: Call) -> Result<(), ReadFault>;
}

impl<A: Allocator + Copy, S: Source> Reader<A> for MessageReader<S, A> {
    fn call(&mut self, reply: &mut Reply, spare: A, call: Call) -> Result<(), ReadFault> {
        let given = match call {
            Call::Done => {
                reply.number(self.done());
                return Ok(());
            }
            Call::Kept => self.next_kept()?,
            _ => self.next()?,
        };
        match given {
            Some((order, message)) => reply.made(encode(spare, &message, order)),
            None => reply.word("none"),
        }
        Ok(())
    }
}

impl<A: Allocator + Copy, S: Source> Reader<A> for CheckReader<S> {
    fn call(&mut self, reply: &mut Reply, _spare: A, call: Call) -> Result<(), ReadFault> {
        match call {
            Call::Done => reply.number(self.done()),
            _ => reply.found(self.next()?),
        }
        Ok(())
    }
}

impl<A: Allocator + Copy, S: Source> Reader<A> for RawReader<S, A> {
    fn call(&mut self, reply: &mut Reply, _spare: A, call: Call) -> Result<(), ReadFault> {
        let lent = match call {
            Call::Done => {
                reply.number(self.done());
                return Ok(());
            }
            Call::Lent => {
                reply.bytes(self.message());
                return Ok(());
            }
            Call::Pass => {
                reply.word(match self.pass_over()? {
                    Passed::Over => "passed",
                    Passed::CutOff => "cut off",
                    Passed::Not => "nothing passed",
                });
                return Ok(());
            }
            Call::Next => {
                match self.next()? {
                    Some(bytes) => reply.bytes(&bytes),
                    None => reply.word("none"),
                }
                return Ok(());
            }
            Call::Kept => self.advance_kept()?,
            Call::Advance => self.advance()?,
        };
        match lent {
            Some(validated) => reply.number(validated.length as u64),
            None => reply.word("none"),
        }
        Ok(())
    }
}

// Makes the calls of `calls=`. A call that was refused memory is made again.
fn ask<A: Allocator + Copy, R: Reader<A>>(
    reply: &mut Reply,
    spare: A,
    question: Question<'_>,
    reader: &mut R,
) -> Option<()> {
    for name in question.setting("calls")?.split(',') {
        let call = named(CALLS, name)?;
        let mut given = reader.call(reply, spare, call);
        if given == Err(ReadFault::Memory) {
            reply.word(OUT_OF_MEMORY);
            given = reader.call(reply, spare, call);
        }
        if let Err(fault) = given {
            reply.told(&fault);
        }
    }
    Some(())
}

/// How many reads may be made, as `reads=` says.
pub(crate) fn reads_of(question: Question<'_>) -> u64
    ensures { result ≤ 2 ^ 32 }
{
    question
        .number("reads")
        .unwrap_or(MOST_READS)
        .min(MOST_READS)
}

/// Adds what a reader gives that `reader=` says, in the calls of `calls=`, over a source of `size=`
/// bytes a read, whose read of the number `fails=` fails; it may make `reads=` reads. Then come how
/// many reads it made, and how many of them failed.
pub(crate) fn say_read<A: Allocator + Copy>(
    reply: &mut Reply,
    memory: Memory<A>,
    question: Question<'_>,
) -> Option<()> {
    let bytes = question.bytes(reply.alloc(), 1);
    let taken = Cell::new(0);
    let mut source = Device::new(reply.alloc(), &bytes, question, "size", "fails", &taken);
    let Memory { heap, spare } = memory;
    let (reads, limits) = (reads_of(question), question.limits());
    match question.setting("reader")? {
        "messages" => {
            let mut reader = MessageReader::within(heap, &mut source, reads, limits);
            ask(reply, spare, question, &mut reader)?;
        }
        "lengths" => {
            let mut reader = CheckReader::within(&mut source, reads, limits);
            ask(reply, spare, question, &mut reader)?;
        }
        "file" => {
            let mut reader = CheckReader::new(Capture::new(&mut source, false));
            ask(reply, spare, question, &mut reader)?;
        }
        _ => {
            let mut reader = RawReader::within(heap, &mut source, reads, limits);
            ask(reply, spare, question, &mut reader)?;
        }
    }
    reply.number(source.calls);
    reply.number(source.failures);
    Some(())
}

/// Adds what comes of taking the handshake of a side out of such a source, and how many reads were
/// made.
pub(crate) fn say_passed<A: Allocator + Copy>(
    reply: &mut Reply,
    memory: Memory<A>,
    question: Question<'_>,
    side: Side,
) -> Option<()> {
    let bytes = question.bytes(reply.alloc(), 1);
    let taken = Cell::new(0);
    let mut source = Device::new(reply.alloc(), &bytes, question, "size", "fails", &taken);
    let mut ahead = ReadAhead::new(&mut source);
    reply.checked(pass_handshake(memory.heap, side, &mut ahead));
    reply.number(source.calls);
    Some(())
}
