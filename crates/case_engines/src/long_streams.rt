//! What readers give of streams that are too long to hold, and what memory it takes.

use crate::repeated::{PartsSource, STREAMS};
use case_questions::{Question, Reply, named};
use dbus_stream::{CheckReader, MessageReader, ReadFault};
use refusing_alloc::Refusing;
use std::alloc::Allocator;

// How many messages are read in a round, and how many rounds at most.
const ROUND: u64 = 100_000;

const MOST_ROUNDS: u64 = 20;

// A reader of which the lengths of the messages are asked.
trait Lengths {
    // The length of the next message, if there is one.
    fn next_length(&mut self) -> Result<Option<u64>, ReadFault>;
}

impl Lengths for CheckReader<PartsSource> {
    fn next_length(&mut self) -> Result<Option<u64>, ReadFault> {
        self.next()
    }
}

impl<A: Allocator + Copy> Lengths for MessageReader<PartsSource, A> {
    fn next_length(&mut self) -> Result<Option<u64>, ReadFault> {
        match self.next() {
            Ok(Some((_, message))) => Ok(Some(message.size() as u64)),
            Ok(None) => Ok(None),
            Err(fault) => Err(fault),
        }
    }
}

// What a round came to: how many messages were given, of how many bytes, how many growths they
// took, and how many blocks are out.
#[derive(Clone, Copy, PartialEq, Eq)]
struct Round {
    given: u64,
    bytes: u64,
    growths: u64,
    blocks: u64,
}

// Reads a round of messages, or fewer if there are no more. What it takes of memory comes from
// there.
fn read_round<R: Lengths>(heap: &Refusing, reader: &mut R) -> Round {
    heap.refuse_none();
    let (mut given, mut bytes) = (0u64, 0u64);
    for _ in 0..ROUND {
        let Ok(Some(length)) = reader.next_length() else {
            break;
        };
        given = given.saturating_add(1);
        bytes = bytes.saturating_add(length);
    }
    Round {
        given,
        bytes,
        growths: heap.growths(),
        blocks: heap.blocks(),
    }
}

// Adds how many messages a reader gives, and of how many bytes; what it then says twice; and how
// many rounds took other memory than the ones before, of which the first also takes what the reader
// keeps.
fn say_given<R: Lengths>(reply: &mut Reply, heap: &Refusing, reader: &mut R) {
    let mut last = read_round(heap, reader);
    let (mut given, mut bytes) = (last.given, last.bytes);
    let mut differing = 0u64;
    for round in 1..MOST_ROUNDS {
        if last.given < ROUND {
            break;
        }
        let this = read_round(heap, reader);
        given = given.saturating_add(this.given);
        bytes = bytes.saturating_add(this.bytes);
        if round > 1 && this.given == ROUND && this != last {
            differing = differing.saturating_add(1);
        }
        last = this;
    }
    reply.number(given);
    reply.number(bytes);
    for _ in 0..2 {
        match reader.next_length() {
            Ok(length) => reply.found(length),
            Err(fault) => reply.told(&fault),
        }
    }
    reply.number(differing);
}

/// Adds what a reader gives of the stream that the first word names: with `reader=lengths` one that
/// checks messages, and else one that builds them.
pub(crate) fn say_long(reply: &mut Reply, question: Question<'_>) -> Option<()> {
    let parts = named(STREAMS, question.word(1))?;
    let heap = Refusing::none(reply.alloc());
    if question.setting("reader") == Some("lengths") {
        let mut reader = CheckReader::new(PartsSource::new(parts));
        say_given(reply, &heap, &mut reader);
    } else {
        let mut reader = MessageReader::new(&heap, PartsSource::new(parts));
        say_given(reply, &heap, &mut reader);
    }
    Some(())
}
