//! What a stream of messages is decoded to, and what a cutter gives that is handed it in pieces.
//!
//! Of each message come the bytes that spell it.

use case_questions::{Engine, Memory, Question, Reply, say_places, split};
use dbus_message::{Answer, decode_within, encode};
use dbus_stream::{Cutter, StreamFault};
use dbus_value::{Limits, Reason};
use std::alloc::{Allocator, Global};

/// The words of a call that was refused memory.
pub(crate) const OUT_OF_MEMORY: &str = "out of memory";

/// What is asked of a stream.
#[derive(Clone, Copy)]
pub(crate) enum OfStream {
    /// At each place what the bytes up to there are decoded to.
    Decode,
    /// At each place what a cutter says that was handed the bytes between each place and the next.
    Cut,
    /// At each place what one says that is handed the bytes up to there, and then the others.
    CutInTwo,
}

// Bytes, and the limits of the messages in them.
#[derive(Drop)]
struct Stream<'a, A: Allocator + Copy> {
    memory: Memory<A>,
    bytes: &'a [u8],
    limits: Limits,
}

// Adds the first message of these bytes, or what they are that begin with none. Returns what comes
// after the message.
fn say_decoded<'b, A: Allocator + Copy>(
    reply: &mut Reply,
    stream: &Stream<'_, A>,
    bytes: &'b [u8],
) -> Option<&'b [u8]> {
    let Memory { heap, spare } = stream.memory;
    match decode_within(heap, bytes, stream.limits) {
        Ok(
            Answer::Whole {
                order,
                message,
                used,
            },
        ) => {
            reply.made(encode(spare, &message, order));
            return bytes.get(used..);
        }
        Ok(Answer::Partial) => reply.word(if bytes.is_empty() { "done" } else { "partial" }),
        Err(fault) => reply.told(&fault),
    }
    None
}

// Decoding, of one message after the other.
#[derive(Drop)]
struct Decoding<'a, A: Allocator + Copy>(Stream<'a, A>);

impl<A: Allocator + Copy> Engine for Decoding<'_, A> {
    fn say(&mut self, reply: &mut Reply, place: usize) {
        let (mut left, _) = split(self.0.bytes, place);
        for _ in 0..left.len() + 2 {
            match say_decoded(reply, &self.0, left) {
                Some(after) => left = after,
                None => break,
            }
        }
    }
}

// A cutter.
#[derive(Drop)]
struct Cutting<'a, A: Allocator> {
    spare: A,
    bytes: &'a [u8],
    cutter: Cutter<A>,
    // How many bytes it was handed, and what it gave.
    handed: usize,
    given: Reply,
}

impl<'a, A: Allocator + Copy> Cutting<'a, A> {
    fn new(alloc: Global, stream: &Stream<'a, A>) -> Cutting<'a, A> {
        let Memory { heap, spare } = stream.memory;
        let mut given = Reply::new(alloc);
        given.word("gave");
        Cutting {
            spare,
            bytes: stream.bytes,
            cutter: Cutter::within(heap, stream.limits),
            handed: 0,
            given,
        }
    }

    // Hands a piece over, and again what a call leaves of it, or all of it to a call that was
    // refused memory.
    fn hand_over(&mut self, piece: &[u8]) -> Result<(), StreamFault> {
        let mut left = piece;
        for _ in 0..piece.len() + 2 {
            match self.cutter.take(left) {
                Ok((taken, Some((order, message)))) => {
                    self.given.made(encode(self.spare, &message, order));
                    left = left.get(taken..).unwrap_or(&[]);
                }
                Ok((_, None)) => break,
                Err(StreamFault::Memory) => self.given.word(OUT_OF_MEMORY),
                Err(fault) => return Err(fault),
            }
        }
        Ok(())
    }
}

// It is handed what comes before each place. Then come all that it gave, what the last call
// answered, and what it says if the input ends there: of a beginning of a message also how many
// bytes it says that came before.
impl<A: Allocator + Copy> Engine for Cutting<'_, A> {
    fn say(&mut self, reply: &mut Reply, place: usize) {
        let (front, _) = split(self.bytes, place);
        let (_, piece) = split(front, self.handed);
        self.handed = front.len();
        let answered = self.hand_over(piece);
        reply.word(self.given.line());
        reply.checked(answered);
        let handed = self.handed as u64;
        match self.cutter.finish() {
            Err(fault) if fault.reason == Reason::Truncated => {
                reply.counted("partial", handed.saturating_sub(fault.at));
            }
            ended => reply.checked(ended),
        }
        if answered.is_ok() {
            reply.number(handed.saturating_sub(self.cutter.held() as u64));
        }
    }
}

// Cutters that are handed two pieces.
#[derive(Drop)]
struct InTwo<'a, A: Allocator + Copy>(Stream<'a, A>);

impl<A: Allocator + Copy> Engine for InTwo<'_, A> {
    fn say(&mut self, reply: &mut Reply, place: usize) {
        let mut cutting = Cutting::new(reply.alloc(), &self.0);
        cutting.say(reply, place);
        reply.word("then");
        cutting.say(reply, usize::MAX);
    }
}

/// Adds what is answered of a stream.
pub(crate) fn say<A: Allocator + Copy>(
    reply: &mut Reply,
    memory: Memory<A>,
    question: Question<'_>,
    asked: OfStream,
) -> Option<()> {
    let bytes = question.bytes(reply.alloc(), 1);
    let stream = Stream {
        memory,
        bytes: &bytes,
        limits: question.limits(),
    };
    match asked {
        OfStream::Decode => say_places(reply, question, &mut Decoding(stream), 0, 0),
        OfStream::Cut => {
            let mut cutting = Cutting::new(reply.alloc(), &stream);
            say_places(reply, question, &mut cutting, 0, 0);
        }
        OfStream::CutInTwo => say_places(reply, question, &mut InTwo(stream), 0, 0),
    }
    Some(())
}
