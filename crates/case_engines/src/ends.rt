//! Both ends of a connection, and what an end did with what was handed to it.

ghost use Rattle.std.specs.Prelude.{◌≡◌, true};
ghost use Rattle.dbus_auth.specs.EndViews.{client_end_state};

use crate::pieces::{Pieces, hand_over};
use crate::setups::{bounds_of, client_of, server_of};
use case_questions::{Engine, Memory, Question, Reply, bytes_of, say_places, split};
use dbus_auth::{ClientEnd, EndStep, ServerEnd, Status};
use dbus_handshake_input::Side;
use std::alloc::{AllocError, Allocator, Global};

// How often each end receives what is under way to it.
const ROUNDS: u32 = 20;

// A client's end that has started.
#[derive(Drop)]
struct Started<A: Allocator + Copy> {
    end: ClientEnd<A>,
    ghost started: { (client_end_state end).started ≡ true },
}

// One of the two ends.
#[derive(Drop)]
enum End<A: Allocator + Copy> {
    Server(ServerEnd<A>),
    Client(Started<A>),
}

// An end, and what it did so far.
#[derive(Drop)]
struct Led<A: Allocator + Copy> {
    end: End<A>,
    // What its caller sends once it has begun.
    message: Vec<u8>,
    // What was sent.
    sent: Vec<u8>,
    // How many bytes it took, and how many each call that took any.
    taken: usize,
    takes: Reply,
    status: Status,
}

// The end of a server, or that of a client, which has started, and what it sent. A call that was
// refused memory is made again.
fn end_of<A: Allocator + Copy>(
    memory: Memory<A>,
    question: Question<'_>,
    side: Side,
) -> Option<(End<A>, Vec<u8, A>)> {
    if side == Side::Server {
        let end = ServerEnd::new(memory.heap, server_of(memory.spare, question)?);
        return Some((End::Server(end), Vec::new(memory.heap)));
    }
    let mut end = ClientEnd::new(memory.heap, client_of(memory.spare, question)?);
    let sent = match end.start() {
        Ok(sent) => sent,
        Err(AllocError) => end.start().ok()?,
    };
    Some((End::Client(Started { end }), sent))
}

impl<A: Allocator + Copy> Led<A> {
    // The end that a question says.
    fn new(alloc: Global, memory: Memory<A>, question: Question<'_>, side: Side) -> Option<Led<A>> {
        let (end, sent) = end_of(memory, question, side)?;
        let mut led = Led {
            end,
            message: bytes_of(alloc, question.setting("message").unwrap_or("")),
            sent: Vec::from_slice(alloc, &sent).ok()?,
            taken: 0,
            takes: Reply::new(alloc),
            status: Status::Talking,
        };
        led.bound(question);
        Some(led)
    }

    // Bounds the end, if the question says so.
    fn bound(&mut self, question: Question<'_>) {
        let Some(bounds) = bounds_of(question) else {
            return;
        };
        match &mut self.end {
            End::Server(end) => end.set_bounds(bounds),
            End::Client(client) => client.end.set_bounds(bounds),
        }
    }

    fn take(&mut self, piece: &[u8]) -> Result<EndStep<A>, AllocError> {
        match &mut self.end {
            End::Server(end) => end.take(piece),
            End::Client(client) => client.end.take(piece),
        }
    }

    // Notes what a call did.
    fn note(&mut self, step: &EndStep<A>) -> Result<(), AllocError> {
        if step.taken > 0 {
            self.takes.number(step.taken as u64);
            self.taken = self.taken.saturating_add(step.taken);
        }
        self.sent.extend_from_slice(&step.send)?;
        if step.status == Status::Begun && self.status == Status::Talking {
            self.sent.extend_from_slice(&self.message)?;
        }
        self.status = step.status;
        Ok(())
    }

    // Hands over what the other end sent, as far as this one did not take it.
    fn receive(&mut self, question: Question<'_>, sent: &[u8]) {
        let (_, under_way) = split(sent, self.taken);
        hand_over(self, question, under_way, 0);
    }

    // Adds what it sent, its status, the GUID that a client has, and whether both agreed; and with
    // `taken=each` how many bytes each call took, with `taken=all` all calls.
    fn say(&self, reply: &mut Reply, question: Question<'_>) {
        reply.bytes(&self.sent);
        reply.variant(&self.status);
        let agreed = match &self.end {
            End::Server(end) => end.agreed(),
            End::Client(client) => {
                reply.found(client.end.guid());
                client.end.agreed()
            }
        };
        if agreed {
            reply.word("agreed");
        }
        match question.setting("taken") {
            Some("each") => reply.word(self.takes.line()),
            Some(_) => reply.number(self.taken as u64),
            None => {}
        }
    }
}

impl<A: Allocator + Copy> Pieces for Led<A> {
    // What a call leaves is handed over again until nothing is left or the end no longer talks, and
    // so is all of it to a call that was refused memory.
    fn take_all(&mut self, piece: &[u8]) {
        let mut rest = piece;
        for _ in 0..piece.len() + 2 {
            if let Ok(step) = self.take(rest) {
                rest = rest.get(step.taken..).unwrap_or(&[]);
                if self.note(&step).is_err() {
                    self.takes.fail();
                }
                if rest.is_empty() || step.status != Status::Talking {
                    break;
                }
            }
        }
    }
}

// An end that is handed bytes.
#[derive(Drop)]
struct Handed<'a, A: Allocator + Copy> {
    memory: Memory<A>,
    question: Question<'a>,
    side: Side,
    bytes: &'a [u8],
}

impl<A: Allocator + Copy> Engine for Handed<'_, A> {
    fn say(&mut self, reply: &mut Reply, place: usize) {
        match Led::new(reply.alloc(), self.memory, self.question, self.side) {
            Some(mut led) => {
                hand_over(&mut led, self.question, self.bytes, place);
                led.say(reply, self.question);
            }
            None => reply.word("no end"),
        }
    }
}

/// Adds what an end does that is handed bytes.
pub(crate) fn say_end<A: Allocator + Copy>(
    reply: &mut Reply,
    memory: Memory<A>,
    question: Question<'_>,
    side: Side,
) -> Option<()> {
    let bytes = question.bytes(reply.alloc(), 1);
    let mut handed = Handed {
        memory,
        question,
        side,
        bytes: &bytes,
    };
    say_places(reply, question, &mut handed, 0, 0);
    Some(())
}

// What both ends do with one another.
fn say_both<A: Allocator + Copy>(
    reply: &mut Reply,
    question: Question<'_>,
    client: &mut Led<A>,
    server: &mut Led<A>,
) {
    for _ in 0..ROUNDS {
        server.receive(question, &client.sent);
        client.receive(question, &server.sent);
    }
    client.say(reply, question);
    server.say(reply, question);
}

/// Adds what a client and a server do with one another, of which each sends `message=` once it has
/// begun; and how many bytes each took.
pub(crate) fn say_handshake<A: Allocator + Copy>(
    reply: &mut Reply,
    memory: Memory<A>,
    question: Question<'_>,
) -> Option<()> {
    let mut client = Led::new(reply.alloc(), memory, question, Side::Client)?;
    let mut server = Led::new(reply.alloc(), memory, question, Side::Server)?;
    say_both(reply, question, &mut client, &mut server);
    Some(())
}
