//! Lines of the handshake: what they mean, and how that is written.

use case_questions::{Memory, Question, Reply, bytes_of, named};
use dbus_auth_lines::{
    ClientLine, Guid, ServerLine, client_text, read_client, read_server, server_text,
};
use dbus_handshake_input::Side;
use std::alloc::Allocator;

// The first word of a meaning.
#[derive(Clone, Copy)]
enum Meaning {
    Auth,
    AuthBy,
    Cancel,
    Begin,
    Negotiate,
    Rejected,
    Accepted,
    Agree,
    Data,
    Error,
}

const MEANINGS: &[(&str, Meaning)] = &[
    ("auth", Meaning::Auth),
    ("auth-by", Meaning::AuthBy),
    ("cancel", Meaning::Cancel),
    ("begin", Meaning::Begin),
    ("negotiate", Meaning::Negotiate),
    ("rejected", Meaning::Rejected),
    ("ok", Meaning::Accepted),
    ("agree", Meaning::Agree),
    ("data", Meaning::Data),
    ("error", Meaning::Error),
];

fn say_client_line<A: Allocator>(reply: &mut Reply, line: &ClientLine<A>) {
    match line {
        ClientLine::Auth => reply.word("auth"),
        ClientLine::AuthBy { mech, response } => {
            reply.spelled("auth-by", mech);
            reply.bytes(response);
        }
        ClientLine::Cancel => reply.word("cancel"),
        ClientLine::Begin => reply.word("begin"),
        ClientLine::DataOf(bytes) => reply.spelled("data", bytes),
        ClientLine::Error(text) => reply.spelled("error", text),
        ClientLine::Negotiate => reply.word("negotiate"),
        ClientLine::Other => reply.word("other"),
    }
}

fn say_server_line<A: Allocator>(reply: &mut Reply, line: &ServerLine<A>) {
    match line {
        ServerLine::Rejected(words) => {
            reply.word("rejected");
            for word in words {
                reply.bytes(word);
            }
        }
        ServerLine::Accepted(guid) => reply.spelled("ok", &guid.0),
        ServerLine::DataOf(bytes) => reply.spelled("data", bytes),
        ServerLine::Error(text) => reply.spelled("error", text),
        ServerLine::Agree => reply.word("agree"),
        ServerLine::Other => reply.word("other"),
    }
}

/// Adds what a line of a side means to the other one.
pub(crate) fn say_meaning<A: Allocator + Copy>(
    reply: &mut Reply,
    memory: Memory<A>,
    question: Question<'_>,
    side: Side,
) -> Option<()> {
    let line = question.bytes(reply.alloc(), 1);
    match side {
        Side::Client => match read_client(memory.heap, &line) {
            Ok(line) => say_client_line(reply, &line),
            Err(fault) => reply.told(&fault),
        },
        Side::Server => match read_server(memory.heap, &line) {
            Ok(line) => say_server_line(reply, &line),
            Err(fault) => reply.told(&fault),
        },
    }
    Some(())
}

// The client's line that the words mean.
fn client_line<A: Allocator + Copy>(alloc: A, question: Question<'_>) -> ClientLine<A> {
    let bytes = question.bytes(alloc, 2);
    match named(MEANINGS, question.word(1)) {
        Some(Meaning::Auth) => ClientLine::Auth,
        Some(Meaning::AuthBy) => ClientLine::AuthBy {
            mech: bytes,
            response: question.bytes(alloc, 3),
        },
        Some(Meaning::Cancel) => ClientLine::Cancel,
        Some(Meaning::Begin) => ClientLine::Begin,
        Some(Meaning::Data) => ClientLine::DataOf(bytes),
        Some(Meaning::Error) => ClientLine::Error(bytes),
        Some(Meaning::Negotiate) => ClientLine::Negotiate,
        _ => ClientLine::Other,
    }
}

// The server's line that they mean.
fn server_line<A: Allocator + Copy>(alloc: A, question: Question<'_>) -> Option<ServerLine<A>> {
    let bytes = question.bytes(alloc, 2);
    Some(match named(MEANINGS, question.word(1)) {
        Some(Meaning::Rejected) => ServerLine::Rejected(words_of(alloc, question)?),
        Some(Meaning::Accepted) => ServerLine::Accepted(guid_of(alloc, question.word(2))?),
        Some(Meaning::Data) => ServerLine::DataOf(bytes),
        Some(Meaning::Error) => ServerLine::Error(bytes),
        Some(Meaning::Agree) => ServerLine::Agree,
        _ => ServerLine::Other,
    })
}

// The bytes that the words from the second on spell.
fn words_of<A: Allocator + Copy>(alloc: A, question: Question<'_>) -> Option<Vec<Vec<u8, A>, A>> {
    let mut words = Vec::new(alloc);
    for n in 2..usize::MAX {
        if question.word(n).is_empty() {
            break;
        }
        words.push(bytes_of(alloc, question.word(n))).ok()?;
    }
    Some(words)
}

/// The GUID of hexadecimal digits.
pub(crate) fn guid_of<A: Allocator + Copy>(alloc: A, digits: &str) -> Option<Guid> {
    let bytes = bytes_of(alloc, digits);
    let mut guid = [0; 16];
    if bytes.len() != guid.len() {
        return None;
    }
    guid.copy_from_slice(&bytes);
    Some(Guid(guid))
}

/// Adds the line of a meaning with its CR LF, or that no line spells it.
pub(crate) fn say_written<A: Allocator + Copy>(
    reply: &mut Reply,
    memory: Memory<A>,
    question: Question<'_>,
    side: Side,
) -> Option<()> {
    match side {
        Side::Client => {
            let line = client_line(memory.spare, question);
            reply.made(client_text(memory.heap, &line));
        }
        Side::Server => {
            let line = server_line(memory.spare, question)?;
            reply.made(server_text(memory.heap, &line));
        }
    }
    Some(())
}
