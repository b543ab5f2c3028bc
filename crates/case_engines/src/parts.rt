//! Messages of parts that the words of a question make.

use crate::made::made;
use case_questions::{Memory, Question, Reply};
use dbus_message::{Build, HeaderField, Message, Parts, Within, encode};
use dbus_value::{Limits, Order};
use std::alloc::Allocator;

// More bytes of a message are counted alone.
const MOST_TOLD: usize = 100_000;

// The parts of a message of a type and a serial, with a header field of each `CODE=VALUE` and a
// value of its body of each `body=VALUE`, in the words from the third on.
fn parts_of<A: Allocator + Copy>(alloc: A, question: Question<'_>) -> Option<Parts<A>> {
    let mut parts = Parts {
        kind: question.word(1).parse().ok()?,
        flags: 1,
        serial: question.word(2).parse().ok()?,
        fields: Vec::new(alloc),
        body: Vec::new(alloc),
    };
    for n in 3..usize::MAX {
        let Some((name, word)) = question.word(n).split_once('=') else {
            break;
        };
        if name == "body" {
            parts.body.push(made(alloc, word, question)?).ok()?;
        } else if let Ok(code) = name.parse::<u8>() {
            let value = made(alloc, word, question)?;
            parts.fields.push(HeaderField { code, value }).ok()?;
        }
    }
    Some(parts)
}

/// Adds the bytes of a message in both orders, or how many they are.
pub(crate) fn say_message<A: Allocator + Copy>(reply: &mut Reply, alloc: A, message: &Message<A>) {
    if message.size() > MOST_TOLD {
        reply.counted("of", message.size() as u64);
    } else {
        reply.made(encode(alloc, message, Order::Little));
        reply.made(encode(alloc, message, Order::Big));
    }
}

// The message of parts under limits, or why there is none and how many fields and values come back.
fn say_made<A: Allocator + Copy>(
    reply: &mut Reply,
    memory: Memory<A>,
    parts: Parts<A>,
    limits: Limits,
) {
    let made = if limits == Limits::specification() {
        Message::new(memory.heap, parts)
    } else {
        Message::new_within(memory.heap, parts, limits)
    };
    match made {
        Ok(message) => say_message(reply, memory.spare, &message),
        Err((back, fault)) => {
            reply.counted("refused", back.fields.len() as u64);
            reply.number(back.body.len() as u64);
            reply.told(&fault);
        }
    }
}

// Whether the message that the parts are under the limits of the specification keeps others.
fn say_within<A: Allocator + Copy>(reply: &mut Reply, alloc: A, parts: Parts<A>, limits: Limits) {
    let is_within = match Message::new(alloc, parts) {
        Ok(message) => message.within(limits),
        Err(_) => false,
    };
    reply.word(if is_within { "within" } else { "beyond" });
}

/// Adds what is made of parts and, under limits, whether a message of theirs keeps these.
pub(crate) fn say_new<A: Allocator + Copy>(
    reply: &mut Reply,
    memory: Memory<A>,
    question: Question<'_>,
) -> Option<()> {
    let limits = question.limits();
    say_made(reply, memory, parts_of(memory.spare, question)?, limits);
    if limits != Limits::specification() {
        let parts = parts_of(memory.spare, question)?;
        say_within(reply, memory.spare, parts, limits);
    }
    Some(())
}
