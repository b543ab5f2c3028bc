//! Messages made in a line.

use crate::made::{made, text_of};
use crate::parts::say_message;
use crate::whole::message_of;
use case_questions::{Memory, Question, Reply, named};
use dbus_message::{Compose, Message, MessageBuilder};
use dbus_value::{Limits, Value};
use std::alloc::Allocator;

// What a message is made as.
#[derive(Clone, Copy)]
enum Begun {
    Call,
    Signal,
    Reply,
    Error,
}

const BEGINNINGS: &[(&str, Begun)] = &[
    ("call", Begun::Call),
    ("signal", Begun::Signal),
    ("reply", Begun::Reply),
    ("error", Begun::Error),
];

// What is set of a message.
#[derive(Clone, Copy)]
enum Setting {
    Interface,
    Destination,
    Sender,
    UnixFds,
    Flags,
    Serial,
    Text,
    Value,
    Body,
}

const SETTINGS: &[(&str, Setting)] = &[
    ("interface", Setting::Interface),
    ("destination", Setting::Destination),
    ("sender", Setting::Sender),
    ("unix_fds", Setting::UnixFds),
    ("flags", Setting::Flags),
    ("serial", Setting::Serial),
    ("text", Setting::Text),
    ("value", Setting::Value),
    ("body", Setting::Body),
];

// The builder of a reply to the message of the question's bytes, or of an error.
fn begin_reply<A: Allocator + Copy>(
    memory: Memory<A>,
    question: Question<'_>,
    is_error: bool,
) -> Option<MessageBuilder<A>> {
    let bytes = question.bytes(memory.spare, 2);
    let (_, call) = message_of(memory.spare, &bytes, Limits::specification())?;
    if is_error {
        Some(Message::error_to(memory.heap, &call, "a.E"))
    } else {
        Some(Message::reply_to(memory.heap, &call))
    }
}

// The builder of a call of `M` on a path, of a signal `M` of `a.b` on a path, or of a reply.
fn begin<A: Allocator + Copy>(
    memory: Memory<A>,
    question: Question<'_>,
) -> Option<MessageBuilder<A>> {
    let path = question.word(2);
    match named(BEGINNINGS, question.word(1))? {
        Begun::Call => Some(Message::call(memory.heap, path, "M")),
        Begun::Signal => Some(Message::signal(memory.heap, path, "a.b", "M")),
        Begun::Reply => begin_reply(memory, question, false),
        Begun::Error => begin_reply(memory, question, true),
    }
}

// The values of words with a comma between any two.
fn body_of<A: Allocator + Copy>(
    alloc: A,
    words: &str,
    question: Question<'_>,
) -> Option<Vec<Value<A>, A>> {
    let mut values = Vec::new(alloc);
    for word in words.split(',') {
        values.push(made(alloc, word, question)?).ok()?;
    }
    Some(values)
}

// Sets what a word names, and appends a `value` that a word makes, or a text in hexadecimal.
fn set<A: Allocator + Copy>(
    alloc: A,
    builder: MessageBuilder<A>,
    name: &str,
    said: &str,
    question: Question<'_>,
) -> Option<MessageBuilder<A>> {
    Some(match named(SETTINGS, name)? {
        Setting::Interface => builder.interface(said),
        Setting::Destination => builder.destination(said),
        Setting::Sender => builder.sender(said),
        Setting::UnixFds => builder.unix_fds(said.parse().unwrap_or(0)),
        Setting::Flags => builder.flags(said.parse().unwrap_or(0)),
        Setting::Serial => builder.serial(said.parse().unwrap_or(0)),
        Setting::Text => builder.text(text_of(alloc, said).as_str()),
        Setting::Value => builder.value(made(alloc, said, question)?),
        Setting::Body => builder.body(body_of(alloc, said, question)?),
    })
}

/// Adds the bytes of the message that is begun and set so, or why there is none.
pub(crate) fn say_composed<A: Allocator + Copy>(
    reply: &mut Reply,
    memory: Memory<A>,
    question: Question<'_>,
) -> Option<()> {
    let mut builder = begin(memory, question)?;
    for n in 3..usize::MAX {
        let Some((name, said)) = question.word(n).split_once('=') else {
            break;
        };
        builder = set(memory.spare, builder, name, said, question)?;
    }
    match builder.build() {
        Ok(message) => say_message(reply, memory.spare, &message),
        Err(fault) => reply.told(&fault),
    }
    Some(())
}
