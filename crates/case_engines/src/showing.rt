//! Messages and values as text.

use crate::whole::message_of;
use case_questions::{Memory, Question, Reply};
use dbus_message::{Compose, Message};
use dbus_show_view::{show_message, show_validated};
use dbus_validate::validate;
use dbus_value::{Limits, Order, Value};
use std::alloc::{AllocError, Allocator};

// The text of bytes, which are validated. If memory runs out the string is empty, and is asked for
// the text again. At last it is asked once more, which takes no memory and leaves no text twice.
fn validated_text<A: Allocator + Copy>(
    alloc: A,
    bytes: &[u8],
    limits: Limits,
    number: u64,
) -> Result<String<A>, AllocError> {
    let mut text = String::new(alloc);
    let Some(validated) = validate(bytes, limits) else {
        return Ok(text);
    };
    if show_validated(&mut text, bytes, limits, &validated, number).is_err() && text.is_empty() {
        show_validated(&mut text, bytes, limits, &validated, number)?;
    }
    show_validated(&mut text, bytes, limits, &validated, number)?;
    Ok(text)
}

/// Adds the text of the message that the bytes begin with: with `by=message` of the message that
/// they are decoded to.
pub(crate) fn say_shown<A: Allocator + Copy>(
    reply: &mut Reply,
    memory: Memory<A>,
    bytes: &[u8],
    question: Question<'_>,
) {
    let (limits, number) = (question.limits(), question.number("number").unwrap_or(1));
    if question.setting("by") != Some("message") {
        return reply.made(validated_text(memory.heap, bytes, limits, number));
    }
    match message_of(memory.spare, bytes, limits) {
        Some((order, message)) => {
            reply.made(show_message(memory.heap, order, &message, number));
        }
        None => reply.word("no message"),
    }
}

/// Adds the text of a call with a value as its body.
pub(crate) fn say_body<A: Allocator + Copy>(reply: &mut Reply, alloc: A, value: Value<A>) {
    match Message::call(alloc, "/", "M").value(value).build() {
        Ok(message) => reply.made(show_message(alloc, Order::Little, &message, 1)),
        Err(fault) => reply.told(&fault),
    }
}
