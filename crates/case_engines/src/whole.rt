//! What is made of a whole message: its encodings, its other order, its parts, its text, copies of
//! its values, and the message of its parts.

use crate::headers::{say_header, say_names};
use crate::seeing::say_seen;
use crate::showing::say_shown;
use crate::writing::held;
use case_questions::{Memory, Question, Reply};
use dbus_message::{
    Answer, Build, Message, MessageView, Within, arg, copy_value, copy_values, decode_within,
    encode, encode_into, field,
};
use dbus_swap::byteswap;
use dbus_validate::validate;
use dbus_value::{Limits, Order, Value};
use std::alloc::{AllocError, Allocator};

/// What is asked of a whole message.
#[derive(Clone, Copy)]
pub(crate) enum OfWhole {
    /// Its bytes in an order.
    Encode,
    /// What a vector holds that it is encoded into.
    EncodeInto,
    /// The bytes of the message of its parts.
    Build,
    /// Its header fields by their names, and whether it keeps the limits.
    Names,
    /// The first header field of the code that `code=` says.
    Field,
    /// The value of the body that `n=` says.
    Argument,
    /// A copy of it in its other order.
    Byteswap,
    /// What a view gives of the header.
    Header,
    /// What a view gives of every value.
    See,
    /// How many values of the body are copied: the first, or all.
    CopyFirst,
    CopyAll,
    /// Its text.
    Show,
}

/// The message that the bytes begin with, and its order.
pub(crate) fn message_of<A: Allocator + Copy>(
    alloc: A,
    bytes: &[u8],
    limits: Limits,
) -> Option<(Order, Message<A>)> {
    match decode_within(alloc, bytes, limits) {
        Ok(Answer::Whole { order, message, .. }) => Some((order, message)),
        _ => None,
    }
}

// What a vector holds that held other bytes, once the message is encoded into it, and once it is
// again. If memory runs out the call is made again.
fn say_encoded_into<A: Allocator + Copy>(
    reply: &mut Reply,
    alloc: A,
    before: &[u8],
    message: &Message<A>,
    order: Order,
) {
    let Ok(mut out) = held(alloc, before) else {
        return reply.fail();
    };
    for _ in 0..2 {
        if encode_into(&mut out, message, order).is_err()
            && encode_into(&mut out, message, order).is_err()
        {
            return reply.fail();
        }
        reply.bytes(&out);
    }
}

// The message of a message's parts, encoded.
fn say_built<A: Allocator + Copy>(
    reply: &mut Reply,
    memory: Memory<A>,
    message: Message<A>,
    question: Question<'_>,
) {
    match Message::new_within(memory.heap, message.into_parts(), question.limits()) {
        Ok(message) => reply.made(encode(memory.spare, &message, question.order())),
        Err((_, fault)) => reply.told(&fault),
    }
}

// A value that is found, if it is a number or a text, after the code of its type.
fn say_found<A: Allocator>(reply: &mut Reply, found: Option<&Value<A>>) {
    match found {
        None => reply.word("none"),
        Some(Value::Byte(number)) => reply.counted("y", u64::from(*number)),
        Some(Value::U32(number)) => reply.counted("u", u64::from(*number)),
        Some(Value::Str(text)) => reply.spelled("s", text.as_bytes()),
        Some(Value::Sig(text)) => reply.spelled("g", text.as_bytes()),
        Some(_) => reply.word("another"),
    }
}

// What is made of the message that the bytes are decoded to.
fn say_decoded<A: Allocator + Copy>(
    reply: &mut Reply,
    memory: Memory<A>,
    bytes: &[u8],
    question: Question<'_>,
    asked: OfWhole,
) {
    let Some((_, message)) = message_of(memory.spare, bytes, question.limits()) else {
        return reply.word("none");
    };
    match asked {
        OfWhole::Encode => reply.made(encode(memory.heap, &message, question.order())),
        OfWhole::EncodeInto => {
            let before = question.bytes(reply.alloc(), 2);
            say_encoded_into(reply, memory.heap, &before, &message, question.order());
        }
        OfWhole::Build => say_built(reply, memory, message, question),
        OfWhole::Names => {
            say_names(reply, &message);
            let is_within = message.within(question.limits());
            reply.word(if is_within { "within" } else { "beyond" });
        }
        OfWhole::Field => {
            let code = u8::try_from(question.count("code", 0)).unwrap_or(0);
            say_found(reply, field(&message, code));
        }
        _ => say_found(reply, arg(&message, question.count("n", 0))),
    }
}

// What a copy becomes of the message that the bytes begin with, in its other order.
fn say_byteswapped<A: Allocator>(reply: &mut Reply, alloc: A, bytes: &[u8], limits: Limits) {
    let Some(validated) = validate(bytes, limits) else {
        return reply.word("none");
    };
    let Some(message) = bytes.get(..validated.length) else {
        return reply.word("none");
    };
    match Vec::from_slice(alloc, message) {
        Ok(mut copy) => {
            byteswap(bytes, copy.as_mut_slice(), &validated, limits);
            reply.bytes(&copy);
        }
        Err(AllocError) => reply.fail(),
    }
}

// How many values there are of a body: whether there is a first one, or all.
fn copied<A: Allocator + Copy>(
    alloc: A,
    view: &MessageView,
    is_one: bool,
) -> Result<u64, AllocError> {
    let body = view.body();
    if is_one {
        return Ok(u64::from(copy_value(alloc, &body)?.is_some()));
    }
    Ok(copy_values(alloc, &body)?.len() as u64)
}

// What a view gives of its parts.
fn say_viewed<A: Allocator + Copy>(
    reply: &mut Reply,
    alloc: A,
    bytes: &[u8],
    limits: Limits,
    asked: OfWhole,
) {
    let Ok(view) = MessageView::of_within(bytes, limits) else {
        return reply.word("none");
    };
    match asked {
        OfWhole::Header => say_header(reply, &view),
        OfWhole::CopyFirst => reply.returned(copied(alloc, &view, true)),
        OfWhole::CopyAll => reply.returned(copied(alloc, &view, false)),
        _ => say_seen(reply, &view),
    }
}

/// Adds what is made of a whole message.
pub(crate) fn say<A: Allocator + Copy>(
    reply: &mut Reply,
    memory: Memory<A>,
    question: Question<'_>,
    asked: OfWhole,
) -> Option<()> {
    let bytes = question.bytes(reply.alloc(), 1);
    let limits = question.limits();
    match asked {
        OfWhole::Byteswap => say_byteswapped(reply, memory.heap, &bytes, limits),
        OfWhole::Show => say_shown(reply, memory, &bytes, question),
        OfWhole::Header | OfWhole::See | OfWhole::CopyFirst | OfWhole::CopyAll => {
            say_viewed(reply, memory.heap, &bytes, limits, asked);
        }
        _ => say_decoded(reply, memory, &bytes, question, asked),
    }
    Some(())
}
