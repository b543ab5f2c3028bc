//! The header fields and the values of a message, seen one by one, down through every container.

use crate::headers::say_code;
use case_questions::Reply;
use dbus_message::{Elements, MessageView, ValueView, Values};

// More containers than are open in a message.
const DEPTH: u8 = 100;

// A value that is no container but an array of bytes: the code of its type, and its number, a
// signed one as its two's complement, its text or its bytes.
fn say_plain(reply: &mut Reply, seen: &ValueView) {
    match seen {
        ValueView::Byte(n) => reply.counted("y", u64::from(*n)),
        ValueView::Bool(is_so) => reply.counted("b", u64::from(*is_so)),
        ValueView::I16(n) => reply.counted("n", u64::from(n.cast_unsigned())),
        ValueView::U16(n) => reply.counted("q", u64::from(*n)),
        ValueView::I32(n) => reply.counted("i", u64::from(n.cast_unsigned())),
        ValueView::U32(n) => reply.counted("u", u64::from(*n)),
        ValueView::I64(n) => reply.counted("x", n.cast_unsigned()),
        ValueView::U64(n) => reply.counted("t", *n),
        ValueView::Double(bits) => reply.counted("d", *bits),
        ValueView::Fd(index) => reply.counted("h", u64::from(*index)),
        ValueView::Str(text) => reply.spelled("s", text.as_bytes()),
        ValueView::Path(text) => reply.spelled("o", text.as_bytes()),
        ValueView::Sig(text) => reply.spelled("g", text.as_bytes()),
        ValueView::Bytes(bytes) => reply.spelled("ay", bytes),
        _ => reply.word("a container"),
    }
}

// A value with all that is in it.
#[cycle(say)]
fn say_value(reply: &mut Reply, seen: ValueView, depth: u8) {
    if depth == 0 {
        reply.word("too deep");
        return;
    }
    let (bracket, inside) = match seen {
        ValueView::Array(elements) => return say_elements(reply, elements, depth - 1),
        ValueView::Struct(fields) => ("(", fields),
        ValueView::Entry(both) => ("{", both),
        ValueView::Variant(held) => ("<", held),
        plain => return say_plain(reply, &plain),
    };
    reply.word(bracket);
    say_values(reply, inside, depth - 1);
    reply.word(")");
}

// Values, the first code of each before it, and the offset where the last one ends.
#[cycle(say)]
fn say_values(reply: &mut Reply, mut left: Values, depth: u8) {
    for _ in 0..255u8 {
        let Some(code) = left.first_code() else {
            break;
        };
        say_code(reply, code);
        match left.next() {
            Some(seen) => say_value(reply, seen, depth),
            None => reply.word("no value"),
        }
    }
    if left.next().is_some() {
        reply.word("a value more");
    }
    reply.number(left.at() as u64);
}

// The elements of an array: their type, the bytes of numbers, and each.
#[cycle(say)]
fn say_elements(reply: &mut Reply, mut left: Elements, depth: u8) {
    reply.spelled("a", left.types());
    reply.variant(&left.order());
    match left.number_bytes() {
        Some(bytes) => reply.bytes(bytes),
        None => reply.word("none"),
    }
    reply.counted("[", left.bytes_left() as u64);
    for _ in 0..left.bytes_left() {
        match left.next() {
            Some(seen) => say_value(reply, seen, depth),
            None => break,
        }
    }
    if left.next().is_some() {
        reply.word("an element more");
    }
    reply.word("]");
    reply.number(left.bytes_left() as u64);
}

/// Adds the header fields, each with its code, and the values of the body, twice.
pub(crate) fn say_seen(reply: &mut Reply, view: &MessageView) {
    for field in view.fields() {
        reply.counted("field", u64::from(field.code));
        say_values(reply, field.value, DEPTH);
    }
    let body = view.body();
    let again = body.again();
    reply.word("body");
    say_values(reply, body, DEPTH);
    reply.word("again");
    say_values(reply, again, DEPTH);
}
