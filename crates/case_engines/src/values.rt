//! Values in a message's bytes: what each engine answers.

use crate::asked::Asked;
use crate::checking::{say_by_bytes, say_in_two};
use crate::reading::{end_of, say_read, value_of};
use crate::showing::say_body;
use crate::writing::say_writing;
use case_questions::{Engine, Memory, Question, Reply, say_places, split};
use dbus_value_checker::ValueChecker;
use dbus_value_model::{copy, first_past};
use dbus_value_validator::{validate_value, validate_values};
use std::alloc::Allocator;

/// What is asked of a value.
#[derive(Clone, Copy)]
pub(crate) enum OfValue {
    /// What is read.
    Read,
    /// At each place what is read of the bytes before it.
    Fronts,
    /// At each place where a value ends that is to end there.
    Ends,
    /// The same, by the validators of one value and of several.
    Validated,
    /// At each place what a checker says of two pieces that meet there.
    Checked,
    /// What a checker says of single bytes.
    ByBytes,
    /// What checks and writers do with the value.
    Written,
    /// The text of the value and of a copy.
    Shown,
}

// An engine over the places of some bytes.
#[derive(Drop)]
struct Places<'a, A: Allocator + Copy> {
    memory: Memory<A>,
    asking: OfValue,
    asked: Asked<'a>,
    bytes: &'a [u8],
    values: ValueChecker,
}

// Where validators say that one value ends, and values that are this one.
fn say_validated(reply: &mut Reply, asked: Asked<'_>, bytes: &[u8]) {
    let Asked {
        types,
        order,
        at,
        end,
        open,
        limits,
        fds,
    } = asked;
    if at > end || end > bytes.len() || open > limits.depth {
        return reply.word("nothing to ask");
    }
    let room = limits.depth - open;
    let bounds = limits.bounds_with(fds);
    reply.found(validate_value(bytes, at, end, order, types, room, bounds));
    reply.found(validate_values(bytes, at, end, order, types, room, bounds));
}

impl<A: Allocator + Copy> Engine for Places<'_, A> {
    fn say(&mut self, reply: &mut Reply, place: usize) {
        let (asked, bytes) = (self.asked, self.bytes);
        let (front, _) = split(bytes, place);
        match self.asking {
            OfValue::Ends => reply.found(end_of(self.memory, asked.up_to(place), front)),
            OfValue::Validated => say_validated(reply, asked.up_to(place), bytes),
            OfValue::Checked => say_in_two(reply, &mut self.values, asked, bytes, place),
            _ => say_read(reply, self.memory, asked, front),
        }
    }
}

// Which of the value alone has an index of a descriptor that is too great, and what checks and
// writers do with it.
fn say_written<A: Allocator + Copy>(
    reply: &mut Reply,
    memory: Memory<A>,
    asked: Asked<'_>,
    bytes: &[u8],
) {
    let Some(value) = value_of(memory.spare, asked, bytes) else {
        return reply.word("none");
    };
    let mut values = Vec::new(memory.spare);
    if values.push(value).is_err() {
        return reply.fail();
    }
    reply.found(first_past(&values, asked.fds));
    if let Some(value) = values.first() {
        say_writing(reply, memory.heap, value, asked, bytes);
    }
}

// The text of a message with a copy of the value, and of one with the value.
fn say_shown<A: Allocator + Copy>(
    reply: &mut Reply,
    memory: Memory<A>,
    asked: Asked<'_>,
    bytes: &[u8],
) {
    let Some(value) = value_of(memory.spare, asked, bytes) else {
        return reply.word("none");
    };
    match copy(memory.heap, &value) {
        Ok(copied) => say_body(reply, memory.heap, copied),
        Err(fault) => reply.told(&fault),
    }
    say_body(reply, memory.heap, value);
}

/// Adds what is answered of a value.
pub(crate) fn say<A: Allocator + Copy>(
    reply: &mut Reply,
    memory: Memory<A>,
    question: Question<'_>,
    asking: OfValue,
) -> Option<()> {
    let types = question.bytes(reply.alloc(), 1);
    let bytes = question.bytes(reply.alloc(), 2);
    let asked = Asked::new(question, &types, bytes.len());
    match asking {
        OfValue::Read => say_read(reply, memory, asked, &bytes),
        OfValue::ByBytes => say_by_bytes(reply, asked, &bytes),
        OfValue::Written => say_written(reply, memory, asked, &bytes),
        OfValue::Shown => say_shown(reply, memory, asked, &bytes),
        _ => {
            let mut places = Places {
                memory,
                asking,
                asked,
                bytes: &bytes,
                values: ValueChecker::new(),
            };
            say_places(reply, question, &mut places, asked.at, bytes.len());
        }
    }
    Some(())
}
