//! What checks, measures and writers do with a value that was read.

ghost use Rattle.dbus_value_model.specs.Sizes.{HasShortSignatures};
ghost use Rattle.dbus_value_model.specs.ValueViews.{value_tree};

use crate::asked::Asked;
use case_questions::{Reply, split};
use dbus_marshal::{measure, put, put_within, size_after, size_after_within};
use dbus_value_model::{Limits, Value, ValueFault, check_value, check_value_within};
use std::alloc::{AllocError, Allocator};

// More bytes than are written before a value.
const MOST_BEFORE: usize = 1_000_000;

/// A vector that holds these bytes. If memory runs out it is asked for again.
pub(crate) fn held<A: Allocator + Copy>(alloc: A, bytes: &[u8]) -> Result<Vec<u8, A>, AllocError> {
    match Vec::from_slice(alloc, bytes) {
        Ok(held) => Ok(held),
        Err(AllocError) => Vec::from_slice(alloc, bytes),
    }
}

// Puts a value behind what a vector holds, under the limits that are asked for or under those of
// the specification.
fn put_once<A: Allocator>(
    out: &mut Vec<u8, A>,
    value: &Value<A>,
    asked: Asked<'_>,
    is_limited: bool,
) -> Result<(), ValueFault>
    requires { HasShortSignatures (value_tree value.now) }
{
    if is_limited && out.len() <= asked.limits.message as usize {
        put_within(out, asked.order, value, asked.limits)
    } else if !is_limited && out.len() <= MOST_BEFORE {
        put(out, asked.order, value)
    } else {
        Err(ValueFault::TooLong)
    }
}

// The bytes before a value, and then its own. A writer that refuses leaves what there was, and is
// asked again if memory ran out; else the bytes are those that it left.
fn put_behind<A: Allocator + Copy>(
    alloc: A,
    before: &[u8],
    value: &Value<A>,
    asked: Asked<'_>,
    is_limited: bool,
) -> Result<Vec<u8, A>, ValueFault>
    requires { HasShortSignatures (value_tree value.now) }
{
    let mut out = held(alloc, before)?;
    let mut put = put_once(&mut out, value, asked, is_limited);
    if put == Err(ValueFault::Memory) && out.as_slice() == before {
        put = put_once(&mut out, value, asked, is_limited);
    }
    match put {
        Err(fault) if out.as_slice() == before => Err(fault),
        _ => Ok(out),
    }
}

// Where a value ends: under limits, under those of the specification, and by a measure, which knows
// no limit on messages.
fn say_sizes<A: Allocator>(reply: &mut Reply, value: &Value<A>, asked: Asked<'_>)
    requires { HasShortSignatures (value_tree value.now) }
{
    if asked.at > asked.limits.message as usize || asked.at >= MOST_BEFORE {
        return reply.word("nothing to ask");
    }
    let at = asked.at as u64;
    reply.returned(size_after_within(value, at, asked.limits));
    reply.returned(size_after(value, at));
    reply.found(measure(value, at, Limits::specification()));
}

// What writers do with a value that is checked already.
fn say_written<A: Allocator + Copy>(
    reply: &mut Reply,
    alloc: A,
    value: &Value<A>,
    asked: Asked<'_>,
    bytes: &[u8],
)
    requires { HasShortSignatures (value_tree value.now) }
{
    let (before, _) = split(bytes, asked.at);
    reply.made(put_behind(alloc, before, value, asked, true));
    reply.made(put_behind(alloc, before, value, asked, false));
    say_sizes(reply, value, asked);
}

/// Adds what checks say of a value, the second one under the limits of the specification.
pub(crate) fn say_checks<A: Allocator + Copy>(
    reply: &mut Reply,
    alloc: A,
    value: &Value<A>,
    open: u8,
    limits: Limits,
) {
    if open > limits.depth || open > 64 {
        return reply.word("nothing to ask");
    }
    reply.checked(check_value_within(alloc, value, open, limits));
    if limits == Limits::specification() {
        reply.checked(check_value(alloc, value, open));
    }
}

/// Adds what checks say of a value and, if it is well formed, what writers do.
pub(crate) fn say_writing<A: Allocator + Copy>(
    reply: &mut Reply,
    alloc: A,
    value: &Value<A>,
    asked: Asked<'_>,
    bytes: &[u8],
) {
    say_checks(reply, alloc, value, asked.open, asked.limits);
    let checked = check_value(alloc, value, 0);
    if checked.is_ok() {
        say_written(reply, alloc, value, asked, bytes);
    }
}
