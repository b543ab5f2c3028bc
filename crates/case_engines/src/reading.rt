//! Values read from a message's bytes.

use crate::asked::Asked;
use case_questions::{Memory, Reply};
use dbus_types::parse_single;
use dbus_unmarshal::{get, get_within};
use dbus_value_model::{Got, Limits, Refusal, Value};
use std::alloc::Allocator;

// What is read of a message's first bytes, by the call without limits if they are those of the
// specification and any index will do. Nothing if nothing can be asked so.
fn got<A: Allocator + Copy>(
    memory: Memory<A>,
    asked: Asked<'_>,
    bytes: &[u8],
) -> Option<Result<Got<A>, Refusal>> {
    let Asked {
        types,
        order,
        at,
        end,
        open,
        limits,
        fds,
    } = asked;
    let wanted = parse_single(memory.spare, types).ok()?;
    if at > end || at > bytes.len() || open > limits.depth {
        return None;
    }
    if limits == Limits::specification() && fds.is_none() && open <= 64 {
        return Some(get(memory.heap, bytes, at, end, order, &wanted, open));
    }
    Some(get_within(
        memory.heap,
        bytes,
        at,
        end,
        order,
        &wanted,
        open,
        limits,
        fds,
    ))
}

/// Adds what reading answers of a message's first bytes.
pub(crate) fn say_read<A: Allocator + Copy>(
    reply: &mut Reply,
    memory: Memory<A>,
    asked: Asked<'_>,
    bytes: &[u8],
) {
    match got(memory, asked, bytes) {
        Some(Ok(Got::Done(_, next))) => reply.counted("done", next as u64),
        Some(Ok(Got::Partial)) => reply.word("partial"),
        Some(Err(Refusal::Format(fault))) => reply.refused(fault),
        Some(Err(Refusal::Memory)) => reply.fail(),
        None => reply.word("nothing to ask"),
    }
}

/// The value of a message's bytes, if no container is open and under the limits of the
/// specification, if there is one.
pub(crate) fn value_of<A: Allocator + Copy>(
    alloc: A,
    asked: Asked<'_>,
    bytes: &[u8],
) -> Option<Value<A>> {
    match got(Memory::of(alloc), asked.alone(), bytes) {
        Some(Ok(Got::Done(value, _))) => Some(value),
        _ => None,
    }
}

/// Where a value of a message's first bytes ends, if there is one.
pub(crate) fn end_of<A: Allocator + Copy>(
    memory: Memory<A>,
    asked: Asked<'_>,
    bytes: &[u8],
) -> Option<usize> {
    match got(memory, asked, bytes) {
        Some(Ok(Got::Done(_, next))) => Some(next),
        _ => None,
    }
}
