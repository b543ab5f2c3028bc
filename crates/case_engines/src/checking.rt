//! Values checked in pieces.

ghost use Rattle.std.specs.Prelude.{◌≤◌, length, IsTrue, IfOk};
ghost use Rattle.case_engines.specs.Checkers.{IsUnderWay};

use crate::asked::Asked;
use case_questions::{Reply, piece, split};
use dbus_types::check_signature;
use dbus_value_checker::ValueChecker;
use dbus_value_model::Fault;

// Wants the value that is asked for; else, if no such value can be wanted, this is false.
fn begin(values: &mut ValueChecker, asked: Asked<'_>) -> bool
    ensures { IsTrue result → IsUnderWay values.new }
{
    let Asked {
        types,
        order,
        at,
        end,
        open,
        limits,
        fds,
    } = asked;
    if at > end || open > limits.depth {
        return false;
    }
    let bounds = limits.bounds_with(fds);
    match check_signature(types) {
        Ok(()) => {
            values.begin(bounds, order, at, end, types, limits.depth - open);
            true
        }
        Err(_) => false,
    }
}

// Hands bytes to the checker: how many it took.
fn hand(values: &mut ValueChecker, bytes: &[u8]) -> Result<usize, Fault>
    requires { IsUnderWay values.old }
    ensures { IfOk result (λ n. (n ≤ length bytes.now) × IsUnderWay values.new) }
{
    values.run(bytes)
}

// Adds what the checker says that took all it could.
fn say_end(reply: &mut Reply, values: &ValueChecker) {
    if values.is_live() {
        reply.word("partial");
    } else {
        reply.counted("done", values.offset() as u64);
    }
}

/// Adds what a checker says of bytes in two pieces that meet at `place`.
pub(crate) fn say_in_two(
    reply: &mut Reply,
    values: &mut ValueChecker,
    asked: Asked<'_>,
    bytes: &[u8],
    place: usize,
) {
    if !begin(values, asked) {
        return reply.word("nothing to ask");
    }
    let taken = match hand(values, piece(bytes, asked.at, place)) {
        Ok(taken) => taken,
        Err(fault) => return reply.refused(fault),
    };
    let (_, rest) = split(bytes, asked.at.saturating_add(taken));
    match hand(values, rest) {
        Ok(_) => say_end(reply, values),
        Err(fault) => reply.refused(fault),
    }
}

/// Adds with which byte, handed over one by one, a checker says something else than that more are
/// wanted, and what.
pub(crate) fn say_by_bytes(reply: &mut Reply, asked: Asked<'_>, bytes: &[u8]) {
    let mut values = ValueChecker::new();
    if !begin(&mut values, asked) {
        return reply.word("nothing to ask");
    }
    let mut taken = asked.at;
    for end in asked.at..bytes.len().saturating_add(1) {
        match hand(&mut values, piece(bytes, taken, end)) {
            Ok(more) => taken = taken.saturating_add(more),
            Err(fault) => {
                reply.number(end as u64);
                return reply.refused(fault);
            }
        }
        if !values.is_live() {
            reply.number(end as u64);
            return say_end(reply, &values);
        }
    }
    reply.number(bytes.len() as u64);
    reply.word("partial");
}
