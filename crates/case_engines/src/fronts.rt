//! Messages that bytes begin with: what each engine answers of each front of them.

use case_questions::{Engine, Memory, Question, Reply, piece, say_places, split};
use dbus_check::{Check, Checker};
use dbus_message::{
    Answer, MessageView, decode, decode_within, stated_length, stated_length_within,
};
use dbus_validate::validate;
use dbus_value::{Fault, Limits, Reason, Refusal};
use std::alloc::Allocator;

fn say_decoded<A: Allocator>(reply: &mut Reply, answer: Result<Answer<A>, Refusal>) {
    match answer {
        Ok(Answer::Whole { used, .. }) => reply.counted("whole", used as u64),
        Ok(Answer::Partial) => reply.word("partial"),
        Err(Refusal::Format(fault)) => reply.refused(fault),
        Err(Refusal::Memory) => reply.fail(),
    }
}

// What a view says of exactly the bytes.
fn say_viewed(reply: &mut Reply, bytes: &[u8], limits: Limits) {
    let end = bytes.len() as u64;
    match MessageView::of_within(bytes, limits) {
        Ok(view) => reply.counted("whole", view.bytes().len() as u64),
        Err(
            Fault {
                at,
                reason: Reason::Truncated,
            },
        ) if at == end => reply.word("truncated"),
        Err(fault) => reply.refused(fault),
    }
}

// What a checker answers that was handed this number of bytes before.
fn say_checked(reply: &mut Reply, before: usize, check: Check) {
    match check {
        Check::Done(count) => reply.counted("whole", before.saturating_add(count) as u64),
        Check::Refused(fault) => reply.refused(fault),
        Check::Partial => reply.word("partial"),
    }
}

// The engines over the fronts of some bytes.
#[derive(Drop)]
struct Fronts<'a, A: Allocator + Copy> {
    alloc: A,
    bytes: &'a [u8],
    limits: Limits,
    // Begins again with each front.
    checker: Checker,
    // Is handed one byte more with each front, until it answers; how many bytes it was handed
    // before the last one, and what it answered then.
    slow: Checker,
    before: usize,
    last: Check,
}

impl<A: Allocator + Copy> Fronts<'_, A> {
    // What the checker says that is handed the bytes one by one.
    fn say_by_bytes(&mut self, reply: &mut Reply, place: usize) {
        if self.last == Check::Partial {
            self.before = place.saturating_sub(1);
            let next = piece(self.bytes, self.before, place);
            self.last = self.slow.take(next);
        }
        say_checked(reply, self.before, self.last);
    }

    // What the checker says that is handed a front and, if it then wants more, all other bytes.
    fn say_in_two(&mut self, reply: &mut Reply, place: usize) {
        let (front, rest) = split(self.bytes, place);
        self.checker.restart();
        let first = self.checker.take(front);
        say_checked(reply, 0, first);
        if first == Check::Partial {
            say_checked(reply, place, self.checker.take(rest));
        }
    }
}

impl<A: Allocator + Copy> Engine for Fronts<'_, A> {
    fn say(&mut self, reply: &mut Reply, place: usize) {
        let (front, _) = split(self.bytes, place);
        say_decoded(reply, decode_within(self.alloc, front, self.limits));
        match validate(front, self.limits) {
            Some(validated) => reply.counted("whole", validated.length as u64),
            None => reply.word("none"),
        }
        if self.limits == Limits::specification() {
            reply.judged("states", stated_length(front));
        } else {
            reply.judged("states", stated_length_within(front, self.limits));
        }
        say_viewed(reply, front, self.limits);
        self.say_by_bytes(reply, place);
        self.say_in_two(reply, place);
    }
}

/// Adds what the engines answer of each front of bytes: decoding, validating, the length that is
/// stated, a view, a checker that is handed them one by one, and one that is handed the front and
/// then the others.
pub(crate) fn say_fronts<A: Allocator + Copy>(
    reply: &mut Reply,
    memory: Memory<A>,
    question: Question<'_>,
) -> Option<()> {
    let bytes = question.bytes(reply.alloc(), 1);
    let limits = question.limits();
    let mut fronts = Fronts {
        alloc: memory.heap,
        bytes: &bytes,
        limits,
        checker: Checker::within(limits),
        slow: Checker::within(limits),
        before: 0,
        last: Check::Partial,
    };
    say_places(reply, question, &mut fronts, 0, bytes.len());
    Some(())
}

/// Adds what a message is that bytes begin with, by the call without limits if they are those of
/// the specification.
pub(crate) fn say_message<A: Allocator + Copy>(
    reply: &mut Reply,
    memory: Memory<A>,
    question: Question<'_>,
) -> Option<()> {
    let bytes = question.bytes(reply.alloc(), 1);
    let limits = question.limits();
    if limits == Limits::specification() {
        say_decoded(reply, decode(memory.heap, &bytes));
    } else {
        say_decoded(reply, decode_within(memory.heap, &bytes, limits));
    }
    Some(())
}
