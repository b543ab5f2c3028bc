//! Messages written to a sink, and whether match rules match them.

use crate::devices::Device;
use crate::rules::{owners_of, rule_of};
use crate::streams::OUT_OF_MEMORY;
use crate::whole::message_of;
use case_questions::{Memory, Question, Reply};
use dbus_match::{Owner, Rule, matches, matches_view};
use dbus_message::{Message, MessageView};
use dbus_stream::{WriteFault, write_message};
use dbus_value::{Limits, Order};
use std::alloc::Allocator;
use std::cell::Cell;

// What comes of writing a message to a sink that takes `size=` bytes a write, and whose write of
// the number `fails=` fails; what the sink holds then, how many writes were made, and how many
// failed. A call that was refused memory is made again.
fn say_written<A: Allocator + Copy>(
    reply: &mut Reply,
    heap: A,
    question: Question<'_>,
    order: Order,
    message: &Message<A>,
) {
    let taken = Cell::new(0);
    let mut sink = Device::new(reply.alloc(), b"", question, "size", "fails", &taken);
    let mut sent = write_message(heap, &mut sink, order, message);
    if sent == Err(WriteFault::Memory) {
        reply.word(OUT_OF_MEMORY);
        sent = write_message(heap, &mut sink, order, message);
    }
    reply.checked(sent);
    reply.bytes(&sink.held);
    reply.number(sink.calls);
    reply.number(sink.failures);
}

/// Adds what comes of writing the message of the first word to a sink.
pub(crate) fn say_sent<A: Allocator + Copy>(
    reply: &mut Reply,
    memory: Memory<A>,
    question: Question<'_>,
) -> Option<()> {
    let bytes = question.bytes(reply.alloc(), 1);
    let (order, message) = message_of(memory.spare, &bytes, Limits::specification())?;
    say_written(reply, memory.heap, question, order, &message);
    Some(())
}

// Whether a rule matches a message, and whether it matches its view.
fn say_both<A: Allocator>(
    reply: &mut Reply,
    rule: &Rule<A>,
    owners: &[Owner<A>],
    message: &Message<A>,
    bytes: &[u8],
) -> Option<()> {
    let view = MessageView::of(bytes).ok()?;
    reply.told(&matches(rule, message, owners));
    reply.told(&matches_view(rule, &view, owners));
    Some(())
}

// The same of the rule that the second word spells, with the owners of the words after it.
fn say_matched<A: Allocator + Copy>(
    reply: &mut Reply,
    heap: A,
    question: Question<'_>,
    message: &Message<A>,
    bytes: &[u8],
) -> Option<()> {
    let owners = owners_of(heap, question)?;
    let rule = rule_of(heap, question.word(2)).ok()?;
    say_both(reply, &rule, &owners, message, bytes)
}

/// Adds whether the rule that the second word spells matches the message of the first, and whether
/// it matches its view.
pub(crate) fn say_matches<A: Allocator + Copy>(
    reply: &mut Reply,
    memory: Memory<A>,
    question: Question<'_>,
) -> Option<()> {
    let bytes = question.bytes(reply.alloc(), 1);
    let (_, message) = message_of(memory.spare, &bytes, Limits::specification())?;
    say_matched(reply, memory.heap, question, &message, &bytes)
}
