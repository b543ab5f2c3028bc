//! One who looks on at a handshake.

use case_questions::{Memory, Question, Reply, bytes_of};
use dbus_watch::Watch;
use std::alloc::Allocator;

// Adds what a watch says of a line: `client:` or `server:`, for who sends it, and its bytes in
// hexadecimal.
fn say_line<A: Allocator + Copy>(
    reply: &mut Reply,
    memory: Memory<A>,
    watch: &mut Watch,
    said: &str,
) {
    let (sender, digits) = said.split_once(':').unwrap_or(("", said));
    let line = bytes_of(memory.spare, digits);
    let passage = match sender {
        "client" => watch.pass_client_line(&line),
        _ => watch.pass_server_line(&line),
    };
    match passage {
        Ok(passage) => reply.variant(&passage),
        Err(fault) => reply.variant(&fault),
    }
}

/// Adds what a watch says of each line of `lines=`, with a comma between any two, and what it knows
/// then.
pub(crate) fn say_watched<A: Allocator + Copy>(
    reply: &mut Reply,
    memory: Memory<A>,
    question: Question<'_>,
) -> Option<()> {
    let lines = question.setting("lines")?;
    let mut watch = Watch::new();
    for said in lines.split(',') {
        say_line(reply, memory, &mut watch, said);
    }
    reply.variant(&watch.server);
    reply.number(u64::from(watch.unanswered));
    reply.number(u64::from(watch.asked));
    Some(())
}
