//! What answers questions, and what it answers with each growth refused in turn.

use crate::memory::Memory;
use crate::question::Question;
use crate::reply::Reply;
use refusing_alloc::Refusing;
use std::alloc::{Allocator, Global};

// More growths than a question that is asked so takes.
const MOST_GROWTHS: u64 = 10_000;

/// What answers questions.
pub trait Answerer {
    /// Adds the answer to a question. False says that it is none.
    fn answer<A: Allocator + Copy>(
        self,
        reply: &mut Reply,
        memory: Memory<A>,
        question: Question<'_>,
    ) -> bool;
}

// Adds what is answered with this growth refused. Says whether there was such a growth.
fn say_with<T: Answerer + Copy>(
    answerer: T,
    reply: &mut Reply,
    alloc: Global,
    question: Question<'_>,
    n: u64,
) -> bool {
    let heap = Refusing::nth(alloc, n);
    let spare = Refusing::none(alloc);
    let memory = Memory {
        heap: &heap,
        spare: &spare,
    };
    let mut answer = Reply::new(alloc);
    let is_known = answerer.answer(&mut answer, memory, question);
    reply.word(if is_known { answer.line() } else { "?" });
    if heap.blocks() != 0 || spare.blocks() != 0 {
        reply.word("with blocks left");
    }
    heap.refusals() != 0
}

// Adds how many growths a question takes; what is answered with each of them refused in turn, of
// equal answers after one another the first; and after `then` what is answered with none refused.
fn say_each<T: Answerer + Copy>(
    answerer: T,
    reply: &mut Reply,
    alloc: Global,
    question: Question<'_>,
) {
    let mut told = Reply::new(alloc);
    let mut before = Reply::new(alloc);
    for n in 0..MOST_GROWTHS {
        let mut now = Reply::new(alloc);
        if !say_with(answerer, &mut now, alloc, question, n + 1) {
            reply.number(n);
            told.word("then");
            told.word(now.line());
            break;
        }
        if now.line() != before.line() {
            if !told.line().is_empty() {
                told.comma();
            }
            told.word(now.line());
        }
        before = now;
    }
    reply.word(told.line());
}

/// What is answered to the question of a line. Before a question the word `refused` asks for it
/// with each growth refused in turn.
pub fn reply_to<T: Answerer + Copy>(answerer: T, alloc: Global, line: &str) -> Reply {
    let mut reply = Reply::new(alloc);
    match line.strip_prefix("refused ") {
        Some(line) => say_each(answerer, &mut reply, alloc, Question::new(line)),
        None => {
            let question = Question::new(line);
            if !answerer.answer(&mut reply, Memory::of(alloc), question) {
                reply.word("?");
            }
        }
    }
    reply
}
