//! Cutters of lines, which are handed bytes in pieces.

use crate::pieces::{Pieces, hand_over};
use case_questions::{Engine, Memory, Question, Reply, say_places};
use dbus_auth_lines::{LineCutter, LineFault};
use std::alloc::Allocator;

// A cutter of lines, and what it gave.
#[derive(Drop)]
struct Cutting<A: Allocator> {
    cutter: LineCutter<A>,
    // How many bytes it took after the last line, or why it gives no more lines.
    rest: Result<usize, LineFault>,
    lines: Reply,
}

impl<A: Allocator + Copy> Pieces for Cutting<A> {
    // What a call leaves of the piece is handed over again, or all of it to a call that was refused
    // memory.
    fn take_all(&mut self, piece: &[u8]) {
        let mut left = piece;
        for _ in 0..piece.len() + 2 {
            match self.cutter.take(left) {
                Ok((taken, Some(line))) => {
                    self.lines.spelled("line", &line);
                    self.rest = Ok(0);
                    left = left.get(taken..).unwrap_or(&[]);
                }
                Ok((taken, None)) => {
                    self.rest = Ok(self.rest.unwrap_or(0).saturating_add(taken));
                    return;
                }
                Err(LineFault::Memory) => {}
                Err(fault) => {
                    self.rest = Err(fault);
                    return;
                }
            }
        }
    }
}

// A cutter that is handed the bytes up to a place, and then the others.
#[derive(Drop)]
struct Lines<'a, A: Allocator + Copy> {
    memory: Memory<A>,
    question: Question<'a>,
    bytes: &'a [u8],
}

impl<A: Allocator + Copy> Engine for Lines<'_, A> {
    fn say(&mut self, reply: &mut Reply, place: usize) {
        let mut cutting = Cutting {
            cutter: LineCutter::new(self.memory.heap),
            rest: Ok(0),
            lines: Reply::new(reply.alloc()),
        };
        hand_over(&mut cutting, self.question, self.bytes, place);
        // It has to give a fault again.
        if cutting.rest.is_err() {
            cutting.take_all(b"A\r\n");
        }
        match cutting.rest {
            Ok(taken) => cutting.lines.counted("partial", taken as u64),
            Err(fault) => cutting.lines.told(&fault),
        }
        reply.word(cutting.lines.line());
    }
}

/// Adds what cutters give.
pub(crate) fn say_cut<A: Allocator + Copy>(
    reply: &mut Reply,
    memory: Memory<A>,
    question: Question<'_>,
) -> Option<()> {
    let bytes = question.bytes(reply.alloc(), 1);
    let mut lines = Lines {
        memory,
        question,
        bytes: &bytes,
    };
    say_places(reply, question, &mut lines, 0, 0);
    Some(())
}
