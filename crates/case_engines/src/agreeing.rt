//! The readers of messages, and what each answers of the same bytes.

use dbus_check::{Check, Checker};
use dbus_message::{MessageView, decode};
use dbus_stream::{Cutter, StreamFault};
use dbus_value::{Fault, Reason, Refusal};
use std::alloc::Global;

/// What a reader says of some bytes.
#[derive(Clone, Copy, PartialEq, Eq)]
pub(crate) enum Answer {
    /// They begin with a message of this number of bytes.
    Whole(usize),
    /// They begin with no message, for this fault.
    Refused(Fault),
    /// More bytes are wanted.
    Partial,
    /// None of these, as where an allocation failed.
    Other,
}

/// What decoding returns.
pub(crate) fn decoded(alloc: Global, bytes: &[u8]) -> Answer {
    match decode(alloc, bytes) {
        Ok(dbus_message::Answer::Whole { used, .. }) => Answer::Whole(used),
        Ok(dbus_message::Answer::Partial) => Answer::Partial,
        Err(Refusal::Format(fault)) => Answer::Refused(fault),
        Err(Refusal::Memory) => Answer::Other,
    }
}

// What a checker answers of a piece, before which it was handed this number of bytes.
fn checked(checker: &mut Checker, before: usize, piece: &[u8]) -> Answer {
    match checker.take(piece) {
        Check::Done(count) => Answer::Whole(before.saturating_add(count)),
        Check::Refused(fault) => Answer::Refused(fault),
        Check::Partial => Answer::Partial,
    }
}

// What a cutter answers of a piece, before which it was handed this number of bytes. If more are
// wanted it holds all of them.
fn cut(cutter: &mut Cutter, before: usize, piece: &[u8]) -> Answer {
    match cutter.take(piece) {
        Ok((count, Some(_))) => Answer::Whole(before.saturating_add(count)),
        Ok((_, None)) if cutter.held() == before.saturating_add(piece.len()) => Answer::Partial,
        Err(StreamFault::Format(fault)) => Answer::Refused(fault),
        _ => Answer::Other,
    }
}

// Why there is no view of all the bytes, if decoding answers so, or nothing if there is one.
fn unseen(bytes: &[u8], right: Answer) -> Option<Fault> {
    let (at, reason) = match right {
        Answer::Whole(used) if used == bytes.len() => return None,
        Answer::Whole(used) => (used, Reason::Trailing),
        Answer::Partial => (bytes.len(), Reason::Truncated),
        Answer::Refused(fault) => return Some(fault),
        Answer::Other => (0, Reason::NotYet),
    };
    Some(Fault {
        at: at as u64,
        reason,
    })
}

// What a checker answers of the first bytes, and then of all. An answer other than that more are
// wanted stands.
fn checked_in_two(checker: &mut Checker, front: &[u8], rest: &[u8]) -> [Answer; 2] {
    checker.restart();
    match checked(checker, 0, front) {
        Answer::Partial => [Answer::Partial, checked(checker, front.len(), rest)],
        answer => [answer; 2],
    }
}

// What a cutter answers of them.
fn cut_in_two(alloc: Global, front: &[u8], rest: &[u8]) -> [Answer; 2] {
    let mut cutter = Cutter::new(alloc);
    match cut(&mut cutter, 0, front) {
        Answer::Partial => [Answer::Partial, cut(&mut cutter, front.len(), rest)],
        answer => [answer; 2],
    }
}

/// The splits of bytes in two whose first piece has this length, or some steps more.
#[derive(Clone, Copy)]
pub(crate) struct Splits {
    pub(crate) first: usize,
    pub(crate) step: usize,
}

// Each split.
const EVERY: Splits = Splits { first: 0, step: 1 };

/// What readers work with.
#[derive(Drop)]
pub(crate) struct Readers {
    /// Allocates what is read.
    pub(crate) alloc: Global,
    /// It begins again with each message.
    pub(crate) checker: Checker,
}

impl Readers {
    // How many answers of a checker and of a cutter are another in these splits in two: of the
    // first piece, which decoding of that piece tells, and of both.
    fn in_two_differs(&mut self, bytes: &[u8], right: Answer, splits: Splits) -> u64 {
        let mut count = 0u64;
        for n in (splits.first..bytes.len() + 1).step_by(splits.step.max(1)) {
            let (front, rest) = bytes.split_at(n);
            let wanted = [decoded(self.alloc, front), right];
            for given in [
                checked_in_two(&mut self.checker, front, rest),
                cut_in_two(self.alloc, front, rest),
            ] {
                count = count.saturating_add(u64::from(given != wanted));
            }
        }
        count
    }

    // How many answers of a checker are another, that is handed all bytes at once.
    fn whole_differs(&mut self, bytes: &[u8], right: Answer) -> u64 {
        self.checker.restart();
        u64::from(checked(&mut self.checker, 0, bytes) != right)
    }

    // How many answers of a view are another.
    fn view_differs(&self, bytes: &[u8], right: Answer) -> u64 {
        u64::from(MessageView::of(bytes).err() != unseen(bytes, right))
    }

    /// How many answers of all readers are another than this, in these splits in two.
    pub(crate) fn differing(&mut self, bytes: &[u8], right: Answer, splits: Splits) -> u64 {
        self.whole_differs(bytes, right)
            .saturating_add(self.in_two_differs(bytes, right, splits))
            .saturating_add(self.view_differs(bytes, right))
    }

    /// How many of a message's proper prefixes are partial for decoding and for all readers.
    pub(crate) fn partial_prefixes(&mut self, message: &[u8]) -> u64 {
        let mut count = 0u64;
        for n in 0..message.len() {
            let front = &message[..n];
            let is_partial = decoded(self.alloc, front) == Answer::Partial;
            if is_partial && self.differing(front, Answer::Partial, EVERY) == 0 {
                count = count.saturating_add(1);
            }
        }
        count
    }
}
