//! Messages of which each byte is changed to each other value, as all readers of messages answer
//! them.

ghost use Rattle.std.specs.Prelude.{◌<◌, ◌≡◌, length};

use crate::agreeing::{Answer, Readers, Splits, decoded};
use case_questions::{Question, Reply};
use dbus_check::Checker;

// Of a changed message every so many splits are tried; which, changes with the byte's value.
const STEP: usize = 4;

// What changed messages came to.
#[derive(Drop)]
struct Tally {
    whole: u64,
    refused: u64,
    partial: u64,
    // How often a reader answers otherwise than decoding.
    disagreements: u64,
}

impl Tally {
    fn new() -> Self {
        Tally {
            whole: 0,
            refused: 0,
            partial: 0,
            disagreements: 0,
        }
    }

    // Counts what decoding answers of a changed message, and how many readers answer otherwise. Any
    // answer but the three is a disagreement.
    fn count(&mut self, answer: Answer, differing: u64) {
        let count = match answer {
            Answer::Whole(_) => &mut self.whole,
            Answer::Refused(_) => &mut self.refused,
            Answer::Partial => &mut self.partial,
            Answer::Other => &mut self.disagreements,
        };
        *count = count.saturating_add(1);
        self.disagreements = self.disagreements.saturating_add(differing);
    }

    fn say(&self, reply: &mut Reply) {
        reply.number(self.whole);
        reply.number(self.refused);
        reply.number(self.partial);
        reply.number(self.disagreements);
    }
}

// The messages that differ from these bytes in the byte at one offset, which has each other value
// in turn.
fn change_byte(readers: &mut Readers, bytes: &mut [u8], at: usize, tally: &mut Tally)
    requires { at < length bytes.old }
    ensures { length bytes.new ≡ length bytes.old }
{
    let kept = bytes[at];
    for value in 0..=u8::MAX {
        if value != kept {
            bytes[at] = value;
            let right = decoded(readers.alloc, bytes);
            let splits = Splits {
                first: usize::from(value) % STEP,
                step: STEP,
            };
            tally.count(right, readers.differing(bytes, right, splits));
        }
    }
    bytes[at] = kept;
}

/// Adds how many prefixes of a message are partial; how many of the changed messages decoding finds
/// whole, refused and partial; and how often a reader answers otherwise.
pub(crate) fn say_changed(reply: &mut Reply, question: Question<'_>) -> Option<()> {
    let mut bytes = question.bytes(reply.alloc(), 1);
    let mut readers = Readers {
        alloc: reply.alloc(),
        checker: Checker::new(),
    };
    reply.number(readers.partial_prefixes(&bytes));
    let mut tally = Tally::new();
    for at in 0..bytes.len() {
        if at < bytes.len() {
            change_byte(&mut readers, &mut bytes, at, &mut tally);
        }
    }
    tally.say(reply);
    Some(())
}
