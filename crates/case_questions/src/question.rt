//! Questions.

use dbus_value_model::{FdRule, Limits, Order};
use std::alloc::Allocator;

/// The bytes that a word spells in hexadecimal, or none if it is `-` or spells no bytes.
pub fn bytes_of<A: Allocator + Copy>(alloc: A, word: &str) -> Vec<u8, A> {
    hex::decode(alloc, word.as_bytes()).unwrap_or(Vec::new(alloc))
}

/// A question: a line of words with a space between any two. The last words may be settings, as
/// `depth=3`.
#[derive(Clone, Copy)]
pub struct Question<'a> {
    line: &'a str,
}

impl<'a> Question<'a> {
    /// The question of a line.
    pub fn new(line: &'a str) -> Question<'a> {
        Question { line }
    }

    /// The word of this number, from 0, or the empty text if there is none.
    pub fn word(self, n: usize) -> &'a str {
        for (k, word) in self.line.split(' ').enumerate() {
            if k == n {
                return word;
            }
        }
        ""
    }

    /// The bytes that the word of this number spells, as `bytes_of` says.
    pub fn bytes<A: Allocator + Copy>(self, alloc: A, n: usize) -> Vec<u8, A> {
        bytes_of(alloc, self.word(n))
    }

    /// What the setting of this name says, if there is one.
    pub fn setting(self, name: &str) -> Option<&'a str> {
        for word in self.line.split(' ') {
            if let Some((named, text)) = word.split_once('=') {
                if named == name {
                    return Some(text);
                }
            }
        }
        None
    }

    /// The number that the setting of this name says, if there is one.
    pub fn number(self, name: &str) -> Option<u64> {
        self.setting(name)?.parse::<u64>().ok()
    }

    /// The same if it is a UINT32.
    pub fn uint32(self, name: &str) -> Option<u32> {
        u32::try_from(self.number(name)?).ok()
    }

    /// The same as a number of bytes or of places, or another if there is none.
    pub fn count(self, name: &str, otherwise: usize) -> usize {
        match self.number(name) {
            Some(number) => usize::try_from(number).unwrap_or(otherwise),
            None => otherwise,
        }
    }

    /// The limits that `message=`, `array=`, `depth=` and `fds=below-count` say. What is left out
    /// is as the specification has it.
    pub fn limits(self) -> Limits {
        let most = Limits::specification();
        let depth = self.uint32("depth").unwrap_or(u32::from(most.depth));
        let limits = Limits::new(
            self.uint32("message").unwrap_or(most.message),
            self.uint32("array").unwrap_or(most.array),
            u8::try_from(depth).unwrap_or(most.depth),
        );
        let rule = match self.setting("fds") {
            Some("below-count") => FdRule::BelowCount,
            _ => FdRule::Any,
        };
        limits.unwrap_or(most).with_fds(rule)
    }

    /// The byte order that `order=big` says; without it little endian.
    pub fn order(self) -> Order {
        match self.setting("order") {
            Some("big") => Order::Big,
            _ => Order::Little,
        }
    }
}
