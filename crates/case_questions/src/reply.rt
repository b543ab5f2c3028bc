//! Replies.

use dbus_value_model::Fault;
use itoa::Buffer;
use std::alloc::Global;
use std::convert::AsSlice;
use std::fmt::{Debug, Display};

// How the text of each error ends which says that memory ran out.
const NO_MEMORY: &str = "allocation failed";

/// A reply under way. Each call adds words to its line.
#[derive(Drop)]
pub struct Reply {
    alloc: Global,
    line: String,
    // Memory ran out, for the reply or in what it tells.
    failed: bool,
}

impl Reply {
    /// A reply without words.
    pub fn new(alloc: Global) -> Reply {
        Reply {
            alloc,
            line: String::new(alloc),
            failed: false,
        }
    }

    /// Where the reply takes its memory.
    pub fn alloc(&self) -> Global {
        self.alloc
    }

    fn push(&mut self, text: &str) {
        if self.line.push_str(text).is_err() {
            self.failed = true;
        }
    }

    /// Adds a word, or a text of several.
    pub fn word(&mut self, text: &str) {
        if !self.line.is_empty() {
            self.push(" ");
        }
        self.push(text);
    }

    /// Ends the last word with a comma.
    pub fn comma(&mut self) {
        self.push(",");
    }

    /// Adds a number.
    pub fn number(&mut self, number: u64) {
        let mut buffer = Buffer::new();
        self.word(buffer.format(number));
    }

    /// Adds a word and a number.
    pub fn counted(&mut self, word: &str, number: u64) {
        self.word(word);
        self.number(number);
    }

    /// Adds bytes in hexadecimal, or `-` if there are none.
    pub fn bytes(&mut self, bytes: &[u8]) {
        if bytes.is_empty() {
            self.word("-");
            return;
        }
        match hex::encode(self.alloc, bytes) {
            Ok(digits) => self.word(digits.as_str()),
            Err(_) => self.failed = true,
        }
    }

    /// Adds a word and bytes.
    pub fn spelled(&mut self, word: &str, bytes: &[u8]) {
        self.word(word);
        self.bytes(bytes);
    }

    /// Adds a text in hexadecimal, or that there is none.
    pub fn found_text(&mut self, text: Option<&str>) {
        match text {
            Some(text) => self.bytes(text.as_bytes()),
            None => self.word("none"),
        }
    }

    /// Adds the text of a number or of an error, or makes the reply that memory ran out if it says
    /// so.
    pub fn told<T: Display>(&mut self, told: &T) {
        match told.to_string(self.alloc) {
            Ok(text) if !text.as_str().ends_with(NO_MEMORY) => self.word(text.as_str()),
            _ => self.failed = true,
        }
    }

    /// Adds the name of a variant.
    pub fn variant<T: Debug>(&mut self, variant: &T) {
        let alloc = self.alloc;
        match format!(in alloc; "{variant:?}") {
            Ok(text) => self.word(text.as_str()),
            Err(_) => self.failed = true,
        }
    }

    /// Adds a number, or that there is none.
    pub fn found<T: Display + Drop>(&mut self, found: Option<T>) {
        match found {
            Some(number) => self.told(&number),
            None => self.word("none"),
        }
    }

    /// Adds that a check accepts what it is asked of, or its error.
    pub fn checked<E: Display + Drop>(&mut self, outcome: Result<(), E>) {
        match outcome {
            Ok(()) => self.word("accepted"),
            Err(fault) => self.told(&fault),
        }
    }

    /// Adds a number that a call returned, or its error.
    pub fn returned<E: Display + Drop>(&mut self, outcome: Result<u64, E>) {
        match outcome {
            Ok(number) => self.number(number),
            Err(fault) => self.told(&fault),
        }
    }

    /// Adds the bytes or the text that a call made, or its error.
    pub fn made<T: AsSlice<u8> + Drop, E: Display + Drop>(&mut self, outcome: Result<T, E>) {
        match outcome {
            Ok(made) => self.bytes(made.as_slice()),
            Err(fault) => self.told(&fault),
        }
    }

    /// Adds that bytes are refused, where and why.
    pub fn refused(&mut self, fault: Fault) {
        self.counted("refused", fault.at);
        self.told(&fault.reason);
    }

    /// Adds what bytes are after a word, or that more of them are wanted, or why they are refused.
    pub fn judged(&mut self, word: &str, outcome: Result<Option<u64>, Fault>) {
        match outcome {
            Ok(Some(number)) => self.counted(word, number),
            Ok(None) => self.word("partial"),
            Err(fault) => self.refused(fault),
        }
    }

    /// Makes the reply that memory ran out, whatever else is added.
    pub fn fail(&mut self) {
        self.failed = true;
    }

    /// The words so far, or that memory ran out.
    pub fn line(&self) -> &str {
        if self.failed {
            return "out of memory";
        }
        self.line.as_str()
    }
}
