//! What is done with the messages of an input.
use crate::file_form::FileForm;
use crate::selection::Selection;
use crate::settings::Settings;
use crate::wanted_calls::WantedCalls;
use dbus_value_model::Order;

/// What is written of each message.
#[derive(Clone, Copy, PartialEq, Eq, Debug)]
pub enum Output {
    /// Nothing: the input is checked, and its messages are counted.
    Nothing,
    /// Its text.
    Text {
        /// Whether its time stands before it, if it has one.
        times: bool,
        /// Whether hidden characters, which a terminal obeys or does not draw, are escaped.
        escapes: bool,
    },
    /// Its line of JSON.
    JsonLine {
        /// Whether its time is written, if it has one.
        times: bool,
        /// Whether its integers are safe: an INT64 or UINT64 beyond 2^53 - 1 is a string.
        safe: bool,
    },
    /// Its bytes in this byte order, in this form.
    InOrder(Order, FileForm),
    /// Its bytes as they are, in this form.
    AsIs(FileForm),
}

/// A command that writes something of each message that it selects.
#[derive(PartialEq, Eq, Debug, Drop)]
pub struct Command {
    /// What it writes.
    pub output: Output,
    /// Which messages it selects. Without a selection it is all.
    pub selection: Option<Selection>,
}

/// What is done with the messages that are selected.
#[derive(Clone, Copy, PartialEq, Eq, Debug)]
pub enum Task {
    /// This is written of each.
    Write(Output),
    /// They are counted by their names, in tables.
    Count,
    /// They are listed, each in a line of at most so many cells on a terminal; 0 for no bound.
    Lines(u16),
    /// Their calls are listed with what came of them, or summed up by their members.
    Calls(WantedCalls),
}

/// What is asked for of the messages of an input.
#[derive(Debug, Drop)]
pub struct Request {
    /// What is done with them.
    pub task: Task,
    /// Which of them are selected. Without a selection it is all.
    pub selection: Option<Selection>,
    /// How they are read, and what follows one that is refused.
    pub settings: Settings,
}
