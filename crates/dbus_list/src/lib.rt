//! A message as one line for a reader, which fits a terminal.
//!
//! A text passes three drafts over the caller's: one joins its pieces, in one each hidden character
//! is seen, and one cuts the text to the cells of a line. Values are written in a form of their own. A [`CallTable`] takes
//! the messages of an input, and returns the call that a reply answers.
#![tactic(auto)]

mod about;
mod beside;
mod brief;
mod call_table;
mod characters;
mod columns;
mod connections;
mod cut_draft;
mod joined_draft;
mod known_call;
pub mod laws;
mod line;
mod line_draft;
mod names;

pub use beside::Beside;
pub use call_table::CallTable;
pub use known_call::{AnsweredCall, KnownCall};
pub use line::write_line;
