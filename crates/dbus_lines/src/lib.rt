//! Lines of bytes from a source, one after another. RFC 8259 has no lines: that each ends with a
//! line feed is the form of JSON Lines.
//!
//! [`LineReader`] reads them by a buffer inside it. However the source cuts its bytes into reads,
//! the lines are the same: `laws` states it, with that an input has one list of lines.
#![tactic(auto)]

mod fault;
mod gathered;
pub mod laws;
mod line_reader;

pub use fault::NoLine;
pub use line_reader::LineReader;
