//! The lines of a handshake as text for a reader, each with its offset and with what it says.
//!
//! [`ShownLines`] takes the lines from `dbus_handshake_input::read_handshake`, and appends a line
//! of text for each to a `Draft` of `dbus_show`; [`write_size`] appends their number. The text is a
//! function of the lines, which `specs/` states. D-Bus Specification, "Authentication Protocol".
#![tactic(auto)]

mod lines;
mod sentences;
mod shown;

pub use lines::{ShownLines, write_size};
