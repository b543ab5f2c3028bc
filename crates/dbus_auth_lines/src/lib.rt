//! The lines of the D-Bus authentication handshake.
//!
//! Before the first message, client and server say who the client is, in lines of ASCII ended by CR
//! LF. [`read_client`] and [`read_server`] say what a line means, [`client_text`] and
//! [`server_text`] write one, and [`LineCutter`] cuts lines out of bytes that come in pieces. A
//! line has at most 16,384 bytes with its CR LF. Without memory, [`scanning::first_line`] gives the
//! line that bytes begin with, and [`client_words`] and [`server_words`] say what it means, by
//! places in it.
//!
//! [`scanning`] and [`writing`] have what an end of a connection needs beside these: the end of the
//! first line in bytes that it keeps itself, and a line's bytes.
//!
//! All is from the D-Bus Specification, section "Authentication Protocol".
#![tactic(auto)]

mod copies;
mod cutter;
mod exact;
mod guid_text;
pub mod laws;
mod lines;
mod places;
mod reading;
pub mod scanning;
mod words;
pub mod writing;

pub use cutter::{LineCutter, LineFault};
pub use exact::{is_exact_client_line, is_exact_server_line};
pub use lines::{ClientLine, Guid, ServerLine};
pub use places::{ClientWords, ServerWords, client_words, server_words};
pub use reading::{read_client, read_server};
pub use words::WordPlace;
pub use writing::{TextFault, client_text, server_text};
