//! The program `dbus-wire` over the words of its command line, with any reader and two writers.
//!
//! [`run_words`] does what the words name, and returns the exit status; [`run_asked`] does it once they
//! are read. `cli_run` has the commands over messages, and `cli_encode` the one over lines, which are
//! here too. `dbus_wire` is the program.
#![tactic(auto)]

pub mod laws;
mod lines;
mod listing;
mod rule_lines;
mod words;

pub use cli_encode::{Encoding, LineReason, Refusal, encode_lines};
pub use cli_options::{
    Asked, Command, Output, RefusedRule, Request, Selection, Settings, Side, Task, UsageFault,
    WantedCalls, WantedEncoding, WantedLines, Window, command_of,
};
pub use cli_report::ExitStatus;
pub use cli_run::{run, run_reads, run_with, run_within};
pub use dbus_handshake_input::ReadAhead;
pub use words::{run_asked, run_words};
