//! The command line of the program `dbus-wire`: which command its words name, with which settings.
//!
//! [`command_of`] returns what some words ask for, a [`Request`] as a rule, or their
//! [`UsageFault`]. The texts of help are here too. `dbus_tool` runs the command. `man/dbus-wire.1`
//! describes the words.
#![tactic(auto)]

mod asked;
mod command;
mod command_line;
mod copies;
mod file_form;
mod flag;
mod help;
pub mod laws;
mod limits_named;
mod owners;
mod resync;
mod rules;
mod selection;
mod settings;
mod unowned;
mod usage_fault;
mod wanted_calls;
mod wanted_encoding;
mod wanted_lines;
mod window;
mod wire;
mod worded;

pub use asked::Asked;
pub use command::{Command, Output, Request, Task};
pub use command_line::command_of;
pub use dbus_handshake_input::Side;
pub use file_form::FileForm;
pub use resync::Resync;
pub use selection::{Question, Selection};
pub use settings::Settings;
pub use usage_fault::{RefusedRule, UsageFault};
pub use wanted_calls::WantedCalls;
pub use wanted_encoding::WantedEncoding;
pub use wanted_lines::WantedLines;
pub use window::Window;
