//! Lines of JSON, as `dbus_json` writes them, read back: the message that one spells. RFC 8259.
//!
//! [`message_of_line`] is exact: it returns the message of each line that spells one, and refuses
//! each other line. [`is_blank`] tells the lines that have only white space.
#![tactic(auto)]

mod broken;
mod fault;
mod line;
mod places;

pub use dbus_json_reader::JsonReason;
pub use fault::{LineFault, NoMessage};
pub use line::{is_blank, message_of_line};
