//! Looking on at the D-Bus authentication handshake, as a proxy does.
//!
//! A [`Watch`] is handed the lines of both sides in the order in which they come, refuses what
//! readers may differ on, and says when messages begin. It knows no bytes: `dbus_auth_lines` cuts
//! lines.
//!
//! All is from the D-Bus Specification, section "Authentication Protocol".
#![tactic(auto)]

pub mod laws;
mod watch;

pub use watch::{Passage, Watch, WatchFault};
