//! Where in damaged bytes a message begins. D-Bus Specification, "Message Format".
//!
//! D-Bus has no mark at which a message begins, so after bytes that are no message the next one is
//! found by trial: [`first_message`] returns the least offset at which a whole message begins. Each
//! offset may state a message of any length, so that a plain search would take the square of the
//! time; this one stops after an effort that its caller names. A `dbus_stream::RawReader` goes on
//! there. [`laws`] says of whole bytes what is lost.
#![tactic(auto)]

mod found;
pub mod laws;
mod search;

pub use found::{Found, Searched};
pub use search::{first_message, size_there};
