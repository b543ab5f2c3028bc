//! The serials of the messages that one side of a connection sends, and its calls that wait for a
//! reply.
//!
//! [`Pending`] gives each message a serial that tells it from all whose reply is still to come, and
//! keeps for each such call what its caller wants to know again. It knows no bytes: `dbus_calls`
//! says which call a message answers.
//!
//! D-Bus Specification, "Message Format" (the serial) and "Header Fields" (REPLY_SERIAL).
#![tactic(auto)]

mod pending;

pub use pending::{NotWaiting, Pending};
