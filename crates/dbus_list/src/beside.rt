//! What the line of a message tells beside what the message says.
#![tactic(auto)]

use crate::known_call::AnsweredCall;

/// What the line of a message tells beside what the message says. D-Bus Specification, "Message
/// Types" ("Method Calls") and "Message Bus Names".
#[derive(Clone, Copy)]
pub struct Beside<'a> {
    /// The call that it answers, if it is a reply to one that is known.
    pub answered: Option<AnsweredCall<'a>>,
    /// The name by which the connection of its SENDER is known, if it is.
    pub sender: Option<&'a str>,
    /// The name by which the connection of its DESTINATION is known, if it is.
    pub destination: Option<&'a str>,
}
