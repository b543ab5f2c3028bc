//! A call that waits for its reply.
#![tactic(auto)]

ghost use Rattle.std.specs.Prelude.{option_map, string_bytes};

use crate::place::Place;
use dbus_calls::Sent;

/// A call that waits for its reply. It is in a box, since the map of its caller has room for
/// fifteen calls, however few wait.
#[derive(Drop)]
pub(crate) struct WaitingCall {
    pub(crate) parts: Box<CallParts>,
}

/// What is kept of a call that waits.
#[derive(Drop)]
pub(crate) struct CallParts {
    /// Its place in the input.
    pub(crate) place: Place,
    /// Its DESTINATION, if it has one.
    pub(crate) destination: Option<String>,
    /// What its sink keeps of it.
    pub(crate) text: String,
}

impl Sent for WaitingCall {
    ghost sent_to = { λ call. option_map string_bytes call.parts.value.destination };

    fn destination(&self) -> Option<&str> {
        match &self.parts.destination {
            Some(name) => Some(name.as_str()),
            None => None,
        }
    }
}
