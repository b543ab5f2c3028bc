//! Calls of an input, and what the lines of their replies tell of them.
#![tactic(auto)]

ghost use Rattle.std.specs.Prelude.{◌≡◌, option_map, string_bytes};
ghost use Rattle.dbus_list.specs.Pairs.{call_seen, told};

use dbus_call_lines::{Elapsed, Place, time_between};
use dbus_calls::Sent;

/// What the line of a reply tells of the call that it answers.
#[derive(Clone, Copy)]
pub struct AnsweredCall<'a> {
    /// The number of the call's message, counted from 1.
    pub number: u64,
    /// The call's MEMBER, or `-`.
    pub member: &'a str,
    /// The time from the call to the reply, if both are known.
    pub took: Option<Elapsed>,
}

/// A call that waits for its reply, or did. It is in a box, since the map of its caller has room
/// for more calls than wait.
#[derive(Drop)]
pub struct KnownCall {
    pub(crate) parts: Box<CallParts>,
}

/// What is kept of a call.
#[derive(Drop)]
pub(crate) struct CallParts {
    /// Its place in the input.
    pub(crate) place: Place,
    /// Its DESTINATION, if it has one.
    pub(crate) destination: Option<String>,
    /// Its MEMBER, or `-`.
    pub(crate) member: String,
}

impl Sent for KnownCall {
    ghost sent_to = { λ call. option_map string_bytes call.parts.value.destination };

    fn destination(&self) -> Option<&str> {
        match &self.parts.destination {
            Some(name) => Some(name.as_str()),
            None => None,
        }
    }
}

impl KnownCall {
    /// What the line of its reply tells of it, which was captured at this time, in nanoseconds, if
    /// that is known.
    pub fn told(&self, replied: Option<u64>) -> AnsweredCall<'_>
        ensures { call_seen result ≡ told replied self.now }
    {
        let parts = &*self.parts;
        AnsweredCall {
            number: parts.place.number,
            member: parts.member.as_str(),
            took: time_between(parts.place.time, replied),
        }
    }
}
