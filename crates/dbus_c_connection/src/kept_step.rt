//! What is told of what came.
#![tactic(auto)]

use dbus_auth::Guid;
use dbus_connection::PassedOver;
use dbus_value_model::Fault;

/// What came of some bytes, as [`dbus_connection::Event`] has it, but without bytes.
#[derive(Clone, Copy, Drop)]
pub enum What {
    /// Nothing, and nothing will before so many bytes are at hand.
    Wants(u64),
    /// There are bytes to send, before anything else.
    Unsent,
    /// The handshake succeeded, and there may be bytes to send.
    Begun {
        /// The GUID of the server that accepted this client. `None` if this side is the server.
        guid: Option<Guid>,
        /// Whether both sides agreed to pass Unix file descriptors.
        agreed: bool,
    },
    /// A message, whose bytes are the last of those that were taken.
    Message {
        /// How many bytes it has.
        length: usize,
        /// How many of the Unix file descriptors that came are its own: the first of those that
        /// no message has.
        fds: u32,
        /// The call that it answers, if it answers one.
        call: Option<u64>,
    },
    /// A message that is longer than those that are given, whose bytes the next calls take.
    Passed(PassedOver),
    /// The bytes are no message. The place counts from the first that was not taken.
    Refused(Fault),
    /// A message lacks descriptors at its end.
    TooFew,
    /// The handshake failed.
    Failed,
    /// The connection was closed before.
    Over,
}

/// What a call made of its bytes.
#[derive(Clone, Copy, Drop)]
pub struct KeptStep {
    /// The number of bytes that were taken. Pass the others again.
    pub taken: usize,
    /// What came of them.
    pub what: What,
}
