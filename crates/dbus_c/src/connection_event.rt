//! The numbers of what comes of the bytes of a connection, which are for good.
//! D-Bus Specification, "Authentication Protocol" and "Message Protocol".
#![tactic(auto)]

/// Nothing, before more bytes are at hand.
pub const WANTS: u32 = 0;

/// There are bytes to send first: [`crate::dbus_wire_connection_unsent`] writes them.
pub const UNSENT: u32 = 1;

/// The handshake succeeded, and there may be bytes to send.
pub const BEGUN: u32 = 2;

/// A message, whose bytes are the last of those that were taken.
pub const MESSAGE: u32 = 3;

/// The bytes are no message. The connection is to be closed.
pub const NO_MESSAGE: u32 = 4;

/// The handshake failed. The connection is to be closed.
pub const FAILED: u32 = 5;

/// It was refused, or the handshake failed, before.
pub const OVER: u32 = 6;

/// A message that is longer than those that are given. Its bytes are taken as they come.
pub const PASSED: u32 = 7;

/// A message lacks descriptors at its end. The connection is to be closed.
pub const TOO_FEW: u32 = 8;
