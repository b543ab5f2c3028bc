//! The flags of a message, each a bit of the one byte that they share. Bits without a name are kept
//! and have no meaning. D-Bus Specification, "Message Format".

/// The caller wants no reply, though the message is a call.
pub const NO_REPLY_EXPECTED: u8 = 1;

/// The bus must not start an owner for the destination's name.
pub const NO_AUTO_START: u8 = 2;

/// The caller is ready to wait while a person is asked to allow the call.
pub const ALLOW_INTERACTIVE_AUTHORIZATION: u8 = 4;
