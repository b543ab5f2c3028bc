//! The reasons why bytes begin with no handshake, as text.
#![tactic(auto)]

use crate::fault::HandshakeReason;
use std::fmt;

/// The name of the reason, as `NoCommand`.
impl fmt::Display for HandshakeReason {
    ghost use Rattle.std.specs.Prelude.{Some};
    ghost use Rattle.dbus_handshake_input.specs.Handshakes.{handshake_reason_text};

    ghost output = { λ reason. Some (handshake_reason_text reason) };

    fn fmt<W: fmt::Write>(&self, f: &mut fmt::Formatter<W>) -> fmt::Result {
        match self {
            HandshakeReason::FirstByte => f.write_str("FirstByte"),
            HandshakeReason::LineTooLong => f.write_str("LineTooLong"),
            HandshakeReason::LineByte => f.write_str("LineByte"),
            HandshakeReason::NoCommand => f.write_str("NoCommand"),
            HandshakeReason::Truncated => f.write_str("Truncated"),
            HandshakeReason::TooManyLines => f.write_str("TooManyLines"),
        }
    }
}
