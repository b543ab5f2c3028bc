//! Why no handshake was read.
#![tactic(auto)]

use thiserror::Error;

/// Why no handshake was read.
#[derive(Clone, Copy, PartialEq, Eq, Debug, Error)]
pub enum HandshakeFault {
    /// An allocation failed.
    #[error("allocation failed")]
    Memory,
    /// A read failed.
    #[error("the device failed")]
    Device,
    /// The bytes begin with no handshake of the side.
    #[error("the bytes begin with no handshake: {reason} at offset {at}")]
    Refused {
        /// The place of the fault, in bytes from the start of the handshake.
        at: usize,
        /// The reason.
        reason: HandshakeReason,
    },
}

/// Why bytes begin with no handshake of a side. D-Bus Specification, "Authentication Protocol"; the
/// limits, the names and the places are this project's own.
#[derive(Clone, Copy, PartialEq, Eq, Debug)]
pub enum HandshakeReason {
    /// The first byte of a client is not 0: at that byte.
    FirstByte,
    /// A line has more than 16,384 bytes with its CR LF: at its byte 16,382, which is neither CR
    /// nor the LF of a CR LF.
    LineTooLong,
    /// A byte that a line may not have: 0, a byte over 127, LF without CR, or a byte after CR that
    /// is not LF. At that byte.
    LineByte,
    /// A line is no command of the side: at its first byte.
    NoCommand,
    /// The input ended within the handshake: at its end.
    Truncated,
    /// The handshake does not end within 1,024 lines: at the end of these.
    TooManyLines,
}
