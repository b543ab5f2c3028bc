//! Why bytes are refused, and where.
#![tactic(auto)]

use thiserror::Error;

/// Why bytes are refused: the one row of the fault table that they meet (docs/WIRE-FORMAT.md).
#[derive(Clone, Copy, PartialEq, Eq, Debug)]
pub enum Reason {
    /// The first byte is neither `l` nor `B`.
    ByteOrder,
    /// The message type is 0.
    Kind,
    /// The protocol version is not 1.
    Version,
    /// The serial, or a REPLY_SERIAL, is 0.
    ZeroSerial,
    /// An array's length is over the limit on arrays: 67,108,864 bytes, or fewer if such a limit is
    /// handed in.
    ArrayTooLong,
    /// The header, its padding and the body have more than 134,217,728 bytes, or fewer if such a
    /// limit is handed in.
    MessageTooLong,
    /// A padding byte is not 0.
    Padding,
    /// Something ends past the innermost end: of an array, of the header fields or of the body.
    Overrun,
    /// A BOOLEAN is neither 0 nor 1.
    Bool,
    /// A STRING is not UTF-8 without U+0000.
    Text,
    /// The byte after a text is not 0.
    Nul,
    /// An OBJECT_PATH is not a valid object path.
    Path,
    /// A SIGNATURE is not a valid signature, or a variant's is not one complete type.
    Signature,
    /// The INTERFACE field is not a valid interface name.
    Interface,
    /// The MEMBER field is not a valid member name.
    Member,
    /// The ERROR_NAME field is not a valid error name.
    ErrorName,
    /// The DESTINATION or SENDER field is not a valid bus name.
    BusName,
    /// The name in a header field has more than 255 bytes.
    NameTooLong,
    /// A header field's code is 0.
    FieldCode,
    /// A known header field occurs twice.
    FieldTwice,
    /// A known header field has another type than its own.
    FieldType,
    /// The message type requires a header field of this code, and it is not there.
    FieldMissing(u8),
    /// Bytes are left after the body's last value, or after the message.
    Trailing,
    /// A container is opened while as many are open as the limit on depth: 64, or fewer if such a
    /// limit is handed in.
    TooDeep,
    /// The input ends within a message.
    Truncated,
    /// The index of a file descriptor is not below their count, if that is asked for.
    FdIndex,
    /// Reserved: no input is refused for it today. The case is kept so that the reasons keep their
    /// order.
    NotYet,
}

/// Why bytes are refused, and where.
#[derive(Clone, Copy, PartialEq, Eq, Debug)]
pub struct Fault {
    /// The place, in bytes from the message's first byte. If no byte shows the fault, it is the
    /// number of bytes read before it.
    pub at: u64,
    /// The reason.
    pub reason: Reason,
}

/// Why a call gave nothing.
#[derive(Clone, Copy, PartialEq, Eq, Debug, Error)]
pub enum Refusal {
    /// An allocation failed.
    #[error("allocation failed")]
    Memory,
    /// The bytes are refused.
    #[error("{0}")]
    Format(Fault),
}
