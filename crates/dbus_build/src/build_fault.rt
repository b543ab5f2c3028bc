//! Why parts make no message.
#![tactic(auto)]

ghost use Rattle.std.specs.Prelude.{◌≡◌};
ghost use Rattle.dbus_build.specs.declared.build_fault.BuildFault.TheVariants.{Memory};

use std::alloc::AllocError;
use thiserror::Error;

/// Why parts make no message: the first case of this list, in its order, that holds. `Memory` is
/// outside the order: making a message allocates nothing, so it is never returned.
///
/// D-Bus Specification, "Message Format", "Header Fields" and "Invalid Protocol and Spec
/// Extensions".
#[derive(Clone, Copy, PartialEq, Eq, Debug, Error)]
pub enum BuildFault {
    /// An allocation failed.
    #[error("allocation failed")]
    Memory,
    /// The message type is 0.
    #[error("the message type is 0")]
    Kind,
    /// The serial, or a REPLY_SERIAL field, is 0.
    #[error("the serial or a REPLY_SERIAL field is 0")]
    ZeroSerial,
    /// A field's code is 0.
    #[error("a field's code is 0")]
    FieldCode,
    /// A known field of this code occurs twice: the code of the first field that comes after one of
    /// the same code.
    #[error("field {0} stands twice")]
    FieldTwice(u8),
    /// A known field of this code, the first such field, has another type than its own.
    #[error("field {0} has another type than its own")]
    FieldType(u8),
    /// The message type requires a field of this code, the lowest that is missing.
    #[error("field {0} is missing")]
    FieldMissing(u8),
    /// More containers would be open at once than the limit on depth. A field's value is within
    /// three.
    #[error("more containers are open at once than the limit on depth")]
    TooDeep,
    /// The text of a known field of this code, the first such field, is not of the field's kind.
    #[error("the text of field {0} is not of its kind")]
    Name(u8),
    /// The value of an unknown field of this code, the first such field, is not well formed.
    #[error("the value of field {0} is not well formed")]
    FieldValue(u8),
    /// The body's value of this number, counted from 0, the first such value, is not well formed.
    #[error("value {0} of the body is not well formed")]
    Value(usize),
    /// The types of the body's values are not those of the SIGNATURE field, which are none if it is
    /// absent.
    #[error("the types of the body's values are not those of the SIGNATURE field")]
    SignatureDiffers,
    /// The contents of the field array, or of an array in the message, are over the limit on
    /// arrays.
    #[error("an array is over the limit on arrays")]
    ArrayTooLong,
    /// The message is over the limit on messages.
    #[error("the message is over the limit on messages")]
    MessageTooLong,
    /// The body's value of this number, counted from 0, the first such value, holds an index of a
    /// descriptor that is not below the number of the UNIX_FDS field, which is 0 if there is none.
    /// It holds only if the limits' rule asks for that.
    #[error("value {0} of the body has an index of a descriptor that is not below their number")]
    FdIndex(usize),
}

impl From<AllocError> for BuildFault {
    ghost from_gives = { λ e f. f ≡ Memory };

    fn from(_error: AllocError) -> BuildFault {
        BuildFault::Memory
    }
}
