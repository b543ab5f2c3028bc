//! Why a value is not well formed, or is not written.
#![tactic(auto)]

ghost use Rattle.std.specs.Prelude.{◌≡◌};
ghost use Rattle.dbus_value_model.specs.declared.value_fault.ValueFault.TheVariants.{Memory};

use std::alloc::AllocError;
use thiserror::Error;

/// Why a value is not well formed, or is not written. D-Bus Specification, "Marshaling (Wire
/// Format)".
#[derive(Clone, Copy, PartialEq, Eq, Debug, Error)]
pub enum ValueFault {
    /// An allocation failed.
    #[error("allocation failed")]
    Memory,
    /// More arrays, structs and variants are open at once than the limit on depth.
    #[error("more containers are open at once than the limit on depth")]
    TooDeep,
    /// A part has no type that fits its place: an item has another type than its array's, an array
    /// of BYTE is not `Bytes`, a dict entry is outside an array or its key is not basic, a struct
    /// is empty, or a type spells no signature within the limits.
    #[error("a part has no type that fits its place")]
    Mixed,
    /// An object path or a signature is not valid, or a text has U+0000.
    #[error("a path or a signature is none, or a text has U+0000")]
    Name,
    /// The contents of an array end past the limit on arrays, from their start.
    #[error("an array is over the limit on arrays")]
    ArrayTooLong,
    /// The value ends past the limit on messages, from the message's first byte.
    #[error("the value ends past the limit on messages")]
    TooLong,
}

impl From<AllocError> for ValueFault {
    ghost from_gives = { λ e f. f ≡ Memory };

    fn from(_error: AllocError) -> ValueFault {
        ValueFault::Memory
    }
}
