//! Why nothing is appended.

use std::alloc::AllocError;
use thiserror::Error;

/// Why nothing is appended. The bytes are as they were then.
#[derive(Clone, Copy, PartialEq, Eq, Debug, Drop, Error)]
pub enum PutFault {
    /// An allocation failed.
    #[error("allocation failed")]
    Memory,
    /// A text or the elements of an array have more bytes than the bytes of their length can say.
    #[error("too many bytes for their length")]
    TooLong,
    /// The bytes have no open array at this place.
    #[error("no array is open at this place")]
    NotOpen,
}

impl From<AllocError> for PutFault {
    ghost use Rattle.std.specs.Prelude.{◌≡◌};
    ghost use Rattle.dbus_body.specs.declared.put_fault.PutFault.TheVariants.{Memory};

    ghost from_gives = { λ _ e. e ≡ Memory };

    fn from(_: AllocError) -> Self {
        PutFault::Memory
    }
}
