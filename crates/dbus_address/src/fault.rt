//! Why a text of addresses is refused, and why addresses are not written.
#![tactic(auto)]

ghost use Rattle.std.specs.Prelude.{◌≡◌};
ghost use Rattle.dbus_address.specs.declared.fault.AddressTextFault.TheVariants.{Memory};

use std::alloc::{AllocError, AllocFailed};
use thiserror::Error;

/// Why a text of addresses is refused, and where.
#[derive(Clone, Copy, PartialEq, Eq, Debug, Error)]
#[error("{reason} at offset {at}")]
pub struct AddressFault {
    /// The place, in bytes from the text's start.
    pub at: usize,
    /// The reason.
    pub reason: AddressReason,
}

/// Why a text of addresses is refused.
///
/// `TooLong` comes before all others. `Transport`, `Key`, `Value` and `Escape` come if the text
/// spells no addresses, at the place where its longest beginning ends that some addresses have: at
/// its length, if it only stops too early. A text that spells addresses is refused for the first
/// of them with a key twice or a GUID that is none. D-Bus Specification, "Server Addresses"; the
/// reasons and their places are this project's own.
#[derive(Clone, Copy, PartialEq, Eq, Debug)]
pub enum AddressReason {
    /// The text is longer than [`ADDRESS_LIMIT`](crate::ADDRESS_LIMIT): at that place.
    TooLong,
    /// A byte of a transport has to come, or the colon after it.
    Transport,
    /// A byte of a key has to come, or the `=` after it.
    Key,
    /// A byte of a value can come, or a comma, a semicolon or the end, and another byte comes.
    Value,
    /// A hexadecimal digit after `%` has to come.
    Escape,
    /// A key is twice in one address: at that address' first byte.
    KeyTwice,
    /// The value of the key `guid` is not 32 hexadecimal digits: at that address' first byte.
    Guid,
}

/// Why addresses are not written.
#[derive(Clone, Copy, PartialEq, Eq, Debug, Error)]
pub enum AddressTextFault {
    /// An allocation failed.
    #[error("allocation failed")]
    Memory,
    /// There is no address; or a transport or a key is empty, or has a byte that would have to be
    /// escaped.
    #[error("no address, or a transport or a key that cannot be written")]
    NoName,
    /// The text would be refused.
    #[error("{0}")]
    Refused(AddressFault),
}

impl From<AllocError> for AddressTextFault {
    ghost from_gives = { λ _ e. e ≡ Memory };

    fn from(_: AllocError) -> Self {
        AddressTextFault::Memory
    }
}

impl<T: Drop> From<AllocFailed<T>> for AddressTextFault {
    ghost from_gives = { λ _ e. e ≡ Memory };

    fn from(_: AllocFailed<T>) -> Self {
        AddressTextFault::Memory
    }
}
