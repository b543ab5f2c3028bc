//! Why a cutter returns no message.
use dbus_value_model::Fault;
use thiserror::Error;

/// Why a cutter returns no message.
#[derive(Clone, Copy, Debug, PartialEq, Eq, Error)]
pub enum StreamFault {
    /// An allocation failed. Nothing was taken, and the call may be made again.
    #[error("allocation failed")]
    Memory,
    /// The bytes begin with no message. The place counts from the first byte of the message under
    /// way. It stays for good.
    #[error("the bytes are no message: {0}")]
    Format(Fault),
}
