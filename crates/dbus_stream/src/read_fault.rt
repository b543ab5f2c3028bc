//! Why a reader of messages returns no message.
use dbus_value_model::Fault;
use thiserror::Error;

/// Why a reader of messages returns no message.
#[derive(Clone, Copy, Debug, PartialEq, Eq, Error)]
pub enum ReadFault {
    /// An allocation failed. The bytes that were read are kept, and the call may be made again.
    #[error("allocation failed")]
    Memory,
    /// The bytes that are kept begin with no message, or end within one. Its place counts from the
    /// first of them. It stays for good.
    #[error("the bytes are no message: {0}")]
    Format(Fault),
    /// The device failed in this call. The bytes that were read are kept, and the call may be made
    /// again.
    #[error("the device failed")]
    Device,
    /// The reader made as many reads as it may in its life, and keeps no whole message. It stays
    /// for good.
    #[error("too many reads")]
    TooManyReads,
}
