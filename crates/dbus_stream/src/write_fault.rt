//! Why a message is not written.
use thiserror::Error;

/// Why a message is not written.
#[derive(Clone, Copy, Debug, PartialEq, Eq, Error)]
pub enum WriteFault {
    /// An allocation failed. Nothing was written.
    #[error("allocation failed")]
    Memory,
    /// A write failed, or took none of its bytes. The first `written` bytes of the message went
    /// out.
    #[error("the device failed after {written} bytes")]
    Device {
        /// The number of bytes of the message that went out.
        written: usize,
    },
}
