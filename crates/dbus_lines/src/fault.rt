//! Why no line was read.
#![tactic(auto)]

use thiserror::Error;

/// Why no line was read. The bytes that were read are kept, and the call may be made again.
#[derive(Clone, Copy, Debug, PartialEq, Eq, Error)]
pub enum NoLine {
    /// An allocation failed.
    #[error("allocation failed")]
    Memory,
    /// A read failed.
    #[error("the device failed")]
    Device,
    /// The reader made as many reads as it may in its life, and no whole line is kept.
    #[error("too many reads")]
    TooManyReads,
}
