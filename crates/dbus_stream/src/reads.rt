//! The number of reads that a reader makes.

/// The most reads that a reader makes in its life, if its caller names no number: 2^32.
pub const MOST_READS: u64 = 1 << 32;
