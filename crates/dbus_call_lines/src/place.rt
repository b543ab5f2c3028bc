//! Where a message stands.

/// Which message of its input a message is, and when it was captured.
#[derive(Clone, Copy, Debug, PartialEq, Eq)]
pub struct Place {
    /// Its number, counted from 1.
    pub number: u64,
    /// When it was captured, in nanoseconds since 1970 began in UTC, if that is known.
    pub time: Option<u64>,
}
