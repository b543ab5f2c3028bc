//! Where a message stands.

/// What a line of JSON says of where its message stands. It is written as it is given.
#[derive(Clone, Copy, Debug, PartialEq, Eq)]
pub struct LinePlace {
    /// The number of the message, counted from 1.
    pub number: u64,
    /// Where it begins, in bytes from the start of the input.
    pub offset: u64,
    /// When it was captured, in nanoseconds since 1970 began in UTC, if that is known.
    pub time: Option<u64>,
}
