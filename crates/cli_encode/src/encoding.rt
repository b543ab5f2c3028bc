//! How lines are encoded.

use dbus_value_model::{Limits, Order};

/// How lines are encoded.
#[derive(Clone, Copy, PartialEq, Eq, Debug)]
pub struct Encoding {
    /// The limits that the messages keep.
    pub limits: Limits,
    /// The byte order of each message, if it is not the one that its line names.
    pub order: Option<Order>,
    /// Whether integers are safe: an INT64 or UINT64 beyond 2^53 - 1 has to be a string.
    pub safe_integers: bool,
    /// Whether a refused line is explained.
    pub explains: bool,
    /// Whether the lines after a refused one are read too.
    pub keeps_going: bool,
    /// The number of bytes that a line may have, its line feed not counted.
    pub most: usize,
}
