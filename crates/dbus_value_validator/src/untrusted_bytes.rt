//! What values are validated in.
#![tactic(auto)]

use dbus_value_model::{Bounds, Order};

/// A message's bytes, and what holds of all values of one signature in them: what
/// [`one_value`](crate::one_value) goes over.
#[derive(Clone, Copy)]
pub struct UntrustedBytes<'a> {
    /// The bytes. They begin at the message's first byte, or at a multiple of 8 from it: padding
    /// counts from their first.
    pub bytes: &'a [u8],
    /// The byte order of the numbers in them.
    pub order: Order,
    /// What the values keep.
    pub bounds: Bounds,
    /// Of each place of the signature how many bytes the type has that begins there; of places
    /// after the last nothing is noted.
    pub lengths: &'a [u8],
}
