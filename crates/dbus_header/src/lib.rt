//! What the bytes of a message of the D-Bus wire format read as: its fixed header, the length that
//! this states, and the laws of what bytes begin with. D-Bus Specification, "Message Format".
//!
//! [`stated_length`] returns the length of a message, from its first 16, so that a caller knows how
//! many to read; `crates/examples/src/values.rt` uses it. [`read_fixed_header`] is for the crates
//! above, which read the rest.
#![tactic(auto)]

mod field_limits;
mod fixed_header;
mod opening;
mod stated;

pub use field_limits::{FIELD_DEPTH, NAME_LIMIT};
pub use fixed_header::{FixedHeader, read_fixed_header};
pub use stated::{FIXED_HEADER_LENGTH, stated_length, stated_length_within};
