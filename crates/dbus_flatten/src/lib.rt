//! All values of a part of a message as one row of items in plain numbers, for callers that can
//! keep no borrow of the bytes. D-Bus Specification, "Marshaling (Wire Format)".
//!
//! [`flatten`] writes a [`FlatItem`] of each value that was validated, and of all its parts, in one
//! walk: all of them, or a piece of the row; [`flatten_parts`] those of header fields up to an end
//! and of values of the body. They allocate nothing.
#![tactic(auto)]

mod flat_item;
mod flats;
mod flattener;
mod flattening;
mod numbers;
mod parts;

pub use flat_item::FlatItem;
pub use flats::flatten;
pub use parts::{PartsCount, flatten_parts};
