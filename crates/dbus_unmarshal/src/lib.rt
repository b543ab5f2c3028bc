//! Values as trees: built of bytes that were validated, and read from any bytes, which are checked
//! first.
//!
//! One walk goes along validated bytes, and a value is made of each part where it is. Nothing is
//! validated again: the one error is that an allocation failed.
#![tactic(auto)]

mod building;
mod copying;
mod gathered;
mod getting;
mod numbers;
mod opening;
mod placing;
mod rooms;
mod texts;
mod type_text;
mod values;

pub use copying::{copy_value, copy_values};
pub use getting::{get, get_within};
pub use values::{build_typed, build_value, build_values};
