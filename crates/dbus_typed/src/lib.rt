//! Values seen in place, as values of Rust.
//!
//! [`body_as`] gives the values of a body as a tuple, if they have its types, and
//! [`FromValue::from_value`] one value. Texts and bytes are those of the message: nothing is
//! allocated.
#![tactic(auto)]

mod body;
mod bytes;
mod from_value;
mod from_values;
mod next;
mod numbers;
mod structs;
mod texts;
mod tuples;

pub use body::body_as;
pub use from_value::FromValue;
pub use from_values::FromValues;
pub use numbers::{Double, UnixFd};
pub use texts::{ObjectPath, Signature};
