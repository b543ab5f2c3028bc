//! Values validated fast: whether bytes spell values of given types, and where these end.
//!
//! A yes says that they do, and a no that they do not: the bytes are at fault, or they are too few.
//! Who wants to know which, and the place and the reason of a fault, asks a reader or a checker. So
//! nothing is noted on the way, nothing is allocated, and a signature's bytes are followed in
//! place.
#![tactic(auto)]

mod arrays;
mod basic;
mod brackets;
mod ends;
mod items;
mod numbers;
mod plain;
mod texts;
mod untrusted_bytes;
mod validating;
mod values;

pub use items::{is_ended_text, padding, word};
pub use numbers::booleans_end;
pub use texts::short_text;
pub use untrusted_bytes::UntrustedBytes;
pub use validating::{validate_value, validate_values};
pub use values::one_value;
