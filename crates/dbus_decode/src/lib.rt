//! Messages decoded: their bytes are validated, and then the message is built from them. D-Bus
//! Specification, "Message Protocol".
//!
//! [`decode`] returns whether bytes begin with a message, are refused, or are too few, with the
//! message or the fault. [`decode_within`] does so under limits of the caller. [`decode_known`]
//! builds a message that was checked before. An example is at [`decode`].
#![tactic(auto)]

mod answer;
mod building;
mod decoding;

pub use answer::Answer;
pub use building::build_message;
pub use decoding::{decode, decode_known, decode_within};
