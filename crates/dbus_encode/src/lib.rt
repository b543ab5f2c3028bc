//! Messages of the D-Bus wire format encoded. D-Bus Specification, "Message Protocol".
//!
//! [`encode`] returns a message's bytes in either byte order, and [`encode_into`] puts them into a
//! vector that is used again. An example is at [`encode`].
#![tactic(auto)]

mod encoding;

pub use encoding::{encode, encode_into};
