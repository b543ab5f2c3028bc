//! What C keeps from call to call: a handle of a checker of messages, of match rules, of an end of a
//! handshake or of a side of a connection, in a block of the heap.
//!
//! A further thing to keep is a further variant of [`Kept`]: the handle itself stays as it is.
//! D-Bus Specification, "Message Protocol" and "Match Rules".
#![tactic(auto)]

mod checkers;
mod connections;
mod handle;
mod handshakes;
mod kept;
mod rules;

pub use handle::WireHandle;
pub use kept::{Kept, KeptRules};
