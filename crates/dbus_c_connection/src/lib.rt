//! One side of a connection as C keeps it: what a call tells has no bytes in it, those to send are
//! kept until they are asked for, and a call that waits is a number. D-Bus Specification,
//! "Authentication Protocol" and "Message Protocol".
#![tactic(auto)]

mod kept_connection;
mod kept_step;

pub use kept_connection::{KeptConnection, MOST_DESCRIPTORS, NoCall};
pub use kept_step::{KeptStep, What};
