//! Messages checked as their bytes come: in pieces of any length, in fixed room, without
//! allocating. D-Bus Specification, "Message Protocol".
//!
//! [`Checker::take`] returns after each piece what decoding all bytes so far would: that a message
//! ends, that they are refused and why, or that more are wanted. An example is there.
#![tactic(auto)]

mod check;
mod checker;
mod fault;
mod field_fronts;
mod field_stage;
mod field_values;
mod pieces;
mod progress;
mod running;
mod seen;
mod value_stages;

pub use check::Check;
pub use checker::Checker;
pub use fault::{fault_at_end, fault_of};
