//! Values of the D-Bus wire format: what they are, which of them are well formed, and, in `specs/`,
//! the relation that spells them in bytes. D-Bus Specification, "Type System" and "Marshaling (Wire
//! Format)".
//!
//! A [`Value`] is a tree of any of the types. [`check_value`] asks whether it is well formed,
//! [`type_of`] returns its type, and [`copy`] an equal one. Here too are what all crates above
//! speak of: [`Limits`], the byte [`Order`], and the [`Fault`]s with their [`Reason`]s. Callers use
//! the crate `dbus_value`. `crates/examples/src/methods.rt` makes values.
#![tactic(auto)]

pub mod check_laws;
mod checking;
mod copying;
mod fault;
mod fault_text;
mod fd_indexes;
mod fd_rule;
mod got;
mod limits;
mod order;
mod padding;
mod ranges;
mod same_types;
mod stop;
mod text_value;
mod typed;
mod typing;
mod value;
mod value_fault;
mod verdict;

pub use checking::{check_nested, check_value, check_value_within};
pub use copying::copy;
pub use fault::{Fault, Reason, Refusal};
pub use fd_indexes::first_past;
pub use fd_rule::FdRule;
pub use got::Got;
pub use limits::{ARRAY_LIMIT, Bounds, DEPTH_LIMIT, Limits, MESSAGE_LIMIT};
pub use order::Order;
pub use padding::{gap, padding_length};
pub use ranges::basic_in_range;
pub use stop::{Stop, refuse};
pub use text_value::StringFault;
pub use typing::{plain_type_of, type_of};
pub use value::{DictEntry, Value};
pub use value_fault::ValueFault;
pub use verdict::Verdict;
