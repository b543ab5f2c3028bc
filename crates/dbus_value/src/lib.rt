//! Values of the D-Bus wire format: what they are, which of them are well formed, and how they are
//! written and read. D-Bus Specification, "Type System" and "Marshaling (Wire Format)".
//!
//! A [`Value`] is a tree of any of the types. [`put`] appends its bytes to a vector, [`get`] reads
//! one of a given type, and [`check_value`] asks whether one is well formed. [`Limits`] are what
//! calls with `_within` in their names keep. The values of a message come with it:
//! `crates/examples/src/methods.rt` makes and reads some.
//!
//! It is one name for four crates: the values and the relation that spells them
//! (`dbus_value_model`), writing (`dbus_marshal`), reading (`dbus_unmarshal`) and the laws over
//! what bytes spell (`dbus_value_laws`); and the law that joins writing and reading.
#![tactic(auto)]

pub mod round_trip_laws;

pub use dbus_marshal::{measure_laws, put, put_within, size_after, size_after_within, size_laws};
pub use dbus_unmarshal::{get, get_within};
pub use dbus_value_laws::laws;
pub use dbus_value_model::{
    ARRAY_LIMIT, DEPTH_LIMIT, DictEntry, Fault, FdRule, Got, Limits, MESSAGE_LIMIT, Order, Reason,
    Refusal, StringFault, Value, ValueFault, check_laws, check_value, check_value_within, copy,
    plain_type_of, type_of,
};
