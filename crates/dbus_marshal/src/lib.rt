//! Values of the D-Bus wire format written as bytes, and where they end. D-Bus Specification,
//! "Marshaling (Wire Format)".
//!
//! [`put`] appends a value's bytes to a vector, in either byte order, and [`size_after`] returns
//! where they end without writing them. The other calls are for `dbus_build` and `dbus_encode`.
//! Callers use the crate `dbus_value`.
#![tactic(auto)]

mod marshalling;
pub mod measure_laws;
mod measures;
mod signatures;
pub mod size_laws;
mod sizes;
pub mod writing;

pub use marshalling::{put, put_within, write_value, write_values};
pub use measures::{measure, measure_all, measure_header_field};
pub use signatures::{signature_length, write_type_of, write_variant_signature};
pub use sizes::{size_after, size_after_within};
