//! The values of a body spelled one after another into bytes, with no tree of them. D-Bus
//! Specification, "Marshaling (Wire Format)".
//!
//! [`put_number`], [`put_text`] and [`put_signature`] append a basic value, in the byte order that
//! is named. Call [`open_array`] before the elements of an array and [`close_array`] after them,
//! [`begin_struct`] before the fields of a struct or dict entry, and [`put_signature`] before the
//! value in a variant. The bytes begin at a multiple of 8, as a body does, so their length is the
//! offset.
//!
//! The caller sees to what is within what: the calls do not compare it with a signature. Validate
//! what is spelled, or build a message of it by `dbus_c_build::build`, which does. The laws say
//! what each row of calls spells.
#![tactic(auto)]

mod arrays;
pub mod laws;
mod put_fault;
mod putting;
pub mod room;

pub use arrays::{OpenArray, close_array, open_array};
pub use put_fault::PutFault;
pub use putting::{begin_struct, put_number, put_signature, put_text};
