//! Messages of the D-Bus wire format: what they are, and, in `specs/`, the relation that spells
//! them in bytes. D-Bus Specification, "Message Format" and "Header Fields".
//!
//! A [`Message`] is valid by its invariant: it has [`Parts`], which are a type, flags, a serial,
//! header fields and a body. [`Message::path`] and its like give the known header fields; [`field`]
//! and [`arg`] look up any header field and a value of the body. The codes are in [`field_code`],
//! [`flag`] and [`message_type`]. It is made by `dbus_build` or by decoding;
//! `crates/examples/src/greet.rt` does both.
#![tactic(auto)]

mod byte_order;
pub mod field_code;
pub mod field_table;
pub mod flag;
mod header_field;
pub mod known_fields;
mod lookups;
mod message;
pub mod message_type;
mod named_fields;
mod parts;

pub use byte_order::{order_byte, order_named};
pub use header_field::HeaderField;
pub use lookups::{arg, field};
pub use message::Message;
pub use parts::Parts;
