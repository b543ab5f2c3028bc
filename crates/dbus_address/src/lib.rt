//! Server addresses of D-Bus as texts: read in place, and written. D-Bus Specification, "Server
//! Addresses".
//!
//! [`parse_addresses`] reads a text, as that of `DBUS_SESSION_BUS_ADDRESS`, and allocates nothing:
//! the addresses, their keys and the bytes of their values are read one by one from the text
//! itself. [`addresses_text`] writes one.
#![tactic(auto)]

mod bytes;
mod fault;
mod fault_text;
pub mod laws;
mod parse;
mod reading;
mod scan;
mod unsound;
mod writing;

pub use fault::{AddressFault, AddressReason, AddressTextFault};
pub use parse::{ADDRESS_LIMIT, parse_addresses};
pub use reading::{AddressView, Addresses, PairView, Pairs, ValueBytes};
pub use writing::{AddressParts, PairParts, addresses_text};
