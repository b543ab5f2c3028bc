//! Texts, names and signatures of the D-Bus wire format: which bytes are of each kind, and where
//! others break. D-Bus Specification, "Valid Object Paths", "Valid Names" and "Valid Signatures".
//!
//! [`check_path`], [`check_bus_name`], [`check_signature`] and their like say whether a text is of
//! a kind, or at which place it breaks. [`TextScan`] does the same of a text that comes in pieces.
//! None allocates. `dbus_rule` reads the values of rules by them.
#![tactic(auto)]

mod ascii;
mod byte_scan;
mod check;
pub mod laws;
mod name_blocks;
mod names;
mod scan;
mod signature;
mod text_kind;
mod type_codes;
mod utf8;
mod whole_names;

pub use check::{
    NameFault, SigFault, check_bus_name, check_error_name, check_interface, check_member,
    check_path, check_signature, check_single, first_break, is_unique, text_break,
};
pub use scan::TextScan;
pub use text_kind::TextKind;
pub use whole_names::is_name_at_once;
