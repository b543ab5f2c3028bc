//! Types and signatures of the D-Bus wire format, and under the same name the kinds of text of
//! `dbus_texts`. D-Bus Specification, "Type System" and "Valid Signatures".
//!
//! [`parse_signature`] returns the types that a signature spells, as [`SigType`]s, and
//! [`signature_text`] writes them. With no type at hand, [`type_end`], [`boundary`] and
//! [`free_width`] say of a signature's bytes what the types there need.
#![tactic(auto)]

mod copy;
pub mod laws;
mod parse;
mod shape;
mod sig_type;
mod signature_codes;
mod spell;
mod type_codes;
mod type_lengths;

pub use dbus_texts::{
    NameFault, SigFault, TextKind, TextScan, check_bus_name, check_error_name, check_interface,
    check_member, check_path, check_signature, check_single, first_break, is_unique, text_break,
};
pub use parse::{parse_signature, parse_single, spelled_type, spelled_types};
pub use shape::{alignment, is_byte, text_left, type_ok};
pub use sig_type::SigType;
pub use signature_codes::{boundary, free_width, type_end};
pub use spell::{push_type, signature_text};
pub use type_codes::type_code;
pub use type_lengths::{lengths_in, note_lengths};
