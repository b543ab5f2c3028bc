//! What texts are made of, and the text of a message, a line for the header and one for each value
//! of the body, as a definition.
//!
//! Texts are written to a [`Draft`]: a string ([`StringDraft`]) or the output. [`Escapes`] says how
//! a text is escaped; in a [`Visible`] draft each hidden character is. The text of a message is a
//! function of the message, which `specs/` states; `dbus_show_view` writes it. `dbus-wire show`
//! prints it, and its manual page describes it. The names of the parts are those of the D-Bus
//! Specification, "Message Format" and "Header Fields".
#![tactic(auto)]

mod copying;
mod draft;
mod escapes;
mod fields;
mod hexadecimal;
pub mod laws;
mod numbers;
mod quoted;
mod runs;
mod show;
mod string_draft;
mod visible;

pub use copying::copy_bytes;
pub use draft::Draft;
pub use escapes::{Escapes, is_hidden};
pub use fields::write_field_name;
pub use hexadecimal::write_hex;
pub use numbers::write_integer;
pub use quoted::{write_escaped, write_quoted, write_quoted_by};
pub use show::{write_front, write_kind, write_start};
pub use string_draft::StringDraft;
pub use visible::Visible;
