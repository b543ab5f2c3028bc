//! Messages of the D-Bus wire format: what they are, and how they are encoded and decoded. D-Bus
//! Specification, "Message Protocol".
//!
//! * [`decode`] reads a [`Message`] from bytes, and [`encode`] writes one in either byte order.
//! * [`MessageView::of`] gives the parts of a message in its bytes, and allocates nothing.
//! * [`Checker::take`] checks a message whose bytes come in pieces, and [`stated_length`] returns
//!   its length.
//! * [`Compose::call`] and its like, called as `Message::call`, make a message in a line;
//!   [`Build::new`], called as `Message::new`, makes one of its [`Parts`].
//!
//! These calls have examples; `crates/examples` has whole programs. `make api` lists all calls.
//!
//! It is one name for ten crates: the messages and the relation that spells them
//! (`dbus_message_model`), how they are made of their parts (`dbus_build`) and in a line
//! (`dbus_compose`), decoding (`dbus_decode`), the length that a header states (`dbus_header`),
//! encoding (`dbus_encode`), checking in pieces (`dbus_check`), views that borrow a message's bytes
//! (`dbus_view`), and the values that are seen in them one by one (`dbus_values`), or copied from
//! them (`dbus_unmarshal`); and the laws that join them.
#![tactic(auto)]

pub mod laws;

pub use dbus_build::{Build, BuildFault, Within};
pub use dbus_check::{Check, Checker};
pub use dbus_compose::{Compose, MessageBuilder};
pub use dbus_decode::{Answer, decode, decode_known, decode_within};
pub use dbus_encode::{encode, encode_into};
pub use dbus_header::{FIXED_HEADER_LENGTH, stated_length, stated_length_within};
pub use dbus_message_model::{
    HeaderField, Message, Parts, arg, field, field_code, flag, message_type,
};
pub use dbus_unmarshal::{copy_value, copy_values};
pub use dbus_values::{Elements, ValueView, Values};
pub use dbus_view::{ArgPlace, ArgView, FieldView, Fields, MessageView};
