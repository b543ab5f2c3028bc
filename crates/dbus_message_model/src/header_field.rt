//! Fields of a message's header.
#![tactic(auto)]

use dbus_value_model::Value;
use std::alloc::{Allocator, Global};

/// A field of a message's header. D-Bus Specification, "Header Fields".
#[derive(Debug, Drop)]
pub struct HeaderField<A: Allocator = Global> {
    /// Which field it is: 1 PATH, 2 INTERFACE, 3 MEMBER, 4 ERROR_NAME, 5 REPLY_SERIAL, 6
    /// DESTINATION, 7 SENDER, 8 SIGNATURE, 9 UNIX_FDS. Codes from 10 on are unknown and are kept.
    pub code: u8,
    /// What it holds: the value within the field's variant.
    pub value: Value<A>,
}
