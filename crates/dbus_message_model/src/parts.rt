//! What a message is made of.
#![tactic(auto)]

use crate::header_field::HeaderField;
use dbus_value_model::Value;
use std::alloc::{Allocator, Global};

/// What a message is made of, valid or not. D-Bus Specification, "Message Format".
#[derive(Debug, Drop)]
pub struct Parts<A: Allocator = Global> {
    /// The message type: 1 METHOD_CALL, 2 METHOD_RETURN, 3 ERROR, 4 SIGNAL. Types from 5 on are
    /// unknown and are kept.
    pub kind: u8,
    /// The flags: 1 NO_REPLY_EXPECTED, 2 NO_AUTO_START, 4 ALLOW_INTERACTIVE_AUTHORIZATION. Other
    /// bits are kept.
    pub flags: u8,
    /// The serial, which is not 0 in a message.
    pub serial: u32,
    /// The header's fields, in their order.
    pub fields: Vec<HeaderField<A>, A>,
    /// The body's values, in their order.
    pub body: Vec<Value<A>, A>,
}
