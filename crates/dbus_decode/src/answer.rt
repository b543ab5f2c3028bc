//! What decoding returns.
#![tactic(auto)]

use dbus_message_model::Message;
use dbus_value_model::Order;
use std::alloc::{Allocator, Global};

/// A message, or the need for more bytes: what bytes give that are not refused.
#[derive(Debug, Drop)]
pub enum Answer<A: Allocator = Global> {
    /// The bytes begin with a message.
    Whole {
        /// The byte order of its numbers.
        order: Order,
        /// The message.
        message: Message<A>,
        /// The number of bytes that it has. Those after it were not looked at.
        used: usize,
    },
    /// Neither a message nor a fault: more bytes are wanted.
    Partial,
}
