//! Messages.
#![tactic(auto)]

ghost use Rattle.std.specs.Prelude.{◌≡◌, length};
ghost use Rattle.dbus_value_model.specs.declared.order.Order.TheVariants.{Little};
ghost use Rattle.dbus_value_model.specs.Specification.{specification};
ghost use Rattle.dbus_message_model.specs.Messages.{message_bytes, IsValidMessage};
ghost use Rattle.dbus_message_model.specs.PackedParts.{PartsKeepBytes};
ghost use Rattle.dbus_message_model.specs.PartsViews.{parts_tree};

use crate::parts::Parts;
use std::alloc::{Allocator, Global};

/// A valid message within the limits: it has a spelling in both byte orders, of one length. Its
/// values have each array of BYTE as `Bytes`, so that what a message holds is known by its
/// spelling. D-Bus Specification, "Message Format".
#[derive(Debug, Drop)]
pub struct Message<A: Allocator = Global> {
    parts: Parts<A>,
    /// The number of bytes that spell it.
    size: usize,
    ghost valid: { ∥ IsValidMessage specification (parts_tree parts) ∥₁ },
    ghost packed: { PartsKeepBytes parts },
    ghost sized: { size ≡ length (message_bytes Little (parts_tree parts)) },
}

impl<A: Allocator> Message<A> {
    ghost use Rattle.std.specs.Prelude.{◌≤◌};
    ghost use Rattle.dbus_value_model.specs.declared.order.Order.{Order};
    ghost use Rattle.dbus_value_model.specs.declared.limits.TheConstants.{MESSAGE_LIMIT};
    ghost use Rattle.dbus_message_model.specs.MessageViews.{message_tree};

    /// The message of these parts, which the caller knows to be valid, and to be spelled by `size`
    /// bytes. Parts of which that is not known are validated by `Message::new` of `dbus_build`.
    pub fn of_valid(parts: Parts<A>, size: usize) -> Self
        requires valid { IsValidMessage specification (parts_tree parts) }
        requires packed { PartsKeepBytes parts }
        requires sized { size ≡ length (message_bytes Little (parts_tree parts)) }
        ensures { message_tree result ≡ parts_tree parts }
    {
        Message { parts, size }
    }

    /// The number of bytes that spell it, in either order.
    pub fn size(&self) -> usize
        ensures exact { (order : Order) →
            result ≡ length (message_bytes order (message_tree self.now)) }
        ensures within { result ≤ MESSAGE_LIMIT }
    {
        self.size
    }

    /// Its parts: type, flags, serial, header fields and body. An array of BYTE in it is `Bytes`.
    pub fn parts(&self) -> &Parts<A>
        ensures same { parts_tree result.now ≡ message_tree self.now }
        ensures valid { ∥ IsValidMessage specification (parts_tree result.now) ∥₁ }
        ensures packed { PartsKeepBytes result.now }
    {
        &self.parts
    }

    /// Its parts, which `Message::new` takes again. An array of BYTE in it is `Bytes`.
    pub fn into_parts(self) -> Parts<A>
        ensures same { parts_tree result ≡ message_tree self }
        ensures valid { ∥ IsValidMessage specification (parts_tree result) ∥₁ }
        ensures packed { PartsKeepBytes result }
    {
        self.parts
    }
}
