//! Looking up a message's fields and values.
#![tactic(auto)]

ghost use Rattle.std.specs.Prelude.{◌≡◌, Some, None, IsTrue, IfSome, MatchOption};
ghost use Rattle.dbus_value_model.specs.PackedBytes.{keeps_bytes};
ghost use Rattle.dbus_value_model.specs.ValueViews.{value_tree};
ghost use Rattle.dbus_message_model.specs.KnownFields.{field_value, body_value};
ghost use Rattle.dbus_message_model.specs.MessageViews.{message_tree};

use crate::message::Message;
use dbus_value_model::Value;
use std::alloc::Allocator;

/// The value of the message's first header field of a code, if it has one. An array of BYTE in it
/// is `Bytes`. D-Bus Specification, "Header Fields".
pub fn field<A: Allocator>(message: &Message<A>, code: u8) -> Option<&Value<A>>
    ensures first { MatchOption result (field_value code (message_tree message.now).fields ≡
        None) (λ v. field_value code (message_tree message.now).fields ≡ Some (value_tree v.now)) }
    ensures packed { IfSome result (λ v. IsTrue (keeps_bytes v.now)) }
{
    for field in &message.parts().fields {
        if field.code == code {
            return Some(&field.value);
        }
    }
    None
}

/// The body's value of a number, counted from 0, if there is one. An array of BYTE in it is
/// `Bytes`. D-Bus Specification, "Message Format".
pub fn arg<A: Allocator>(message: &Message<A>, n: usize) -> Option<&Value<A>>
    ensures numbered { MatchOption result (body_value n (message_tree message.now).body ≡
        None) (λ v. body_value n (message_tree message.now).body ≡ Some (value_tree v.now)) }
    ensures packed { IfSome result (λ v. IsTrue (keeps_bytes v.now)) }
{
    message.parts().body.get(n)
}
