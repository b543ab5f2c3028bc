//! The byte that names the byte order of a message. D-Bus Specification, "Message Format".
#![tactic(auto)]

ghost use Rattle.std.specs.Prelude.{◌≡◌, ◌<◌, MatchOption};
ghost use Rattle.dbus_value_model.specs.declared.order.Order.{Order};
ghost use Rattle.dbus_message_model.specs.Messages.{order_byte};

use dbus_value_model::Order;

/// The byte that a message of this order begins with, which is ASCII: `l` or `B`. D-Bus
/// Specification, "Message Format".
pub fn order_byte(order: Order) -> u8
    ensures named { result ≡ order_byte order }
    ensures ascii { result < 128 }
{
    match order {
        Order::Little => b'l',
        Order::Big => b'B',
    }
}

/// The order of a message that begins with this byte; None if it is neither `l` nor `B`. The byte
/// is a number of the width that it has in structures for C. D-Bus Specification, "Message Format".
pub fn order_named(byte: u32) -> Option<Order>
    ensures { MatchOption result
        ((order : Order) → byte ≡ order_byte order → ⊥)
        (λ order. byte ≡ order_byte order) }
{
    match byte {
        108 => Some(Order::Little),
        66 => Some(Order::Big),
        _ => None,
    }
}
