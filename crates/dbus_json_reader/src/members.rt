//! The members of a line that are no header fields. RFC 8259, sections 6 and 7; D-Bus
//! Specification, "Message Format".
#![tactic(auto)]

ghost use Rattle.std.specs.Prelude.{◌≡◌, ◌<◌, ◌↔◌, ℕ, ◌∷◌, [], None, Some, IfSome, IsTrue};
ghost use Rattle.json.specs.Json.{string};
ghost use Rattle.json.specs.Value.{value_view};
ghost use Rattle.dbus_value_model.specs.declared.order.Order.{Order as TheOrder};
ghost use Rattle.dbus_message_model.specs.MessageTypes.{type_name};
ghost use Rattle.dbus_message_model.specs.Messages.{order_byte};
ghost use Rattle.dbus_json_reader.specs.JsonMembers.{SpellsKind};

use crate::numbers::unsigned;
use dbus_message_model::message_type::{METHOD_CALL, SIGNAL, type_name};
use dbus_message_model::order_named;
use dbus_value_model::Order;
use json::Value;
use std::alloc::Allocator;

/// The order that a value names, as a string of the byte that a message of it begins with: `l` or
/// `B`. It is `None` of any other value. D-Bus Specification, "Message Format".
pub fn order<A: Allocator>(json: &Value<'_, A>) -> Option<Order>
    ensures some { IfSome result (λ order. value_view json.now ≡ string (order_byte order ∷ [])) }
    ensures none { result ≡ None → (order : TheOrder) →
        value_view json.now ≡ string (order_byte order ∷ []) → ⊥ }
{
    let Value::String(text) = json else {
        return None;
    };
    let bytes = text.as_bytes();
    if bytes.len() != 1 {
        return None;
    }
    order_named(u32::from(bytes[0]))
}

/// Whether the message type is the one of this name.
fn is_named(kind: u8, name: &str) -> bool
    ensures { IsTrue result ↔ (type_name kind ≡ Some name.now) }
{
    match type_name(kind) {
        Some(text) => text == name,
        None => false,
    }
}

/// The message type of this name.
fn kind_named(name: &str) -> Option<u8>
    ensures some { IfSome result (λ kind. type_name kind ≡ Some name.now) }
    ensures none { result ≡ None → (kind : ℕ) → type_name kind ≡ Some name.now → ⊥ }
{
    for kind in METHOD_CALL..SIGNAL + 1 {
        if is_named(kind, name) {
            return Some(kind);
        }
    }
    None
}

/// The message type that a value names, by its name or as a number of 8 bits, which may be 0. It is
/// `None` of any other value. D-Bus Specification, "Message Format".
pub fn kind<A: Allocator>(json: &Value<'_, A>) -> Option<u8>
    ensures some { IfSome result (λ kind. SpellsKind kind (value_view json.now)) }
    ensures none { result ≡ None → (kind : ℕ) → kind < 256 →
        SpellsKind kind (value_view json.now) → ⊥ }
{
    match json {
        Value::String(name) => kind_named(name),
        _ => Some(unsigned(json, u64::from(u8::MAX))? as u8),
    }
}
