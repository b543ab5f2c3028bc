//! What a message's JSON has before its header fields. RFC 8259, section 4; D-Bus Specification,
//! "Message Format".
#![tactic(auto)]

ghost use Rattle.std.specs.Prelude.{◌≡◌, ◌<◌, ◌≤◌, ◌^◌, ℕ, None, Some, IsTrue, IfOk, IfErr, codes};
ghost use Rattle.json.specs.Find.{get};
ghost use Rattle.json.specs.Json.{Json as JsonTree};
ghost use Rattle.json.specs.Value.{value_view};
ghost use Rattle.dbus_value_model.specs.declared.order.Order.{Order as TheOrder};
ghost use Rattle.dbus_json_reader.specs.JsonMessages.{SpellsOrder, SpellsOr};
ghost use Rattle.dbus_json_reader.specs.JsonMembers.{SpellsKind};
ghost use Rattle.dbus_json_reader.specs.JsonParts.{IsHead};
ghost use Rattle.dbus_json_reader.specs.JsonFaults.{IsOneOf, IsShown};
ghost use Rattle.dbus_json_reader.specs.JsonReasons.{is_of_json};
ghost use Rattle.dbus_json_reader.specs.JsonRules.{IsHeadFault, ValueShows, kind_reason, order_reason, unsigned_reason};

use crate::blame::{at_value, no_kind, no_order, no_unsigned};
use crate::members::{kind, order};
use crate::numbers::unsigned;
use crate::reasons::JsonReason;
use crate::unread::Unread;
use dbus_value_model::Order;
use json::Value;
use std::alloc::Allocator;

/// What a message has before its header fields.
#[derive(Clone, Copy)]
pub(crate) struct Head {
    /// The byte order.
    pub(crate) order: Order,
    /// The message type, which may be 0.
    pub(crate) kind: u8,
    /// The flags.
    pub(crate) flags: u8,
    /// The serial, which may be 0.
    pub(crate) serial: u32,
}

/// The number that the member of a name is, if it is at most `most`; `default` if there is no such
/// member. `past` is the reason if it is an integer and more.
pub(crate) fn unsigned_or<A: Allocator>(
    json: &Value<'_, A>,
    name: &str,
    default: u64,
    most: u64,
    past: JsonReason,
) -> Result<u64, Unread>
    requires few { default ≤ most }
    requires reason { IsTrue (is_of_json past) }
    ensures ok { IfOk result (λ n.
        (n ≤ most) × SpellsOr default n (get name.now (value_view json.now))) }
    ensures refused { IfErr result (λ _. (n : ℕ) → n ≤ most →
        SpellsOr default n (get name.now (value_view json.now)) → ⊥) }
    ensures shown { IfErr result (IsOneOf
        (ValueShows name.now (unsigned_reason past) (value_view json.now))) }
{
    let Some(value) = json.get(name) else {
        return Ok(default);
    };
    match unsigned(value, most) {
        Some(number) => Ok(number),
        None => Err(at_value(json, name, no_unsigned(value, past))),
    }
}

/// The order that the member `order` names, or the little-endian one if there is no such member.
fn order_or_little<A: Allocator>(json: &Value<'_, A>) -> Result<Order, Unread>
    ensures ok { IfOk result (λ order.
        SpellsOrder order (get (codes "order") (value_view json.now))) }
    ensures refused { IfErr result (λ _. (order : TheOrder) →
        SpellsOrder order (get (codes "order") (value_view json.now)) → ⊥) }
    ensures shown { IfErr result (IsOneOf
        (ValueShows (codes "order") order_reason (value_view json.now))) }
{
    let Some(value) = json.get("order") else {
        return Ok(Order::Little);
    };
    match order(value) {
        Some(order) => Ok(order),
        None => Err(at_value(json, "order", no_order(value))),
    }
}

/// The message type that the member `type` names.
fn kind_told<A: Allocator>(json: &Value<'_, A>) -> Result<u8, Unread>
    ensures ok { IfOk result (λ kind. (type : JsonTree) ×
        (get (codes "type") (value_view json.now) ≡ Some type) × SpellsKind kind type) }
    ensures refused { IfErr result (λ _. (kind : ℕ) → kind < 256 → (type : JsonTree) →
        get (codes "type") (value_view json.now) ≡ Some type → SpellsKind kind type → ⊥) }
    ensures missing { get (codes "type") (value_view json.now) ≡ None →
        IfErr result (λ why. IsShown why JsonReason.TypeMissing 0) }
    ensures shown { IfErr result (λ why. (type : JsonTree) →
        get (codes "type") (value_view json.now) ≡ Some type →
        IsOneOf (ValueShows (codes "type") kind_reason (value_view json.now)) why) }
{
    let Some(value) = json.get("type") else {
        return Err(Unread::here(JsonReason::TypeMissing));
    };
    match kind(value) {
        Some(kind) => Ok(kind),
        None => Err(at_value(json, "type", no_kind(value))),
    }
}

/// What a message has before its header fields, with the serial `number` if none is told.
pub(crate) fn read_head<A: Allocator>(json: &Value<'_, A>, number: u32) -> Result<Head, Unread>
    ensures ok { IfOk result (λ head.
        IsHead number head.order head.kind head.flags head.serial (value_view json.now)) }
    ensures refused { IfErr result (λ _. (order : TheOrder) (kind flags serial : ℕ) → kind < 256 →
        flags < 256 → serial < 256 ^ 4 →
        IsHead number order kind flags serial (value_view json.now) → ⊥) }
    ensures shown { IfErr result (IsOneOf (IsHeadFault (value_view json.now))) }
{
    let range = JsonReason::Range;
    let order = order_or_little(json)?;
    let kind = kind_told(json)?;
    let flags = unsigned_or(json, "flags", 0, u64::from(u8::MAX), range)? as u8;
    let serial = unsigned_or(
        json,
        "serial",
        u64::from(number),
        u64::from(u32::MAX),
        range,
    )? as u32;
    Ok(Head {
        order,
        kind,
        flags,
        serial,
    })
}
