//! Messages from JSON. RFC 8259, section 4; D-Bus Specification, "Message Format" and "Header
//! Fields".
#![tactic(auto)]

ghost use Rattle.std.specs.Prelude.{◌≡◌, ℕ, List, Err, IsTrue, IfOk, codes};
ghost use Rattle.json.specs.Find.{get};
ghost use Rattle.json.specs.Value.{value_view};
ghost use Rattle.dbus_texts.specs.Kinds.{IsKind};
ghost use Rattle.dbus_texts.specs.declared.text_kind.TextKind.TheVariants.{Signature};
ghost use Rattle.dbus_value_model.specs.PackedBytes.{keep_bytes};
ghost use Rattle.dbus_value_model.specs.Values.{ValueTrees};
ghost use Rattle.dbus_value_model.specs.ValueViews.{value_trees_of};
ghost use Rattle.dbus_value_model.specs.declared.order.Order.{Order as TheOrder};
ghost use Rattle.dbus_message_model.specs.Messages.{MessageTree, body_signature as signature_of};
ghost use Rattle.dbus_message_model.specs.MessageViews.{message_tree};
ghost use Rattle.dbus_message_model.specs.PartsViews.{field_trees};
ghost use Rattle.dbus_json_reader.specs.JsonMessages.{IsReadMessage};
ghost use Rattle.dbus_json_reader.specs.JsonFaults.{IsOneOf};
ghost use Rattle.dbus_json_reader.specs.JsonParts.{IsReadBody};
ghost use Rattle.dbus_json_reader.specs.JsonRules.{IsMessageFault};
ghost use Rattle.dbus_json_reader.specs.declared.unread.Broken.{Broken as TheBroken};

use crate::blame::{before_value, no_message};
use crate::head::read_head;
use crate::known::read_known_fields;
use crate::names::{Names, strange_member};
use crate::others::with_others;
use crate::reasons::JsonReason;
use crate::unread::Unread;
use crate::values::read_values;
use dbus_build::Build;
use dbus_json::Integers;
use dbus_message_model::known_fields::body_signature;
use dbus_message_model::{HeaderField, Message, Parts};
use dbus_types::{SigFault, parse_signature};
use dbus_value_model::{Limits, Order, Value};
use json::Value as Json;
use std::alloc::Allocator;

/// How many containers stand around the value of a header field.
const AROUND_FIELD: u8 = 3;

/// The values of the body, of the types that the SIGNATURE field spells. There are none if it is
/// left out.
fn read_body<A: Allocator + Copy>(
    alloc: A,
    fields: &[HeaderField<A>],
    json: &Json<'_, A>,
    depth: u8,
    integers: Integers,
) -> Result<Vec<Value<A>, A>, Unread>
    ensures ok { IfOk result (λ body. IsReadBody integers depth (signature_of (field_trees fields.now))
        (get (codes "body") (value_view json.now)) (value_trees_of body.items)) }
    ensures packed { IfOk result (λ body. IsTrue (keep_bytes body.items)) }
    ensures refused { (broken : TheBroken) → result ≡ Err (Unread.Unspelled broken) →
        IsKind Signature (signature_of (field_trees fields.now)) → (xs : ValueTrees) →
        IsReadBody integers depth (signature_of (field_trees fields.now))
        (get (codes "body") (value_view json.now)) xs → ⊥ }
{
    let types = match parse_signature(alloc, body_signature(fields)) {
        Ok(types) => types,
        Err(SigFault::Memory) => return Err(Unread::Memory),
        Err(_) => return Err(Unread::here(JsonReason::Signature)),
    };
    let Some(told) = json.get("body") else {
        if !types.is_empty() {
            return Err(Unread::here(JsonReason::BodyMissing));
        }
        return Ok(Vec::new(alloc));
    };
    match read_values(alloc, &types, told, depth, integers) {
        Ok(body) => Ok(body),
        Err(why) => Err(why.after(before_value(json, "body"))),
    }
}

/// The message that JSON spells, within the limits, and the byte order that it names.
///
/// It is an object. The members `order`, `type`, `flags` and `serial` are what a message begins
/// with; each known header field is the member of its name, and the known fields have the order of
/// their members; `fields` is an array of the others, each an object of `code`, `type` and `value`,
/// and of `place`, its place among all fields counted from 0, if a known one stands after it;
/// `body` is an array of the body's values. Only `type` has to be there: the order is then the
/// little-endian one, the flags are 0, the serial is `number`, and there are no such fields or
/// values. The members `number`, `offset`, `length` and `time` may hold anything. No other name
/// may be there, and none twice. An INT64 or UINT64 is a number or a string as [`Integers`] has it.
///
/// `Unspelled` exactly if it spells no valid message: for `Form` if it is no object; else for the
/// first member whose name may not be there, at that name; else for the first of `order`, `type`,
/// `flags` and `serial` that is not as it has to be, at its value, or at the object if there is no
/// `type`; else for the first known header field that is not, at its value; else for a rule that
/// comes after these. `Memory` if an allocation failed. RFC 8259; D-Bus Specification, "Message
/// Format" and "Header Fields".
pub fn read_message<A: Allocator + Copy>(
    alloc: A,
    json: &Json<'_, A>,
    limits: Limits,
    number: u32,
    integers: Integers,
) -> Result<(Order, Message<A>), Unread>
    ensures ok { IfOk result (λ r.
        IsReadMessage integers limits number r.0 (message_tree r.1) (value_view json.now)) }
    ensures refused { (broken : TheBroken) → result ≡ Err (Unread.Unspelled broken) → (order : TheOrder) (m : MessageTree) →
        IsReadMessage integers limits number order m (value_view json.now) → ⊥ }
    ensures shown { (broken : TheBroken) → result ≡ Err (Unread.Unspelled broken) →
        IsOneOf (IsMessageFault (value_view json.now)) (Unread.Unspelled broken) }
{
    let Json::Object(members) = json else {
        return Err(Unread::here(JsonReason::Form));
    };
    let members = members.as_slice();
    if let Some(why) = strange_member(members, Names::Message) {
        return Err(why);
    }
    let head = match read_head(json, number) {
        Ok(head) => head,
        Err(why) => return Err(why),
    };
    let known = read_known_fields(alloc, members)?;
    let depth = limits.depth.saturating_sub(AROUND_FIELD);
    let fields = match with_others(alloc, known, json, depth, integers) {
        Ok(fields) => fields,
        Err(why) => return Err(why.after(before_value(json, "fields"))),
    };
    let body = read_body(alloc, &fields, json, limits.depth, integers)?;
    let parts = Parts {
        kind: head.kind,
        flags: head.flags,
        serial: head.serial,
        fields,
        body,
    };
    match Message::new_within(alloc, parts, limits) {
        Ok(message) => Ok((head.order, message)),
        Err(refused) => Err(no_message(json, refused.1)),
    }
}
