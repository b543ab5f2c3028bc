//! Why JSON spells no value and no message, and which token shows it: what a refused line alone has
//! to pay for. RFC 8259; D-Bus Specification, "Type System", "Message Format" and "Header Fields".
#![tactic(auto)]

ghost use Rattle.std.specs.Prelude.{◌≡◌, ℕ, Some, IsTrue};
ghost use Rattle.json.specs.Find.{get};
ghost use Rattle.json.specs.Json.{Json as JsonTree};
ghost use Rattle.json.specs.Value.{value_view};
ghost use Rattle.dbus_json_reader.specs.JsonFaults.{IsShown, counted};
ghost use Rattle.dbus_json_reader.specs.JsonReasons.{is_of_json};
ghost use Rattle.dbus_json_reader.specs.JsonRules.{IsToldAt, has_fraction, integer_reason, kind_reason, order_reason, string_reason, text_reason, unsigned_reason};

use crate::integers::{signed_in, unsigned_in};
use crate::names::{Names, named, strange_member};
use crate::numbers::unsigned;
use crate::reasons::JsonReason;
use crate::tokens::{tokens_in_items, tokens_in_members};
use crate::unread::Unread;
use dbus_build::BuildFault;
use dbus_types::{SigType, TextKind};
use json::Value as Json;
use std::alloc::Allocator;

// ---- numbers and texts

/// Whether the text of a number has a point or an exponent.
fn has_fraction(text: &[u8]) -> bool
    ensures { result ≡ has_fraction text.now }
{
    text.iter()
        .any(|byte| *byte == b'.' || *byte == b'e' || *byte == b'E')
}

/// Why the text of a number is none of an integer's type; `past` if it is an integer.
fn no_integer(text: &str, past: JsonReason) -> JsonReason
    requires { IsTrue (is_of_json past) }
    ensures of_json { IsTrue (is_of_json result) }
    ensures reason { result ≡ integer_reason past text.now }
{
    if text == "-0" || has_fraction(text.as_bytes()) {
        return JsonReason::NotInteger;
    }
    past
}

/// Why the text of a number is no integer of a type of 64 bits that is taken. One of the type is
/// not taken only if it may be no number.
fn no_wide<A: Allocator>(ty: &SigType<A>, text: &str) -> JsonReason
    ensures { IsTrue (is_of_json result) }
{
    let is_integer = match ty {
        SigType::I64 => signed_in(text.as_bytes()).is_some(),
        _ => unsigned_in(text.as_bytes()).is_some(),
    };
    if is_integer {
        JsonReason::MayBeRounded
    } else {
        no_integer(text, JsonReason::Range)
    }
}

/// Whether a text is a number other than 0 in decimal, with no sign but a minus.
fn is_decimal(text: &[u8]) -> bool {
    let digits = if text.is_empty() || text[0] != b'-' {
        text
    } else {
        &text[1..]
    };
    !digits.is_empty() && digits[0] != b'0' && digits.iter().all(|byte| byte.is_ascii_digit())
}

/// Why a value is no unsigned number that is wanted; `past` if it is an integer.
pub(crate) fn no_unsigned<A: Allocator>(json: &Json<'_, A>, past: JsonReason) -> JsonReason
    requires { IsTrue (is_of_json past) }
    ensures of_json { IsTrue (is_of_json result) }
    ensures reason { result ≡ unsigned_reason past (value_view json.now) }
{
    match json {
        Json::Number(text) => no_integer(text, past),
        _ => JsonReason::Form,
    }
}

/// Why a value spells no number of a type.
pub(crate) fn no_number<A: Allocator>(ty: &SigType<A>, json: &Json<'_, A>) -> JsonReason
    ensures { IsTrue (is_of_json result) }
{
    match json {
        Json::Number(text) => match ty {
            SigType::Bool => JsonReason::Form,
            SigType::Double => JsonReason::Range,
            SigType::I64 | SigType::U64 => no_wide(ty, text),
            _ => no_integer(text, JsonReason::Range),
        },
        Json::String(text) => match ty {
            SigType::Double => JsonReason::Digits,
            SigType::I64 | SigType::U64 => {
                if is_decimal(text.as_bytes()) {
                    JsonReason::Range
                } else {
                    JsonReason::Digits
                }
            }
            _ => JsonReason::Form,
        },
        _ => JsonReason::Form,
    }
}

/// Why a text is none of a kind.
fn text_reason(kind: TextKind) -> JsonReason
    ensures of_json { IsTrue (is_of_json result) }
    ensures reason { result ≡ text_reason kind }
{
    match kind {
        TextKind::Path => JsonReason::Path,
        TextKind::Signature => JsonReason::Signature,
        TextKind::Interface => JsonReason::Interface,
        TextKind::Member => JsonReason::Member,
        TextKind::ErrorName => JsonReason::ErrorName,
        TextKind::BusName => JsonReason::BusName,
        TextKind::Text | TextKind::Single => JsonReason::Text,
    }
}

/// Why a value is no text of a kind.
pub(crate) fn no_text<A: Allocator>(json: &Json<'_, A>, kind: TextKind) -> JsonReason
    ensures of_json { IsTrue (is_of_json result) }
    ensures reason { result ≡ string_reason kind (value_view json.now) }
{
    match json {
        Json::String(_) => text_reason(kind),
        _ => JsonReason::Form,
    }
}

/// Why a value names no byte order.
pub(crate) fn no_order<A: Allocator>(json: &Json<'_, A>) -> JsonReason
    ensures of_json { IsTrue (is_of_json result) }
    ensures reason { result ≡ order_reason (value_view json.now) }
{
    match json {
        Json::String(_) => JsonReason::Order,
        _ => JsonReason::Form,
    }
}

/// Why a value names no message type.
pub(crate) fn no_kind<A: Allocator>(json: &Json<'_, A>) -> JsonReason
    ensures of_json { IsTrue (is_of_json result) }
    ensures reason { result ≡ kind_reason (value_view json.now) }
{
    match json {
        Json::String(_) => JsonReason::Kind,
        _ => no_unsigned(json, JsonReason::Range),
    }
}

// ---- members

/// The tokens of an object before the value of a name, the last one if there are more; none of what
/// has no such member.
pub(crate) fn before_value<A: Allocator>(json: &Json<'_, A>, name: &str) -> usize
    ensures { (value : JsonTree) → get name.now (value_view json.now) ≡ Some value →
        (at : ℕ) × IsToldAt name.now (value_view json.now) value at × (result ≡ counted at) }
{
    let Json::Object(members) = json else {
        return 0;
    };
    let members = members.as_slice();
    for i in (0..members.len()).rev() {
        if members[i].0 == name {
            return tokens_in_members(&members[..i]).saturating_add(1);
        }
    }
    0
}

/// The reason, shown by the value of a name, or by the object if it has no such member.
pub(crate) fn at_value<A: Allocator>(json: &Json<'_, A>, name: &str, reason: JsonReason) -> Unread
    requires { IsTrue (is_of_json reason) }
    ensures { (value : JsonTree) → get name.now (value_view json.now) ≡ Some value →
        (at : ℕ) × IsToldAt name.now (value_view json.now) value at × IsShown result reason at }
{
    Unread::here(reason).after(before_value(json, name))
}

/// Why a value is no object of members of these names, none of them twice; if it is one, that it
/// has no `type` or no `value`, or a type that is no string.
pub(crate) fn not_typed<A: Allocator>(json: &Json<'_, A>, names: Names) -> Unread {
    let Json::Object(members) = json else {
        return Unread::here(JsonReason::Form);
    };
    if let Some(why) = strange_member(members.as_slice(), names) {
        return why;
    }
    if json.get("type").is_none() {
        return Unread::here(JsonReason::TypeMissing);
    }
    if json.get("value").is_none() {
        return Unread::here(JsonReason::ValueMissing);
    }
    at_value(json, "type", JsonReason::Form)
}

/// Why a value is no array of as many values as are wanted.
pub(crate) fn not_counted<A: Allocator>(json: &Json<'_, A>) -> Unread {
    match json {
        Json::Array(_) => Unread::here(JsonReason::Count),
        _ => Unread::here(JsonReason::Form),
    }
}

// ---- messages

/// The tokens of an object before the item of this number in the array of a name.
fn before_item<A: Allocator>(json: &Json<'_, A>, name: &str, number: usize) -> usize {
    let before = before_value(json, name);
    match json.get(name) {
        Some(Json::Array(items)) => {
            let items = items.as_slice();
            if number < items.len() {
                before.saturating_add(tokens_in_items(&items[..number]))
            } else {
                before
            }
        }
        _ => before,
    }
}

/// The number of the first object in `fields` whose code is 0.
fn codeless<A: Allocator>(json: &Json<'_, A>) -> usize {
    let Some(Json::Array(items)) = json.get("fields") else {
        return 0;
    };
    for (i, item) in items.as_slice().iter().enumerate() {
        if let Some(code) = item.get("code") {
            if unsigned(code, 0).is_some() {
                return i;
            }
        }
    }
    0
}

/// Why the parts that an object spells, of which each known field is one, are no message.
pub(crate) fn no_message<A: Allocator>(json: &Json<'_, A>, fault: BuildFault) -> Unread {
    match fault {
        BuildFault::Memory => Unread::Memory,
        BuildFault::Kind => at_value(json, "type", JsonReason::Kind),
        BuildFault::ZeroSerial => at_value(json, "serial", JsonReason::ZeroSerial),
        BuildFault::FieldCode => Unread::here(JsonReason::FieldCode).after(before_item(
            json,
            "fields",
            codeless(json),
        )),
        BuildFault::FieldTwice(code) | BuildFault::FieldType(code) | BuildFault::Name(code) => {
            at_value(json, named(code), JsonReason::Form)
        }
        BuildFault::FieldMissing(code) => Unread::here(JsonReason::FieldMissing(code)),
        BuildFault::TooDeep => Unread::here(JsonReason::TooDeep),
        BuildFault::FieldValue(_) => at_value(json, "fields", JsonReason::Form),
        BuildFault::Value(number) => {
            Unread::here(JsonReason::Form).after(before_item(json, "body", number))
        }
        BuildFault::SignatureDiffers => at_value(json, "body", JsonReason::Count),
        BuildFault::ArrayTooLong => Unread::here(JsonReason::ArrayTooLong),
        BuildFault::MessageTooLong => Unread::here(JsonReason::MessageTooLong),
        BuildFault::FdIndex(number) => {
            Unread::here(JsonReason::FdIndex).after(before_item(json, "body", number))
        }
    }
}
