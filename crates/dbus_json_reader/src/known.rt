//! Known header fields from the members of their names. RFC 8259, section 4; D-Bus Specification,
//! "Header Fields".
#![tactic(auto)]

ghost use Rattle.std.specs.Prelude.{◌≡◌, ◌<◌, ◌^◌, ℕ, List, true, Err, IsTrue, IfOk, IfErr, decimal};
ghost use Rattle.std.specs.List.{AllZip, list_all};
ghost use Rattle.json.specs.Json.{number};
ghost use Rattle.json.specs.Strict.{keys};
ghost use Rattle.json.specs.Value.{value_view, members_view};
ghost use Rattle.dbus_texts.specs.declared.text_kind.TextKind.{TextKind as TheKind};
ghost use Rattle.dbus_value_model.specs.ComputedTexts.{IsName};
ghost use Rattle.dbus_value_model.specs.PackedBytes.{keeps_bytes, keep_bytes};
ghost use Rattle.dbus_value_model.specs.Values.{ValueTree};
ghost use Rattle.dbus_value_model.specs.ValueViews.{value_tree};
ghost use Rattle.dbus_value_model.specs.WantedTexts.{Of};
ghost use Rattle.dbus_message_model.specs.KnownFields.{want_of};
ghost use Rattle.dbus_message_model.specs.Messages.{FieldTree, Name, is_particular};
ghost use Rattle.dbus_message_model.specs.PackedParts.{field_values};
ghost use Rattle.dbus_message_model.specs.PartsViews.{field_trees};
ghost use Rattle.dbus_json.specs.declared.integers.Integers.{Integers as TheIntegers};
ghost use Rattle.dbus_json_reader.specs.JsonFaults.{IsOneOf, IsShown, IsUnspelled};
ghost use Rattle.dbus_json_reader.specs.JsonMessages.{field_members, is_among};
ghost use Rattle.dbus_json_reader.specs.JsonNames.{message_names};
ghost use Rattle.dbus_json_reader.specs.JsonParts.{IsFieldValue, IsKnownField};
ghost use Rattle.dbus_json_reader.specs.JsonRules.{IsFieldFault, field_reason, serial_reason, unsigned_reason};
ghost use Rattle.dbus_json_reader.specs.declared.unread.Broken.{Broken as TheBroken};

use crate::basics::copied;
use crate::blame::no_unsigned;
use crate::names::field_named;
use crate::numbers::unsigned;
use crate::reasons::JsonReason;
use crate::tokens::tokens_in_members;
use crate::unread::Unread;
use dbus_message_model::HeaderField;
use dbus_message_model::field_table::{Wanted, want};
use dbus_types::TextKind;
use dbus_value_model::Value;
use json::Value as Json;
use std::alloc::Allocator;

/// The number of 32 bits that a value is.
fn number_32<A: Allocator>(json: &Json<'_, A>) -> Result<u32, Unread>
    ensures ok { IfOk result (λ n. value_view json.now ≡ number (decimal n)) }
    ensures refused { IfErr result (λ _. (n : ℕ) → n < 2 ^ 32 →
        value_view json.now ≡ number (decimal n) → ⊥) }
    ensures shown { IfErr result (λ why.
        IsShown why (unsigned_reason JsonReason.Range (value_view json.now)) 0) }
{
    match unsigned(json, u64::from(u32::MAX)) {
        Some(number) => Ok(number as u32),
        None => Err(Unread::here(no_unsigned(json, JsonReason::Range))),
    }
}

/// The serial that a value is, which is not 0.
fn serial<A: Allocator>(json: &Json<'_, A>) -> Result<u32, Unread>
    ensures ok { IfOk result (λ n. (0 < n) × (value_view json.now ≡ number (decimal n))) }
    ensures refused { IfErr result (λ _. (n : ℕ) → 0 < n → n < 2 ^ 32 →
        value_view json.now ≡ number (decimal n) → ⊥) }
    ensures shown { IfErr result (λ why. IsShown why (serial_reason (value_view json.now)) 0) }
{
    let number = match number_32(json) {
        Ok(number) => number,
        Err(why) => return Err(why),
    };
    if number == 0 {
        return Err(Unread::here(JsonReason::ZeroSerial));
    }
    Ok(number)
}

/// The value that is wanted of a known field, if JSON spells one.
fn known_value<A: Allocator + Copy>(
    alloc: A,
    wanted: Wanted,
    json: &Json<'_, A>,
) -> Result<Value<A>, Unread>
    requires known { is_particular (want_of wanted) ≡ true }
    requires names { (kind : TheKind) → want_of wanted ≡ Name (Of kind) → IsName (Of kind) }
    ensures ok { IfOk result (λ v. (integers : TheIntegers) (depth : ℕ) →
        IsFieldValue integers depth (want_of wanted) (value_tree v) (value_view json.now)) }
    ensures packed { IfOk result (λ v. IsTrue (keeps_bytes v)) }
    ensures refused { (broken : TheBroken) → result ≡ Err (Unread.Unspelled broken) → (integers : TheIntegers)
        (depth : ℕ) (v : ValueTree) → IsFieldValue integers depth (want_of wanted) v (value_view json.now) → ⊥ }
    ensures shown { IfErr result (λ why. IsUnspelled why →
        IsShown why (field_reason (want_of wanted) (value_view json.now)) 0) }
{
    match wanted {
        Wanted::Path => Ok(Value::Path(copied(alloc, json, TextKind::Path)?)),
        Wanted::Name(kind) => Ok(Value::Str(copied(alloc, json, kind)?)),
        Wanted::Signature => Ok(Value::Sig(copied(alloc, json, TextKind::Signature)?)),
        Wanted::Serial => Ok(Value::U32(serial(json)?)),
        Wanted::Number | Wanted::Anything => Ok(Value::U32(number_32(json)?)),
    }
}

/// The known header fields that the members of a message spell, in their order. Members that are no
/// header fields are passed over.
///
/// `Unspelled` exactly if the others spell none, for the first that does not; `Memory` if an
/// allocation failed. RFC 8259, section 4; D-Bus Specification, "Header Fields".
pub(crate) fn read_known_fields<A: Allocator + Copy>(
    alloc: A,
    members: &[(&str, Json<'_, A>)],
) -> Result<Vec<HeaderField<A>, A>, Unread>
    requires { list_all (is_among message_names) (keys (members_view members.now)) ≡ true }
    ensures ok { IfOk result (λ fields. (integers : TheIntegers) (depth : ℕ) → AllZip (IsKnownField integers depth)
        (field_trees fields.items) (field_members (members_view members.now))) }
    ensures packed { IfOk result (λ fields. IsTrue (keep_bytes (field_values fields.items))) }
    ensures refused { (broken : TheBroken) → result ≡ Err (Unread.Unspelled broken) →
        (integers : TheIntegers) (depth : ℕ) (fields : List FieldTree) →
        AllZip (IsKnownField integers depth) fields (field_members (members_view members.now)) → ⊥ }
    ensures shown { (broken : TheBroken) → result ≡ Err (Unread.Unspelled broken) →
        IsOneOf (IsFieldFault (members_view members.now)) (Unread.Unspelled broken) }
{
    let mut fields = Vec::new(alloc);
    for (i, member) in members.iter().enumerate() {
        if let Some(code) = field_named(member.0) {
            let value = match known_value(alloc, want(code), &member.1) {
                Ok(value) => value,
                Err(why) => {
                    return Err(why.after(tokens_in_members(&members[..i]).saturating_add(1)));
                }
            };
            fields.push(HeaderField { code, value })?;
        }
    }
    Ok(fields)
}
