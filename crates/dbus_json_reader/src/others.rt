//! Header fields that are not known, from the objects of `fields`. RFC 8259, section 4; D-Bus
//! Specification, "Header Fields".
#![tactic(auto)]

ghost use Rattle.std.specs.Prelude.{◌≡◌, ◌<◌, ℕ, List, None, Some, Err, false, IsTrue, IfSome, IfOk, IfErr, codes, decimal};
ghost use Rattle.json.specs.Find.{get};
ghost use Rattle.json.specs.Json.{Json as JsonTree, number, string};
ghost use Rattle.json.specs.Value.{value_view};
ghost use Rattle.dbus_value_model.specs.PackedBytes.{keeps_bytes, keep_bytes};
ghost use Rattle.dbus_message_model.specs.Messages.{FieldTree, is_known as is_known_code};
ghost use Rattle.dbus_message_model.specs.PackedParts.{field_values};
ghost use Rattle.dbus_message_model.specs.PartsViews.{field_tree, field_trees};
ghost use Rattle.dbus_json_reader.specs.JsonParts.{AreAllKnown, AreReadFields, IsNamedOther, IsOtherField, IsOtherObject};
ghost use Rattle.dbus_json_reader.specs.declared.unread.Broken.{Broken as TheBroken};

use crate::blame::{at_value, before_value, no_unsigned, not_typed};
use crate::head::unsigned_or;
use crate::names::{Names, strange_member};
use crate::numbers::unsigned;
use crate::reasons::JsonReason;
use crate::tokens::tokens_in_items;
use crate::unread::Unread;
use crate::values::{read_value, single_type};
use dbus_json::Integers;
use dbus_message_model::HeaderField;
use dbus_message_model::field_table::is_known;
use json::Value as Json;
use std::alloc::Allocator;

/// The members of the object of a field that is not known.
struct Other<'v, 'a, A: Allocator> {
    /// The place among all fields, counted from 0.
    place: usize,
    /// The field's code, which may be 0.
    code: u8,
    /// The signature of the value.
    types: &'v str,
    /// The value.
    value: &'v Json<'a, A>,
}

/// What an object of members that such an object may have, none of them twice, breaks first, if it
/// is none.
fn not_named<A: Allocator>(json: &Json<'_, A>) -> Option<Unread>
    ensures none { result ≡ None → IsNamedOther (value_view json.now) }
    ensures some { IfSome result (λ _. IsNamedOther (value_view json.now) → ⊥) }
{
    match json {
        Json::Object(members) => strange_member(members.as_slice(), Names::Field),
        _ => Some(Unread::here(JsonReason::Form)),
    }
}

/// The code of a field that is not known, as the member `code`.
fn other_code<A: Allocator>(json: &Json<'_, A>) -> Result<u8, Unread>
    ensures ok { IfOk result (λ code.
        (get (codes "code") (value_view json.now) ≡ Some (number (decimal code)))
        × (is_known_code code ≡ false)) }
    ensures refused { IfErr result (λ _. (code : ℕ) → code < 256 → is_known_code code ≡ false →
        get (codes "code") (value_view json.now) ≡ Some (number (decimal code)) → ⊥) }
{
    let Some(value) = json.get("code") else {
        return Err(Unread::here(JsonReason::CodeMissing));
    };
    let Some(code) = unsigned(value, u64::from(u8::MAX)) else {
        return Err(at_value(json, "code", no_unsigned(value, JsonReason::Range)));
    };
    let code = code as u8;
    if is_known(code) {
        return Err(at_value(json, "code", JsonReason::FieldKnown));
    }
    Ok(code)
}

/// The text of the member `type`.
fn types_told<'v, 'a, A: Allocator>(json: &'v Json<'a, A>) -> Option<&'v str>
    ensures some { IfSome result (λ text.
        get (codes "type") (value_view json.now) ≡ Some (string text.now)) }
    ensures none { result ≡ None → (text : List ℕ) →
        get (codes "type") (value_view json.now) ≡ Some (string text) → ⊥ }
{
    match json.get("type") {
        Some(Json::String(text)) => Some(text),
        _ => None,
    }
}

/// The members of the object of a field that is not known. Its place is `end` if none is told, and
/// it is not past that.
fn other_in<'v, 'a, A: Allocator>(
    json: &'v Json<'a, A>,
    end: usize,
) -> Result<Other<'v, 'a, A>, Unread>
    ensures ok { IfOk result (λ o. IsOtherObject end o.place o.code o.types.now
        (value_view o.value.now) (value_view json.now)) }
    ensures refused { IfErr result (λ _. (place code : ℕ) (text : List ℕ) (value : JsonTree) →
        code < 256 →
        IsOtherObject end place code text value (value_view json.now) → ⊥) }
{
    if let Some(why) = not_named(json) {
        return Err(why);
    }
    let code = other_code(json)?;
    let Some(types) = types_told(json) else {
        return Err(not_typed(json, Names::Field));
    };
    let Some(value) = json.get("value") else {
        return Err(Unread::here(JsonReason::ValueMissing));
    };
    let past = JsonReason::FieldPlace;
    let place = unsigned_or(json, "place", end as u64, end as u64, past)? as usize;
    Ok(Other {
        place,
        code,
        types,
        value,
    })
}

/// A field that is not known, and its place, which is `end` if none is told, and is not past that.
fn read_other<A: Allocator + Copy>(
    alloc: A,
    json: &Json<'_, A>,
    end: usize,
    depth: u8,
    integers: Integers,
) -> Result<(usize, HeaderField<A>), Unread>
    ensures ok { IfOk result (λ r.
        IsOtherField integers depth end r.0 (field_tree r.1) (value_view json.now)) }
    ensures packed { IfOk result (λ r. IsTrue (keeps_bytes r.1.value)) }
    ensures refused { (broken : TheBroken) → result ≡ Err (Unread.Unspelled broken) → (place : ℕ) (field : FieldTree) →
        IsOtherField integers depth end place field (value_view json.now) → ⊥ }
{
    let other = match other_in(json, end) {
        Ok(other) => other,
        Err(why) => return Err(why),
    };
    let Other {
        place,
        code,
        types,
        value,
    } = other;
    let ty = match single_type(alloc, types) {
        Ok(ty) => ty,
        Err(why) => return Err(why.after(before_value(json, "type"))),
    };
    let value = match read_value(alloc, &ty, value, depth, integers) {
        Ok(value) => value,
        Err(why) => return Err(why.after(before_value(json, "value"))),
    };
    Ok((place, HeaderField { code, value }))
}

/// All header fields in their order: these known ones, and the objects of the member `fields`, each
/// at its place, or after all known ones if it tells none. In the value of each no more containers
/// than `depth` are open at once.
///
/// `Unspelled` exactly if there are no such fields; `Memory` if an allocation failed. RFC 8259,
/// section 4; D-Bus Specification, "Header Fields". The tokens of an error count from the first of
/// `fields`.
pub(crate) fn with_others<A: Allocator + Copy>(
    alloc: A,
    known: Vec<HeaderField<A>, A>,
    json: &Json<'_, A>,
    depth: u8,
    integers: Integers,
) -> Result<Vec<HeaderField<A>, A>, Unread>
    requires known { AreAllKnown (field_trees known.items) }
    requires packed { IsTrue (keep_bytes (field_values known.items)) }
    ensures ok { IfOk result (λ fields. AreReadFields integers depth (field_trees known.items)
        (get (codes "fields") (value_view json.now)) (field_trees fields.items)) }
    ensures only { IfOk result (λ fields. (fs : List FieldTree) → AreReadFields integers depth
        (field_trees known.items) (get (codes "fields") (value_view json.now)) fs →
        fs ≡ field_trees fields.items) }
    ensures packed { IfOk result (λ fields. IsTrue (keep_bytes (field_values fields.items))) }
    ensures refused { (broken : TheBroken) → result ≡ Err (Unread.Unspelled broken) → (fs : List FieldTree) → AreReadFields integers depth
        (field_trees known.items) (get (codes "fields") (value_view json.now)) fs → ⊥ }
{
    let mut fields = known;
    let Some(json) = json.get("fields") else {
        return Ok(fields);
    };
    let Json::Array(items) = json else {
        return Err(Unread::here(JsonReason::Form));
    };
    let items = items.as_slice();
    let mut next = 0;
    for (i, item) in items.iter().enumerate() {
        let (place, field) = match read_other(alloc, item, fields.len(), depth, integers) {
            Ok(read) => read,
            Err(why) => return Err(why.after(tokens_in_items(&items[..i]))),
        };
        if place < next {
            let why = at_value(item, "place", JsonReason::FieldPlace);
            return Err(why.after(tokens_in_items(&items[..i])));
        }
        // Only known fields are behind the place, each at most once, so this moves few.
        fields.insert(place, field)?;
        next = place + 1;
    }
    Ok(fields)
}
