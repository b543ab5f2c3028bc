//! Values of any type from JSON. RFC 8259; D-Bus Specification, "Type System".
#![tactic(auto)]

ghost use Rattle.std.specs.Prelude.{◌≡◌, ℕ, List, None, Err, Ok, IsTrue, IfSome, IfOk};
ghost use Rattle.hex.specs.Hex.{decode_of};
ghost use Rattle.json.specs.Json.{Json as JsonTree, Items, no_items, item, array, string};
ghost use Rattle.json.specs.Value.{value_view, members_view};
ghost use Rattle.dbus_texts.specs.Types.{TypeTree, ArrayType, EntryType, VariantType, sig, IsSingleType};
ghost use Rattle.dbus_types.specs.SigTypes.{type_tree, type_trees_of};
ghost use Rattle.dbus_value_model.specs.PackedBytes.{keeps_bytes, keep_bytes};
ghost use Rattle.dbus_value_model.specs.Values.{ValueTree, ValueTrees};
ghost use Rattle.dbus_value_model.specs.ValueViews.{value_tree, value_trees_of};
ghost use Rattle.dbus_json_reader.specs.JsonValues.{IsRead, AreRead, IsTyped};
ghost use Rattle.dbus_json_reader.specs.declared.unread.Broken.{Broken as TheBroken};

use crate::basics::read_basic;
use crate::blame::{before_value, not_counted, not_typed};
use crate::names::Names;
use crate::reasons::JsonReason;
use crate::tokens::{tokens_in, tokens_in_items};
use crate::unread::Unread;
use dbus_json::Integers;
use dbus_types::{SigFault, SigType, is_byte, parse_single};
use dbus_value_model::{DictEntry, Value};
use json::Value as Json;
use std::alloc::Allocator;

/// The bytes of which a string is the hexadecimal digits, two for each, in either case.
fn read_bytes<A: Allocator + Copy>(alloc: A, json: &Json<'_, A>) -> Result<Vec<u8, A>, Unread>
    ensures ok { IfOk result (λ bytes. (text : List ℕ) × (value_view json.now ≡ string text)
        × (decode_of text ≡ Ok bytes.items)) }
    ensures refused { (broken : TheBroken) → result ≡ Err (Unread.Unspelled broken) → (text bytes : List ℕ) →
        value_view json.now ≡ string text → decode_of text ≡ Ok bytes → ⊥ }
{
    let Json::String(text) = json else {
        return Err(Unread::here(JsonReason::Form));
    };
    match hex::decode(alloc, text.as_bytes()) {
        Ok(bytes) => Ok(bytes),
        Err(hex::FromHexError::OutOfMemory) => Err(Unread::Memory),
        Err(_) => Err(Unread::here(JsonReason::Digits)),
    }
}

/// The text of a string, beside another value; or `None` if it is no string.
fn text_beside<'v, 'a, A: Allocator>(
    ty: &'v Json<'a, A>,
    value: &'v Json<'a, A>,
) -> Option<(&'v str, &'v Json<'a, A>)>
    ensures some { IfSome result (λ r.
        (value_view ty.now ≡ string r.0.now) × (value_view r.1.now ≡ value_view value.now)) }
    ensures none { result ≡ None → (text : List ℕ) → value_view ty.now ≡ string text → ⊥ }
{
    match ty {
        Json::String(text) => Some((*text, value)),
        _ => None,
    }
}

/// The type and the value that an object has as its only members, in either order.
fn typed_members<'v, 'a, A: Allocator>(
    members: &'v [(&'a str, Json<'a, A>)],
) -> Option<(&'v str, &'v Json<'a, A>)>
    ensures some { IfSome result (λ r.
        IsTyped r.0.now (value_view r.1.now) (members_view members.now)) }
    ensures none { result ≡ None → (text : List ℕ) (value : JsonTree) →
        IsTyped text value (members_view members.now) → ⊥ }
{
    if members.len() != 2 {
        return None;
    }
    let (first, second) = (&members[0], &members[1]);
    if first.0 == "type" && second.0 == "value" {
        return text_beside(&first.1, &second.1);
    }
    if first.0 == "value" && second.0 == "type" {
        return text_beside(&second.1, &first.1);
    }
    None
}

/// The two items of an array that has no others.
fn pair_of<'v, 'a, A: Allocator>(
    json: &'v Json<'a, A>,
) -> Option<(&'v Json<'a, A>, &'v Json<'a, A>)>
    ensures some { IfSome result (λ r. value_view json.now ≡
        array (item (value_view r.0.now) (item (value_view r.1.now) no_items))) }
    ensures none { result ≡ None → (key value : JsonTree) →
        value_view json.now ≡ array (item key (item value no_items)) → ⊥ }
{
    let Json::Array(items) = json else {
        return None;
    };
    let items = items.as_slice();
    if items.len() != 2 {
        return None;
    }
    Some((&items[0], &items[1]))
}

/// The type that a signature of exactly one complete type spells.
pub(crate) fn single_type<A: Allocator + Copy>(alloc: A, text: &str) -> Result<SigType<A>, Unread>
    ensures ok { IfOk result (λ ty. IsSingleType (type_tree ty) × (sig (type_tree ty) ≡ text.now)) }
    ensures refused { (broken : TheBroken) → result ≡ Err (Unread.Unspelled broken) → (t : TypeTree) → IsSingleType t →
        sig t ≡ text.now → ⊥ }
{
    match parse_single(alloc, text.as_bytes()) {
        Ok(ty) => Ok(ty),
        Err(SigFault::Memory) => Err(Unread::Memory),
        Err(_) => Err(Unread::here(JsonReason::Signature)),
    }
}

/// A VARIANT, from an object of a type and a value.
#[cycle(values)]
fn read_variant<A: Allocator + Copy>(
    alloc: A,
    json: &Json<'_, A>,
    depth: u8,
    integers: Integers,
) -> Result<Value<A>, Unread>
    ensures ok { IfOk result (λ v.
        IsRead integers depth VariantType (value_tree v) (value_view json.now)) }
    ensures packed { IfOk result (λ v. IsTrue (keeps_bytes v)) }
    ensures refused { (broken : TheBroken) → result ≡ Err (Unread.Unspelled broken) → (v : ValueTree) →
        IsRead integers depth VariantType v (value_view json.now) → ⊥ }
{
    let Json::Object(members) = json else {
        return Err(Unread::here(JsonReason::Form));
    };
    let members = members.as_slice();
    let Some((text, value)) = typed_members(members) else {
        return Err(not_typed(json, Names::Variant));
    };
    if depth == 0 {
        return Err(Unread::here(JsonReason::TooDeep));
    }
    let ty = match single_type(alloc, text) {
        Ok(ty) => ty,
        Err(why) => return Err(why.after(before_value(json, "type"))),
    };
    let value = match read_value(alloc, &ty, value, depth - 1, integers) {
        Ok(value) => value,
        Err(why) => return Err(why.after(before_value(json, "value"))),
    };
    Ok(Value::Variant(Box::new(alloc, value)?))
}

/// An array: of BYTE from a string of digits, of any other type from an array of its elements.
#[cycle(values)]
fn read_array<A: Allocator + Copy>(
    alloc: A,
    element: &SigType<A>,
    json: &Json<'_, A>,
    depth: u8,
    integers: Integers,
) -> Result<Value<A>, Unread>
    ensures ok { IfOk result (λ v.
        IsRead integers depth (ArrayType (type_tree element.now)) (value_tree v) (value_view json.now)) }
    ensures packed { IfOk result (λ v. IsTrue (keeps_bytes v)) }
    ensures refused { (broken : TheBroken) → result ≡ Err (Unread.Unspelled broken) → (v : ValueTree) →
        IsRead integers depth (ArrayType (type_tree element.now)) v (value_view json.now) → ⊥ }
{
    if depth == 0 {
        return Err(Unread::here(JsonReason::TooDeep));
    }
    if is_byte(element) {
        return Ok(Value::Bytes(read_bytes(alloc, json)?));
    }
    let Json::Array(items) = json else {
        return Err(Unread::here(JsonReason::Form));
    };
    let items = items.as_slice();
    let mut values = Vec::with_capacity(alloc, items.len())?;
    for (i, item) in items.iter().enumerate() {
        match read_value(alloc, element, item, depth - 1, integers) {
            Ok(value) => values.push(value)?,
            Err(why) => return Err(why.after(tokens_in_items(&items[..i]))),
        }
    }
    Ok(Value::Array(element.clone()?, values))
}

/// A dict entry, from an array of its key and its value.
#[cycle(values)]
fn read_entry<A: Allocator + Copy>(
    alloc: A,
    key: &SigType<A>,
    value: &SigType<A>,
    json: &Json<'_, A>,
    depth: u8,
    integers: Integers,
) -> Result<Value<A>, Unread>
    ensures ok { IfOk result (λ v. IsRead integers depth (EntryType (type_tree key.now)
        (type_tree value.now)) (value_tree v) (value_view json.now)) }
    ensures packed { IfOk result (λ v. IsTrue (keeps_bytes v)) }
    ensures refused { (broken : TheBroken) → result ≡ Err (Unread.Unspelled broken) → (v : ValueTree) → IsRead integers depth
        (EntryType (type_tree key.now) (type_tree value.now)) v (value_view json.now) → ⊥ }
{
    let Some((first, second)) = pair_of(json) else {
        return Err(not_counted(json));
    };
    let key = match read_value(alloc, key, first, depth, integers) {
        Ok(key) => key,
        Err(why) => return Err(why.after(1)),
    };
    let value = match read_value(alloc, value, second, depth, integers) {
        Ok(value) => value,
        Err(why) => return Err(why.after(tokens_in(first).saturating_add(1))),
    };
    Ok(Value::Entry(Box::new(alloc, DictEntry { key, value })?))
}

/// The values of these types, one each, that an array spells. No more containers than `depth` are
/// open in one at once. An array of BYTE in what it returns is `Bytes`.
///
/// `Unspelled` exactly if it spells none; `Memory` if an allocation failed. RFC 8259; D-Bus
/// Specification, "Type System".
#[cycle(values)]
pub fn read_values<A: Allocator + Copy>(
    alloc: A,
    types: &[SigType<A>],
    json: &Json<'_, A>,
    depth: u8,
    integers: Integers,
) -> Result<Vec<Value<A>, A>, Unread>
    ensures ok { IfOk result (λ vs. (js : Items) × (value_view json.now ≡ array js)
        × AreRead integers depth (type_trees_of types.now) (value_trees_of vs.items) js) }
    ensures packed { IfOk result (λ vs. IsTrue (keep_bytes vs.items)) }
    ensures refused { (broken : TheBroken) → result ≡ Err (Unread.Unspelled broken) → (js : Items) (xs : ValueTrees) →
        value_view json.now ≡ array js → AreRead integers depth (type_trees_of types.now) xs js → ⊥ }
{
    let Json::Array(items) = json else {
        return Err(Unread::here(JsonReason::Form));
    };
    let items = items.as_slice();
    if items.len() != types.len() {
        return Err(Unread::here(JsonReason::Count));
    }
    let mut values = Vec::with_capacity(alloc, items.len())?;
    for (i, item) in items.iter().enumerate() {
        match read_value(alloc, &types[i], item, depth, integers) {
            Ok(value) => values.push(value)?,
            Err(why) => return Err(why.after(tokens_in_items(&items[..i]))),
        }
    }
    Ok(values)
}

/// The value of the type that JSON spells. No more containers than `depth` are open in it at once.
///
/// A number is in decimal, one of 64 bits maybe in a string, as [`Integers`] has it, and a DOUBLE
/// maybe as 16 hexadecimal digits; an array of BYTE is a string of hexadecimal digits, any other
/// array one of its elements, a STRUCT one of its fields, and a dict entry one of its key and its
/// value; a VARIANT is an object of `type` and `value`. An array of BYTE in what it returns is
/// `Bytes`.
///
/// `Unspelled` exactly if it spells none; `Memory` if an allocation failed. RFC 8259; D-Bus
/// Specification, "Type System".
#[cycle(values)]
pub fn read_value<A: Allocator + Copy>(
    alloc: A,
    ty: &SigType<A>,
    json: &Json<'_, A>,
    depth: u8,
    integers: Integers,
) -> Result<Value<A>, Unread>
    ensures ok { IfOk result (λ v.
        IsRead integers depth (type_tree ty.now) (value_tree v) (value_view json.now)) }
    ensures packed { IfOk result (λ v. IsTrue (keeps_bytes v)) }
    ensures refused { (broken : TheBroken) → result ≡ Err (Unread.Unspelled broken) → (v : ValueTree) →
        IsRead integers depth (type_tree ty.now) v (value_view json.now) → ⊥ }
{
    match ty {
        SigType::Variant => read_variant(alloc, json, depth, integers),
        SigType::Array(element) => read_array(alloc, element, json, depth, integers),
        SigType::Struct(fields) => {
            if depth == 0 {
                return Err(Unread::here(JsonReason::TooDeep));
            }
            Ok(Value::Struct(read_values(alloc, fields, json, depth - 1, integers)?))
        }
        SigType::Entry(key, value) => read_entry(alloc, key, value, json, depth, integers),
        _ => read_basic(alloc, ty, json, integers),
    }
}
