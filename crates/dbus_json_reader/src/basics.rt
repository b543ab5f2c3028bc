//! Values of the basic types from JSON. RFC 8259, sections 3, 6 and 7; D-Bus Specification, "Basic
//! types".
#![tactic(auto)]

ghost use Rattle.std.specs.Prelude.{◌≡◌, ◌^◌, ◌<◌, ℕ, List, None, Err, IsTrue, IfSome, IfOk, IfErr, length, string_bytes};
ghost use Rattle.json.specs.Json.{string};
ghost use Rattle.json.specs.Value.{value_view};
ghost use Rattle.dbus_texts.specs.Kinds.{IsKind};
ghost use Rattle.dbus_texts.specs.Types.{NumberCode, NumberType, IsBasic};
ghost use Rattle.dbus_types.specs.SigTypes.{type_tree};
ghost use Rattle.dbus_value_model.specs.PackedBytes.{keeps_bytes};
ghost use Rattle.dbus_value_model.specs.Values.{ValueTree};
ghost use Rattle.dbus_value_model.specs.ValueViews.{value_tree};
ghost use Rattle.dbus_json_reader.specs.JsonFaults.{IsShown, IsUnspelled};
ghost use Rattle.dbus_json_reader.specs.JsonRules.{string_reason};
ghost use Rattle.dbus_json_reader.specs.JsonValues.{IsRead};
ghost use Rattle.dbus_json_reader.specs.declared.unread.Broken.{Broken as TheBroken};

use crate::blame::{no_number, no_text};
use crate::doubles::double;
use crate::numbers::{signed_16, signed_32, signed_64, unsigned, unsigned_64};
use crate::texts::text;
use crate::unread::Unread;
use dbus_json::Integers;
use dbus_types::{SigType, TextKind};
use dbus_value_model::Value;
use json::Value as Json;
use std::alloc::Allocator;

/// The value of a type of numbers that JSON spells, or `None` if it spells none.
fn number<A: Allocator>(ty: &SigType<A>, json: &Json<'_, A>, integers: Integers) -> Option<Value<A>>
    ensures some { IfSome result (λ v. (depth : ℕ) →
        IsRead integers depth (type_tree ty.now) (value_tree v) (value_view json.now)) }
    ensures packed { IfSome result (λ v. IsTrue (keeps_bytes v)) }
    ensures none { result ≡ None → (k : NumberCode) → type_tree ty.now ≡ NumberType k →
        (depth : ℕ) (v : ValueTree) →
        IsRead integers depth (type_tree ty.now) v (value_view json.now) → ⊥ }
{
    match ty {
        SigType::Byte => Some(Value::Byte(unsigned(json, u64::from(u8::MAX))? as u8)),
        SigType::Bool => Some(Value::Bool(json.as_bool()?)),
        SigType::I16 => Some(Value::I16(signed_16(json)?)),
        SigType::U16 => Some(Value::U16(unsigned(json, u64::from(u16::MAX))? as u16)),
        SigType::I32 => Some(Value::I32(signed_32(json)?)),
        SigType::U32 => Some(Value::U32(unsigned(json, u64::from(u32::MAX))? as u32)),
        SigType::I64 => Some(Value::I64(signed_64(json, integers)?)),
        SigType::U64 => Some(Value::U64(unsigned_64(json, integers)?)),
        SigType::Double => Some(Value::Double(double(json)?)),
        SigType::Fd => Some(Value::Fd(unsigned(json, u64::from(u32::MAX))? as u32)),
        _ => None,
    }
}

/// A copy of the text of a string that is of the kind and has a length that fits in 32 bits.
pub(crate) fn copied<A: Allocator + Copy>(
    alloc: A,
    json: &Json<'_, A>,
    kind: TextKind,
) -> Result<String<A>, Unread>
    ensures ok { IfOk result (λ s. (value_view json.now ≡ string (string_bytes s))
        × IsKind kind (string_bytes s) × (length (string_bytes s) < 2 ^ 32)) }
    ensures refused { (broken : TheBroken) → result ≡ Err (Unread.Unspelled broken) → (t : List ℕ) → IsKind kind t →
        length t < 2 ^ 32 → value_view json.now ≡ string t → ⊥ }
    ensures shown { IfErr result (λ why. IsUnspelled why →
        IsShown why (string_reason kind (value_view json.now)) 0) }
{
    match text(json, kind) {
        Some(text) => Ok(String::from_str(alloc, text)?),
        None => Err(Unread::here(no_text(json, kind))),
    }
}

/// The value of a basic type that JSON spells.
pub(crate) fn read_basic<A: Allocator + Copy>(
    alloc: A,
    ty: &SigType<A>,
    json: &Json<'_, A>,
    integers: Integers,
) -> Result<Value<A>, Unread>
    requires { IsBasic (type_tree ty.now) }
    ensures ok { IfOk result (λ v. (depth : ℕ) →
        IsRead integers depth (type_tree ty.now) (value_tree v) (value_view json.now)) }
    ensures packed { IfOk result (λ v. IsTrue (keeps_bytes v)) }
    ensures refused { (broken : TheBroken) → result ≡ Err (Unread.Unspelled broken) → (depth : ℕ) (v : ValueTree) →
        IsRead integers depth (type_tree ty.now) v (value_view json.now) → ⊥ }
{
    match ty {
        SigType::Str => Ok(Value::Str(copied(alloc, json, TextKind::Text)?)),
        SigType::Path => Ok(Value::Path(copied(alloc, json, TextKind::Path)?)),
        SigType::Sig => Ok(Value::Sig(copied(alloc, json, TextKind::Signature)?)),
        _ => match number(ty, json, integers) {
            Some(value) => Ok(value),
            None => Err(Unread::here(no_number(ty, json))),
        },
    }
}
