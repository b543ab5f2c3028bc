//! Copies of values.
#![tactic(auto)]

ghost use Rattle.std.specs.Prelude.{◌≡◌, map, IfOk};
ghost use Rattle.dbus_value_model.specs.PackedBytes.{packing};
ghost use Rattle.dbus_value_model.specs.ValueViews.{value_tree};

use crate::value::{DictEntry, Value};
use std::alloc::{AllocError, Allocator};
use std::string::String;

/// An equal value, in which each array of BYTE is `Bytes` or an `Array` as it was.
///
/// The one error is that an allocation failed.
#[cycle(copy)]
pub fn copy<A: Allocator + Copy>(alloc: A, value: &Value<A>) -> Result<Value<A>, AllocError>
    ensures equal { IfOk result (λ c. value_tree c ≡ value_tree value.now) }
    ensures same_bytes { IfOk result (λ c. packing c ≡ packing value.now) }
{
    match value {
        Value::Byte(n) => Ok(Value::Byte(*n)),
        Value::Bool(b) => Ok(Value::Bool(*b)),
        Value::I16(n) => Ok(Value::I16(*n)),
        Value::U16(n) => Ok(Value::U16(*n)),
        Value::I32(n) => Ok(Value::I32(*n)),
        Value::U32(n) => Ok(Value::U32(*n)),
        Value::I64(n) => Ok(Value::I64(*n)),
        Value::U64(n) => Ok(Value::U64(*n)),
        Value::Double(bits) => Ok(Value::Double(*bits)),
        Value::Str(text) => Ok(Value::Str(String::from_str(alloc, text)?)),
        Value::Path(text) => Ok(Value::Path(String::from_str(alloc, text)?)),
        Value::Sig(text) => Ok(Value::Sig(String::from_str(alloc, text)?)),
        Value::Fd(index) => Ok(Value::Fd(*index)),
        Value::Bytes(bytes) => Ok(Value::Bytes(Vec::from_slice(alloc, bytes)?)),
        Value::Array(element, items) => {
            let items = copy_all(alloc, items)?;
            Ok(Value::Array(element.clone()?, items))
        }
        Value::Struct(fields) => Ok(Value::Struct(copy_all(alloc, fields)?)),
        Value::Entry(entry) => {
            let key = copy(alloc, &entry.key)?;
            let value = copy(alloc, &entry.value)?;
            Ok(Value::Entry(Box::new(alloc, DictEntry { key, value })?))
        }
        Value::Variant(inner) => {
            let inner = copy(alloc, inner)?;
            Ok(Value::Variant(Box::new(alloc, inner)?))
        }
    }
}

/// A copy of each.
#[cycle(copy)]
fn copy_all<A: Allocator + Copy>(
    alloc: A,
    values: &[Value<A>],
) -> Result<Vec<Value<A>, A>, AllocError>
    ensures equal { IfOk result (λ c. map value_tree c.items ≡ map value_tree values.now) }
    ensures same_bytes { IfOk result (λ c. map packing c.items ≡ map packing values.now) }
{
    let mut copies = Vec::with_capacity(alloc, values.len())?;
    for value in values {
        copies.push(copy(alloc, value)?)?;
    }
    Ok(copies)
}
