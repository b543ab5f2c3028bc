//! The type of a value.
#![tactic(auto)]

ghost use Rattle.std.specs.Prelude.{◌≡◌, map, IfOk, MatchOption, true, false};
ghost use Rattle.dbus_texts.specs.PlainTypes.{is_plain};
ghost use Rattle.dbus_types.specs.SigTypes.{type_tree};
ghost use Rattle.dbus_value_model.specs.Values.{type_of as tree_type};
ghost use Rattle.dbus_value_model.specs.ValueViews.{value_tree};

use crate::value::Value;
use dbus_types::SigType;
use std::alloc::{AllocError, Allocator};
use std::sync::Arc;

/// The type of a value, if the type has no parts; `None` of an array, a struct and a dict entry.
///
/// D-Bus Specification, "Type System".
pub fn plain_type_of<A: Allocator>(value: &Value<A>) -> Option<SigType<A>>
    ensures { let ty = tree_type (value_tree value.now) in
        MatchOption result (is_plain ty ≡ false) (λ t. (is_plain ty ≡ true) × (type_tree t ≡ ty)) }
{
    match value {
        Value::Byte(_) => Some(SigType::Byte),
        Value::Bool(_) => Some(SigType::Bool),
        Value::I16(_) => Some(SigType::I16),
        Value::U16(_) => Some(SigType::U16),
        Value::I32(_) => Some(SigType::I32),
        Value::U32(_) => Some(SigType::U32),
        Value::I64(_) => Some(SigType::I64),
        Value::U64(_) => Some(SigType::U64),
        Value::Double(_) => Some(SigType::Double),
        Value::Str(_) => Some(SigType::Str),
        Value::Path(_) => Some(SigType::Path),
        Value::Sig(_) => Some(SigType::Sig),
        Value::Fd(_) => Some(SigType::Fd),
        Value::Variant(_) => Some(SigType::Variant),
        Value::Bytes(_) | Value::Array(_, _) | Value::Struct(_) | Value::Entry(_) => None,
    }
}

/// The type of a value. D-Bus Specification, "Type System".
///
/// That of a struct is made of its fields' types, that of a dict entry of its key's and value's; an
/// array keeps its element type itself. The value need not be well formed. The one error is that an
/// allocation failed.
#[cycle(type_of)]
pub fn type_of<A: Allocator + Copy>(alloc: A, value: &Value<A>) -> Result<SigType<A>, AllocError>
    ensures { IfOk result (λ t. type_tree t ≡ tree_type (value_tree value.now)) }
{
    match value {
        Value::Bytes(_) => Ok(SigType::Array(Arc::new(alloc, SigType::Byte)?)),
        Value::Array(element, _) => { Ok(SigType::Array(Arc::new(alloc, element.clone()?)?)) }
        Value::Struct(fields) => {
            let types = types_of(alloc, fields)?;
            Ok(SigType::Struct(Arc::new(alloc, types)?))
        }
        Value::Entry(entry) => {
            let key = type_of(alloc, &entry.key)?;
            let value = type_of(alloc, &entry.value)?;
            Ok(SigType::Entry(Arc::new(alloc, key)?, Arc::new(alloc, value)?))
        }
        _ => match plain_type_of(value) {
            Some(ty) => Ok(ty),
            None => unreachable!(),
        },
    }
}

/// The type of each.
#[cycle(type_of)]
fn types_of<A: Allocator + Copy>(
    alloc: A,
    values: &[Value<A>],
) -> Result<Vec<SigType<A>, A>, AllocError>
    ensures { IfOk result (λ ts.
        map type_tree ts.items ≡ map (λ v. tree_type (value_tree v)) values.now) }
{
    let mut types = Vec::with_capacity(alloc, values.len())?;
    for value in values {
        types.push(type_of(alloc, value)?)?;
    }
    Ok(types)
}
