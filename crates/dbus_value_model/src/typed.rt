//! Whether a signature spells the type of a value, and whether values are of a type.
#![tactic(auto)]

ghost use Rattle.std.specs.Prelude.{◌↔◌, IsTrue, false};
ghost use Rattle.dbus_texts.specs.Types.{IsSingleType};
ghost use Rattle.dbus_types.specs.Parses.{LeavesOfType, LeavesOfTypes};
ghost use Rattle.dbus_types.specs.SigTypes.{type_tree};
ghost use Rattle.dbus_value_model.specs.Values.{AllOf, types_of, type_of as tree_type};
ghost use Rattle.dbus_value_model.specs.ValueViews.{value_tree, value_trees_of};

use crate::same_types::has_type;
use crate::value::Value;
use dbus_types::{SigType, text_left};
use std::alloc::Allocator;

/// Whether a signature spells the value's type.
pub fn has_single_type<A: Allocator>(value: &Value<A>) -> bool
    ensures { IsTrue result ↔ IsSingleType (tree_type (value_tree value.now)) }
{
    type_left(value, 0, 255).is_some()
}

/// The number of bytes that are left of `left` after the text of the value's type, or nothing if
/// the type is not complete or its text has more bytes. So many structs are open around it, and no
/// array: it is no array's element.
#[cycle(type_left)]
fn type_left<A: Allocator>(value: &Value<A>, structs: u8, left: u8) -> Option<u8>
    ensures { LeavesOfType (tree_type (value_tree value.now)) false 0 structs left result }
{
    match value {
        Value::Bytes(_) => left.checked_sub(2),
        Value::Array(element, _) => {
            if left < 1 {
                return None;
            }
            text_left(element, true, 1, structs, left - 1)
        }
        Value::Struct(fields) => {
            if structs >= 32 || left < 2 || fields.is_empty() {
                return None;
            }
            types_left(fields, structs + 1, left - 2)
        }
        Value::Entry(_) => None,
        _ => left.checked_sub(1),
    }
}

/// The same of the types of several values.
#[cycle(type_left)]
fn types_left<A: Allocator>(values: &[Value<A>], structs: u8, mut left: u8) -> Option<u8>
    ensures { LeavesOfTypes (types_of (value_trees_of values.now)) 0 structs left result }
{
    for value in values {
        left = type_left(value, structs, left)?;
    }
    Some(left)
}

/// Whether the values are of a type.
pub fn all_of<A: Allocator>(ty: &SigType<A>, values: &[Value<A>]) -> bool
    ensures { IsTrue result ↔ AllOf (type_tree ty.now) (value_trees_of values.now) }
{
    for value in values {
        if !has_type(value, ty) {
            return false;
        }
    }
    true
}
