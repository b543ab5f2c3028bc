//! Whether two types are the same, and whether a value is of a type.
#![tactic(auto)]

ghost use Rattle.std.specs.Prelude.{◌≡◌, ◌↔◌, IsTrue};
ghost use Rattle.dbus_types.specs.SigTypes.{type_tree, type_trees_of};
ghost use Rattle.dbus_value_model.specs.Values.{types_of, type_of as tree_type};
ghost use Rattle.dbus_value_model.specs.ValueViews.{value_tree, value_trees_of};

use crate::typing::plain_type_of;
use crate::value::Value;
use dbus_types::{SigType, type_code};
use std::alloc::Allocator;

/// Whether two types are the same.
#[cycle(same_type)]
fn same_type<A: Allocator>(ty: &SigType<A>, other: &SigType<A>) -> bool
    ensures { IsTrue result ↔ (type_tree ty.now ≡ type_tree other.now) }
{
    if type_code(ty) != type_code(other) {
        return false;
    }
    match ty {
        SigType::Array(element) => match other {
            SigType::Array(other) => same_type(element, other),
            _ => false,
        },
        SigType::Struct(fields) => match other {
            SigType::Struct(others) => same_types(fields, others),
            _ => false,
        },
        SigType::Entry(key, value) => match other {
            SigType::Entry(other_key, other_value) => {
                same_type(key, other_key) && same_type(value, other_value)
            }
            _ => false,
        },
        _ => true,
    }
}

/// Whether they are the same types in the same order.
#[cycle(same_type)]
fn same_types<A: Allocator>(types: &[SigType<A>], others: &[SigType<A>]) -> bool
    ensures { IsTrue result ↔ (type_trees_of types.now ≡ type_trees_of others.now) }
{
    if types.len() != others.len() {
        return false;
    }
    for (i, ty) in types.iter().enumerate() {
        if !same_type(ty, &others[i]) {
            return false;
        }
    }
    true
}

/// Whether a value is of a type.
#[cycle(has_type)]
pub fn has_type<A: Allocator>(value: &Value<A>, ty: &SigType<A>) -> bool
    ensures { IsTrue result ↔ (tree_type (value_tree value.now) ≡ type_tree ty.now) }
{
    match value {
        Value::Bytes(_) => match ty {
            SigType::Array(element) => same_type(&SigType::Byte, element),
            _ => false,
        },
        Value::Array(own, _) => match ty {
            SigType::Array(element) => same_type(own, element),
            _ => false,
        },
        Value::Struct(fields) => match ty {
            SigType::Struct(types) => have_types(fields, types),
            _ => false,
        },
        Value::Entry(entry) => match ty {
            SigType::Entry(key, held) => has_type(&entry.key, key) && has_type(&entry.value, held),
            _ => false,
        },
        _ => match plain_type_of(value) {
            Some(own) => same_type(&own, ty),
            None => unreachable!(),
        },
    }
}

/// Whether these are the values' types, in the same order.
#[cycle(has_type)]
fn have_types<A: Allocator>(values: &[Value<A>], types: &[SigType<A>]) -> bool
    ensures { IsTrue result ↔ (types_of (value_trees_of values.now) ≡ type_trees_of types.now) }
{
    if values.len() != types.len() {
        return false;
    }
    for (i, value) in values.iter().enumerate() {
        if !has_type(value, &types[i]) {
            return false;
        }
    }
    true
}
