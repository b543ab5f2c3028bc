//! Whether the indexes of file descriptors in values are below a number.
#![tactic(auto)]

ghost use Rattle.std.specs.Prelude.{◌↔◌, Some, IsTrue};
ghost use Rattle.dbus_value_model.specs.FdIndexes.{AreIndexesBelow, AreAllBelow};
ghost use Rattle.dbus_value_model.specs.FirstPast.{IsFirstPast};
ghost use Rattle.dbus_value_model.specs.ValueViews.{value_tree, value_trees_of};

use crate::value::Value;
use std::alloc::Allocator;

/// The number, counted from 0, of the first value that has an index of a file descriptor not below
/// `index_limit`, at any depth: in variants, arrays, structs and dict entries too. Nothing if every
/// index is below it, or if `index_limit` is nothing. D-Bus Specification, "Basic types".
pub fn first_past<A: Allocator>(values: &[Value<A>], index_limit: Option<u32>) -> Option<usize>
    ensures { IsFirstPast index_limit 0 (value_trees_of values.now) result }
{
    let limit = match index_limit {
        Some(limit) => limit,
        None => return None,
    };
    for (i, value) in values.iter().enumerate() {
        if !is_below(value, limit) {
            return Some(i);
        }
    }
    None
}

/// Whether every index of a file descriptor anywhere in a value is below a number.
#[cycle(below)]
fn is_below<A: Allocator>(value: &Value<A>, limit: u32) -> bool
    ensures { IsTrue result ↔ AreIndexesBelow (Some limit) (value_tree value.now) }
{
    match value {
        Value::Fd(index) => *index < limit,
        Value::Bytes(_) => true,
        Value::Array(_, items) => are_below(items, limit),
        Value::Struct(fields) => are_below(fields, limit),
        Value::Entry(entry) => is_below(&entry.key, limit) && is_below(&entry.value, limit),
        Value::Variant(inner) => is_below(inner, limit),
        _ => true,
    }
}

/// Whether all indexes of descriptors in the values are below the limit.
#[cycle(below)]
fn are_below<A: Allocator>(values: &[Value<A>], limit: u32) -> bool
    ensures { IsTrue result ↔ AreAllBelow (Some limit) (value_trees_of values.now) }
{
    for value in values {
        if !is_below(value, limit) {
            return false;
        }
    }
    true
}
