//! Values placed among the parts of a container, and containers built of their parts. D-Bus
//! Specification, "Container types".
#![tactic(auto)]

ghost use Rattle.std.specs.Prelude.{◌≡◌, List, ◌∷◌, [], ◌++◌, IfOk};
ghost use Rattle.dbus_unmarshal.specs.Builds.{IsBuilt, AreBuilt, Holds, Builds, Pushes};
ghost use Rattle.dbus_value_model.specs.Values.{ValueTree, ValueTrees, VariantValue, StructValue};

use crate::gathered::Gathered;
use dbus_types::SigType;
use dbus_value_model::{DictEntry, Value};
use std::alloc::{AllocError, Allocator};
use std::mem;

/// Appends a value, for which room is made if there is none.
#[inline(never)]
fn push_growing<A: Allocator>(
    values: &mut Vec<Value<A>, A>,
    made: Value<A>,
) -> Result<(), AllocError>
    ensures { IfOk result (λ _. values.new.items ≡ values.old.items ++ made ∷ []) }
{
    values.push(made)?;
    Ok(())
}

/// Appends a value. If there is room, nothing is copied but the value.
#[inline(always)]
pub(crate) fn push_part<A: Allocator>(
    values: &mut Vec<Value<A>, A>,
    made: Value<A>,
) -> Result<(), AllocError>
    ensures { IfOk result (λ _. values.new.items ≡ values.old.items ++ made ∷ []) }
{
    if values.len() < values.capacity() {
        values.push_reserved(made);
        return Ok(());
    }
    push_growing(values, made)
}

/// Puts what is gathered by now in the place of what was gathered before.
#[inline(always)]
fn put<A: Allocator>(gathered: &mut Gathered<A>, next: Gathered<A>)
    ensures { gathered.new ≡ next }
{
    *gathered = next;
}

/// Places a value among the parts of a container, after those that are gathered.
#[inline(always)]
pub(crate) fn place<A: Allocator + Copy>(
    alloc: A,
    gathered: &mut Gathered<A>,
    made: Value<A>,
) -> Result<(), AllocError>
    ensures { IfOk result (λ _. Pushes gathered.old made gathered.new) }
{
    match gathered {
        Gathered::Fields(_, values) => push_part(values, made),
        Gathered::Elements(_, values) => push_part(values, made),
        Gathered::Variant(_) => {
            put(gathered, Gathered::Held(made));
            Ok(())
        }
        Gathered::Entry(_, value) => {
            let value = mem::replace(value, SigType::Byte);
            put(gathered, Gathered::Key(value, made));
            Ok(())
        }
        Gathered::Key(_, key) => {
            let key = mem::replace(key, Value::Byte(0));
            let entry = Box::new(alloc, DictEntry { key, value: made })?;
            put(gathered, Gathered::Both(entry));
            Ok(())
        }
        // A variant has no second part, and a dict entry no third.
        _ => Ok(()),
    }
}

/// The container that has these parts.
pub(crate) fn built<A: Allocator + Copy>(
    alloc: A,
    held: Gathered<A>,
) -> Result<Value<A>, AllocError>
    ensures { (v : ValueTree) → IfOk result (λ r. Builds held v r) }
{
    match held {
        Gathered::Held(value) => Ok(Value::Variant(Box::new(alloc, value)?)),
        Gathered::Both(entry) => Ok(Value::Entry(entry)),
        Gathered::Fields(_, values) => Ok(Value::Struct(values)),
        Gathered::Elements(item, values) => Ok(Value::Array(item, values)),
        // All parts of a container are gathered where it closes.
        _ => Ok(Value::Byte(0)),
    }
}

/// The value that a variant holds.
pub(crate) fn held_value<A: Allocator>(held: Gathered<A>) -> Value<A>
    requires { (v : ValueTree) × Holds held (VariantValue v) (v ∷ []) }
    ensures { (v : ValueTree) → Holds held (VariantValue v) (v ∷ []) → IsBuilt v result }
{
    match held {
        Gathered::Held(value) => value,
        _ => unreachable!(),
    }
}

/// The fields of a struct.
pub(crate) fn fields_of<A: Allocator>(held: Gathered<A>) -> Vec<Value<A>, A>
    requires { (vs : ValueTrees) × (xs : List ValueTree) × Holds held (StructValue vs) xs }
    ensures { (vs : ValueTrees) (xs : List ValueTree) → Holds held (StructValue vs) xs →
        AreBuilt xs result.items }
{
    match held {
        Gathered::Fields(_, values) => values,
        _ => unreachable!(),
    }
}
