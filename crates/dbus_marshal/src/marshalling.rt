//! Writing a value. D-Bus Specification, "Marshaling (Wire Format)".
#![tactic(auto, using(crate::proofs::Written::lengths, crate::proofs::Spells::spells))]

ghost use Rattle.std.specs.Prelude.{◌≡◌, ◌<◌, ◌≤◌, ◌^◌, ◌++◌, length, take, vec_capacity, None, OnOk, OnErr, IsOkUnless, MatchResult};
ghost use Rattle.dbus_types.specs.SigTypes.{type_tree};
ghost use Rattle.dbus_texts.specs.Types.{NumberType, BYTE};
ghost use Rattle.dbus_value_model.specs.declared.limits.TheConstants.{MESSAGE_LIMIT};
ghost use Rattle.dbus_value_model.specs.Specification.{specification};
ghost use Rattle.dbus_value_model.specs.SizeLimits.{with_value, with_values};
ghost use Rattle.dbus_value_model.specs.Sizes.{HasShortSignatures, HaveShortSignatures, sized};
ghost use Rattle.dbus_value_model.specs.Values.{ArrayValue};
ghost use Rattle.dbus_value_model.specs.Spelling.{spelling};
ghost use Rattle.dbus_value_model.specs.ValueViews.{value_tree, value_trees_of, byte_values};

use crate::signatures::write_variant_signature;
use crate::sizes::size_after_within;
use crate::writing::{
    overwrite_32, write_bytes, write_number, write_padding, write_signature, write_text,
};
use dbus_types::{SigType, alignment};
use dbus_value_model::{Limits, Order, Value, ValueFault};
use std::alloc::Allocator;

/// Appends a value's spelling, as [`put_within`] says under the limits of the specification.
///
/// ```rust
/// use dbus_value::{Order, Value, put};
///
/// let mut out = Vec::new(alloc);
/// put(&mut out, Order::Little, &Value::U32(1))?;
/// println!(rt; "{} bytes", out.len())?;
/// ```
pub fn put<A: Allocator>(
    out: &mut Vec<u8, A>,
    order: Order,
    value: &Value<A>,
) -> Result<(), ValueFault>
    requires start { length out.old.items ≤ MESSAGE_LIMIT }
    requires signed { HasShortSignatures (value_tree value.now) }
    ensures written { OnOk result
        (out.new.items ≡
        out.old.items ++ spelling order (length out.old.items) (value_tree value.now)) }
    ensures unchanged { OnErr result (out.new.items ≡ out.old.items) }
    ensures refused { MatchResult
        (sized specification (value_tree value.now) None (length out.old.items))
        (λ _. IsOkUnless result ValueFault.Memory) (λ f. result ≡ Err f) }
    ensures small { result ≡ Err ValueFault.Memory →
        vec_capacity out.old < length (with_value order (value_tree value.now) out.old.items) }
{
    put_within(out, order, value, Limits::specification())
}

/// Appends a value's spelling. The vector begins at the message's first byte, so its length is the
/// value's offset, and is at most the limits' message.
///
/// Each signature in the value has at most 255 bytes, as in every well-formed one. The error is
/// that of `size_after_within` at this offset, if that returns one; else `Memory`, only if the
/// vector's capacity is too small and an allocation failed. After an error the vector's bytes are
/// as they were.
#[tactic(auto, using(crate::proofs::SizeLaws::put_needs))]
pub fn put_within<A: Allocator>(
    out: &mut Vec<u8, A>,
    order: Order,
    value: &Value<A>,
    limits: Limits,
) -> Result<(), ValueFault>
    requires start { length out.old.items ≤ limits.message }
    requires signed { HasShortSignatures (value_tree value.now) }
    ensures written { OnOk result
        (out.new.items ≡
        out.old.items ++ spelling order (length out.old.items) (value_tree value.now)) }
    ensures unchanged { OnErr result (out.new.items ≡ out.old.items) }
    ensures refused { MatchResult (sized limits (value_tree value.now) None (length out.old.items))
        (λ _. IsOkUnless result ValueFault.Memory)
        (λ f. result ≡ Err f) }
    ensures small { result ≡ Err ValueFault.Memory →
        vec_capacity out.old < length (with_value order (value_tree value.now) out.old.items) }
{
    let start = out.len();
    let end = size_after_within(value, start as u64, limits)?;
    out.resize(end as usize, 0)?;
    write_value(out.as_mut_slice(), start, order, value);
    Ok(())
}

/// Writes a value's spelling at a place of bytes that have room for it, and gives the place where
/// it ends.
///
/// The bytes begin at the message's first one, and are fewer than 4,294,967,296, as they are within
/// a message's limit.
#[cycle(write)]
pub fn write_value<A: Allocator>(out: &mut [u8], at: usize, order: Order, value: &Value<A>) -> usize
    requires start { at ≤ length out.old }
    requires space { length (with_value order (value_tree value.now) (take at out.old)) ≤
        length out.old }
    requires fits { length out.old < 2 ^ 32 }
    requires signed { HasShortSignatures (value_tree value.now) }
    ensures written { take result out.new ≡
        with_value order (value_tree value.now) (take at out.old) }
    ensures within { result ≤ length out.new }
{
    match value {
        Value::Byte(n) => write_number(out, at, order, 1, u64::from(*n)),
        Value::Bool(b) => write_number(out, at, order, 4, u64::from(*b)),
        Value::I16(n) => write_number(out, at, order, 2, u64::from(n.cast_unsigned())),
        Value::U16(n) => write_number(out, at, order, 2, u64::from(*n)),
        Value::I32(n) => write_number(out, at, order, 4, u64::from(n.cast_unsigned())),
        Value::U32(n) => write_number(out, at, order, 4, u64::from(*n)),
        Value::Fd(n) => write_number(out, at, order, 4, u64::from(*n)),
        Value::I64(n) => write_number(out, at, order, 8, n.cast_unsigned()),
        Value::U64(n) => write_number(out, at, order, 8, *n),
        Value::Double(n) => write_number(out, at, order, 8, *n),
        Value::Str(text) => write_text(out, at, order, text.as_bytes()),
        Value::Path(text) => write_text(out, at, order, text.as_bytes()),
        Value::Sig(text) => write_signature(out, at, text.as_bytes()),
        Value::Bytes(bytes) => write_byte_array(out, at, order, bytes),
        Value::Array(element, items) => write_array(out, at, order, items, element),
        Value::Struct(fields) => {
            let place = write_padding(out, at, 8);
            write_values(out, place, order, fields)
        }
        Value::Entry(entry) => {
            let place = write_padding(out, at, 8);
            let place = write_value(out, place, order, &entry.key);
            write_value(out, place, order, &entry.value)
        }
        Value::Variant(inner) => {
            let place = write_variant_signature(out, at, inner);
            write_value(out, place, order, inner)
        }
    }
}

/// Writes values one after the other.
#[cycle(write)]
pub fn write_values<A: Allocator>(
    out: &mut [u8],
    at: usize,
    order: Order,
    values: &[Value<A>],
) -> usize
    requires start { at ≤ length out.old }
    requires space { length (with_values order (value_trees_of values.now) (take at out.old)) ≤
        length out.old }
    requires fits { length out.old < 2 ^ 32 }
    requires signed { HaveShortSignatures (value_trees_of values.now) }
    ensures written { take result out.new ≡
        with_values order (value_trees_of values.now) (take at out.old) }
    ensures within { result ≤ length out.new }
{
    let mut place = at;
    for value in values {
        place = write_value(out, place, order, value);
    }
    place
}

/// Writes an array, whose length is known once its items are written.
#[cycle(write)]
fn write_array<A: Allocator>(
    out: &mut [u8],
    at: usize,
    order: Order,
    items: &[Value<A>],
    element: &SigType<A>,
) -> usize
    requires start { at ≤ length out.old }
    requires space { length (with_value order
        (ArrayValue (type_tree element.now) (value_trees_of items.now)) (take at out.old)) ≤
        length out.old }
    requires fits { length out.old < 2 ^ 32 }
    requires signed { HaveShortSignatures (value_trees_of items.now) }
    ensures written { take result out.new ≡
        with_value order (ArrayValue (type_tree element.now) (value_trees_of items.now))
        (take at out.old) }
    ensures within { result ≤ length out.new }
{
    let counted = write_number(out, at, order, 4, 0);
    let start = write_padding(out, counted, alignment(element));
    let end = write_values(out, start, order, items);
    overwrite_32(out, counted - 4, order, (end - start) as u32);
    end
}

/// Writes an array of bytes.
fn write_byte_array(out: &mut [u8], at: usize, order: Order, bytes: &[u8]) -> usize
    requires start { at ≤ length out.old }
    requires space { length
        (with_value order (ArrayValue (NumberType BYTE) (byte_values bytes.now))
        (take at out.old)) ≤
        length out.old }
    ensures written { take result out.new ≡
        with_value order (ArrayValue (NumberType BYTE) (byte_values bytes.now)) (take at out.old) }
    ensures within { result ≤ length out.new }
{
    let place = write_number(out, at, order, 4, bytes.len() as u64);
    write_bytes(out, place, bytes)
}
