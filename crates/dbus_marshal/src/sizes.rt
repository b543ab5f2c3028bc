//! Where a value ends, before it is written.
#![tactic(auto, using(crate::proofs::Sizing::sizing))]

ghost use Rattle.std.specs.Prelude.{◌≡◌, ◌≤◌, ◌<◌, ◌^◌, IfOk, IfSome, None};
ghost use Rattle.dbus_value_model.specs.declared.limits.TheConstants.{MESSAGE_LIMIT};
ghost use Rattle.dbus_value_model.specs.Specification.{specification};
ghost use Rattle.dbus_value_model.specs.Sizes.{HasShortSignatures, HaveShortSignatures, item, padding, narrowed, sized, sizes, ◌⊳◌};
ghost use Rattle.dbus_value_model.specs.ValueViews.{value_tree, value_trees_of, byte_values};

use crate::signatures::signature_length;
use dbus_types::alignment;
use dbus_value_model::{Limits, Value, ValueFault, padding_length};
use std::alloc::Allocator;

/// The offset where a value ends that begins at `offset`, as [`size_after_within`] says under the
/// limits of the specification.
pub fn size_after<A: Allocator>(value: &Value<A>, offset: u64) -> Result<u64, ValueFault>
    requires start { offset ≤ MESSAGE_LIMIT }
    requires signed { HasShortSignatures (value_tree value.now) }
    ensures exact { result ≡ sized specification (value_tree value.now) None offset }
    ensures within { IfOk result (λ e. e ≤ MESSAGE_LIMIT) }
{
    size_after_within(value, offset, Limits::specification())
}

/// The offset where a value ends that begins at `offset`, in both byte orders.
/// D-Bus Specification, "Marshaling (Wire Format)".
///
/// `offset` counts from the message's first byte and is at most the limits' message. Each signature
/// in the value has at most 255 bytes, as in every well-formed one.
///
/// The first item, in order, whose end passes a bound is refused: `ArrayTooLong` if that is the
/// bound of an open array, the limits' array from the start of its contents, else `TooLong` if it
/// is the limits' message. A padding, a number, a length, a text and the byte after a text are an
/// item each.
pub fn size_after_within<A: Allocator>(
    value: &Value<A>,
    offset: u64,
    limits: Limits,
) -> Result<u64, ValueFault>
    requires start { offset ≤ limits.message }
    requires signed { HasShortSignatures (value_tree value.now) }
    ensures exact { result ≡ sized limits (value_tree value.now) None offset }
    ensures within { IfOk result (λ e. e ≤ limits.message) }
{
    size_value(value, None, offset, limits)
}

/// One item of `len` bytes. The contents of the open arrays have to end at `bound`.
#[tactic(auto, unfolding(dbus_value_model::specs::Sizes::item))]
fn item(limits: Limits, bound: Option<u64>, len: usize, offset: u64) -> Result<u64, ValueFault>
    requires start { offset ≤ limits.message }
    requires bounded { IfSome bound (λ b. b < 2 ^ 28) }
    ensures exact { result ≡ item limits bound len offset }
    ensures within { IfOk result (λ e. e ≤ limits.message) }
{
    let end = offset.saturating_add(len as u64);
    if let Some(bound) = bound
        && bound < end
    {
        return Err(ValueFault::ArrayTooLong);
    }
    if u64::from(limits.message) < end {
        return Err(ValueFault::TooLong);
    }
    Ok(end)
}

/// The padding up to the next multiple of `alignment`, if there is any.
#[tactic(auto, unfolding(dbus_value_model::specs::Sizes::padding))]
fn padding(
    limits: Limits,
    bound: Option<u64>,
    alignment: u8,
    offset: u64,
) -> Result<u64, ValueFault>
    requires start { offset ≤ limits.message }
    requires bounded { IfSome bound (λ b. b < 2 ^ 28) }
    requires positive { 0 < alignment }
    ensures exact { result ≡ padding limits bound alignment offset }
    ensures within { IfOk result (λ e. e ≤ limits.message) }
{
    let count = padding_length(alignment, offset);
    if count == 0 {
        return Ok(offset);
    }
    item(limits, bound, usize::from(count), offset)
}

/// A number of `width` bytes, which is also its alignment.
fn number(limits: Limits, bound: Option<u64>, width: u8, offset: u64) -> Result<u64, ValueFault>
    requires start { offset ≤ limits.message }
    requires bounded { IfSome bound (λ b. b < 2 ^ 28) }
    requires positive { 0 < width }
    ensures exact { result ≡ (padding limits bound width ⊳ item limits bound width) offset }
    ensures within { IfOk result (λ e. e ≤ limits.message) }
{
    let offset = padding(limits, bound, width, offset)?;
    item(limits, bound, usize::from(width), offset)
}

/// A text of `len` bytes, whose length has `width` bytes, and the byte after it.
fn text(
    limits: Limits,
    bound: Option<u64>,
    width: u8,
    len: usize,
    offset: u64,
) -> Result<u64, ValueFault>
    requires start { offset ≤ limits.message }
    requires bounded { IfSome bound (λ b. b < 2 ^ 28) }
    requires positive { 0 < width }
    ensures exact { result ≡
        (padding limits bound width ⊳
        item limits bound width ⊳ item limits bound len ⊳ item limits bound 1) offset }
    ensures within { IfOk result (λ e. e ≤ limits.message) }
{
    let offset = number(limits, bound, width, offset)?;
    let offset = item(limits, bound, len, offset)?;
    item(limits, bound, 1, offset)
}

/// Bytes, each an item.
fn size_bytes(
    bytes: &[u8],
    bound: Option<u64>,
    offset: u64,
    limits: Limits,
) -> Result<u64, ValueFault>
    requires start { offset ≤ limits.message }
    requires bounded { IfSome bound (λ b. b < 2 ^ 28) }
    ensures exact { result ≡ sizes limits (byte_values bytes.now) bound offset }
    ensures within { IfOk result (λ e. e ≤ limits.message) }
{
    if bytes.is_empty() {
        return Ok(offset);
    }
    let end = offset.saturating_add(bytes.len() as u64);
    // The lesser of the bounds is the one that the bytes come to first.
    let array_end = bound.unwrap_or(u64::MAX);
    let limit = u64::from(limits.message);
    if array_end <= limit && array_end < end {
        Err(ValueFault::ArrayTooLong)
    } else if limit < end {
        Err(ValueFault::TooLong)
    } else {
        Ok(end)
    }
}

/// The least bound within an array whose contents start at `offset`.
#[tactic(auto, unfolding(dbus_value_model::specs::Sizes::narrowed))]
fn narrowed(limits: Limits, bound: Option<u64>, offset: u64) -> Option<u64>
    requires start { offset ≤ limits.message }
    requires bounded { IfSome bound (λ b. b < 2 ^ 28) }
    ensures exact { result ≡ narrowed limits bound offset }
    ensures within { IfSome result (λ b. b < 2 ^ 28) }
{
    let own = offset + u64::from(limits.array);
    match bound {
        None => Some(own),
        Some(outer) => Some(outer.min(own)),
    }
}

/// The offset after the value that begins at `offset`, or the first limit that it is over.
#[cycle(size)]
fn size_value<A: Allocator>(
    value: &Value<A>,
    bound: Option<u64>,
    offset: u64,
    limits: Limits,
) -> Result<u64, ValueFault>
    requires start { offset ≤ limits.message }
    requires bounded { IfSome bound (λ b. b < 2 ^ 28) }
    requires signed { HasShortSignatures (value_tree value.now) }
    ensures exact { result ≡ sized limits (value_tree value.now) bound offset }
    ensures within { IfOk result (λ e. e ≤ limits.message) }
{
    match value {
        Value::Byte(_) => number(limits, bound, 1, offset),
        Value::I16(_) | Value::U16(_) => number(limits, bound, 2, offset),
        Value::Bool(_) | Value::I32(_) | Value::U32(_) | Value::Fd(_) => number(
            limits, bound, 4, offset,
        ),
        Value::I64(_) | Value::U64(_) | Value::Double(_) => number(limits, bound, 8, offset),
        Value::Str(words) | Value::Path(words) => text(limits, bound, 4, words.len(), offset),
        Value::Sig(types) => text(limits, bound, 1, types.len(), offset),
        Value::Bytes(bytes) => {
            let offset = number(limits, bound, 4, offset)?;
            size_bytes(bytes, narrowed(limits, bound, offset), offset, limits)
        }
        Value::Array(element, items) => {
            let offset = number(limits, bound, 4, offset)?;
            let offset = padding(limits, bound, alignment(element), offset)?;
            size_values(items, narrowed(limits, bound, offset), offset, limits)
        }
        Value::Struct(fields) => {
            let offset = padding(limits, bound, 8, offset)?;
            size_values(fields, bound, offset, limits)
        }
        Value::Entry(entry) => {
            let offset = padding(limits, bound, 8, offset)?;
            let offset = size_value(&entry.key, bound, offset, limits)?;
            size_value(&entry.value, bound, offset, limits)
        }
        Value::Variant(inner) => {
            let offset = text(limits, bound, 1, signature_length(inner), offset)?;
            size_value(inner, bound, offset, limits)
        }
    }
}

/// The offset after the values that begin at `offset`, or the first limit that one is over.
#[cycle(size)]
fn size_values<A: Allocator>(
    values: &[Value<A>],
    bound: Option<u64>,
    offset: u64,
    limits: Limits,
) -> Result<u64, ValueFault>
    requires start { offset ≤ limits.message }
    requires bounded { IfSome bound (λ b. b < 2 ^ 28) }
    requires signed { HaveShortSignatures (value_trees_of values.now) }
    ensures exact { result ≡ sizes limits (value_trees_of values.now) bound offset }
    ensures within { IfOk result (λ e. e ≤ limits.message) }
{
    let mut at = offset;
    for value in values {
        at = size_value(value, bound, at, limits)?;
    }
    Ok(at)
}
