//! Where values end, however far, and whether the arrays in them keep their limit.
#![tactic(auto, using(crate::proofs::MeasureSteps::measuring))]

ghost use Rattle.std.specs.Prelude.{◌≡◌, ℕ, ◌+◌, ◌-◌, ◌%◌, ◌<◌, ◌≤◌, IfSome, MatchOption};
ghost use Rattle.dbus_value_model.specs.Bytes.{gap_to};
ghost use Rattle.dbus_value_model.specs.SizeLimits.{capped, coded, IsCapped, IsMeasured, AreMeasured};
ghost use Rattle.dbus_value_model.specs.Sizes.{HasShortSignatures, HaveShortSignatures};
ghost use Rattle.dbus_value_model.specs.Values.{VariantValue};
ghost use Rattle.dbus_value_model.specs.ValueViews.{value_tree, value_trees_of};

use crate::signatures::signature_length;
use dbus_types::alignment;
use dbus_value_model::{Limits, MESSAGE_LIMIT, Value, padding_length};
use std::alloc::Allocator;

/// Offsets are exact below this, and known modulo 8 from here on: the limit of messages, and a step
/// to a boundary beyond.
const CAP: u64 = MESSAGE_LIMIT as u64 + 8;

/// Where a struct ends of a BYTE and a VARIANT that holds `value`, as each field of a message's
/// header is one, as [`measure`] says.
pub fn measure_header_field<A: Allocator>(value: &Value<A>, at: u64, limits: Limits) -> Option<u64>
    requires start { IsCapped at }
    requires signed { HasShortSignatures (VariantValue (value_tree value.now)) }
    ensures exact { (code : ℕ) → IsMeasured limits.array (coded code (value_tree value.now)) at
        result }
    ensures within { IfSome result IsCapped }
{
    let code_end = number(1, boundary(8, at));
    measure(value, text(1, signature_length(value), code_end), limits)
}

/// The offset that stands for `at`.
#[tactic(auto, unfolding(dbus_value_model::specs::SizeLimits::capped))]
fn cap(at: u64) -> u64
    ensures exact { result ≡ capped at }
    ensures within { IsCapped result }
{
    if at < CAP { at } else { CAP + at % 8 }
}

/// The next multiple of `alignment`.
fn boundary(alignment: u8, at: u64) -> u64
    requires start { IsCapped at }
    requires positive { 0 < alignment }
    ensures exact { result ≡ capped (at + gap_to alignment at) }
    ensures within { IsCapped result }
{
    cap(at + u64::from(padding_length(alignment, at)))
}

/// A number of `width` bytes, which is also its alignment.
fn number(width: u8, at: u64) -> u64
    requires start { IsCapped at }
    requires positive { 0 < width }
    ensures exact { result ≡ capped (at + (gap_to width at + width)) }
    ensures within { IsCapped result }
{
    cap(at + (u64::from(padding_length(width, at)) + u64::from(width)))
}

/// A text of `len` bytes, whose length has `width` bytes, and the byte after it.
fn text(width: u8, len: usize, at: u64) -> u64
    requires start { IsCapped at }
    requires positive { 0 < width }
    ensures exact { result ≡ capped (at + (gap_to width at + (width + (len + 1)))) }
    ensures within { IsCapped result }
{
    cap(number(width, at) + cap(len as u64) + 1)
}

/// Where an array ends whose contents begin at `start`, or nothing if they have more bytes than the
/// limits' array. `end` is where they would end from the remainder of `start` modulo 8 on: there
/// they have the same paddings, and an end that is exact up to the cap.
fn array_end(start: u64, end: u64, limits: Limits) -> Option<u64>
    requires start { IsCapped start }
    requires end { IsCapped end }
    ensures exact { MatchOption result (start % 8 + limits.array < end) (λ e.
        (end ≤ start % 8 + limits.array) × (e ≡ capped (start - start % 8 + end))) }
    ensures within { IfSome result IsCapped }
{
    let origin = start % 8;
    if end > origin + u64::from(limits.array) {
        return None;
    }
    Some(cap(start - origin + end))
}

/// Where a value ends that begins at `at`, in both byte orders, or nothing if the contents of an
/// array in it have more bytes than the limits' array. D-Bus Specification, "Marshaling (Wire
/// Format)".
///
/// `at` is an offset from the message's first byte. Offsets from 8 bytes past [`MESSAGE_LIMIT`] on
/// are kept modulo 8, which is all that padding needs: one there stands for each further out. The
/// end is given in the same form, so one measure goes on from another however long the whole is,
/// and it is over [`MESSAGE_LIMIT`] exactly if the true end is. Each signature in the value has at
/// most 255 bytes, as in every well-formed one.
#[cycle(size)]
pub fn measure<A: Allocator>(value: &Value<A>, at: u64, limits: Limits) -> Option<u64>
    requires start { IsCapped at }
    requires signed { HasShortSignatures (value_tree value.now) }
    ensures exact { IsMeasured limits.array (value_tree value.now) at result }
    ensures within { IfSome result IsCapped }
{
    match value {
        Value::Byte(_) => Some(number(1, at)),
        Value::I16(_) | Value::U16(_) => Some(number(2, at)),
        Value::Bool(_) | Value::I32(_) | Value::U32(_) | Value::Fd(_) => Some(number(4, at)),
        Value::I64(_) | Value::U64(_) | Value::Double(_) => Some(number(8, at)),
        Value::Str(words) | Value::Path(words) => Some(text(4, words.len(), at)),
        Value::Sig(types) => Some(text(1, types.len(), at)),
        Value::Bytes(bytes) => {
            let start = number(4, at);
            array_end(start, cap(start % 8 + cap(bytes.len() as u64)), limits)
        }
        Value::Array(element, items) => {
            let start = boundary(alignment(element), number(4, at));
            let end = measure_all(items, start % 8, limits)?;
            array_end(start, end, limits)
        }
        Value::Struct(fields) => measure_all(fields, boundary(8, at), limits),
        Value::Entry(entry) => {
            let key_end = measure(&entry.key, boundary(8, at), limits)?;
            measure(&entry.value, key_end, limits)
        }
        Value::Variant(inner) => measure(inner, text(1, signature_length(inner), at), limits),
    }
}

/// Where values end that follow one another from `at` on, as [`measure`] says.
#[cycle(size)]
pub fn measure_all<A: Allocator>(values: &[Value<A>], at: u64, limits: Limits) -> Option<u64>
    requires start { IsCapped at }
    requires signed { HaveShortSignatures (value_trees_of values.now) }
    ensures exact { AreMeasured limits.array (value_trees_of values.now) at result }
    ensures within { IfSome result IsCapped }
{
    let mut end = at;
    for value in values {
        end = measure(value, end, limits)?;
    }
    Some(end)
}
