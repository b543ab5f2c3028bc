//! Numbers as values, from a message's bytes. D-Bus Specification, "Marshaling (Wire Format)".
#![tactic(auto, using(crate::proofs::Leaves::numbers))]

ghost use Rattle.std.specs.Prelude.{◌≡◌, ℕ, ◌+◌, ◌<◌, ◌≤◌, List, length, take, drop, slice_index, IsTrue, IfOk};
ghost use Rattle.dbus_texts.specs.Types.{NumberCode, TypeTree, number_code};
ghost use Rattle.dbus_types.specs.Alignments.{width};
ghost use Rattle.dbus_types.specs.SignatureCodes.{first_code};
ghost use Rattle.dbus_value_model.specs.Bytes.{gap_to};
ghost use Rattle.dbus_value_model.specs.PackedBytes.{keeps_bytes};
ghost use Rattle.dbus_value_model.specs.Reading.{number_of};
ghost use Rattle.dbus_value_model.specs.ValueViews.{value_tree};
ghost use Rattle.dbus_value_model.specs.Values.{ValueTree, ValueTrees, NumberValue, IsNumber, value_trees};
ghost use Rattle.dbus_walk.specs.Standing.{ElementsStandAt, ElementsStandThere};
ghost use Rattle.dbus_walk.specs.Containers.{number_width};
ghost use Rattle.dbus_unmarshal.specs.Builds.{AreBuilt};

use crate::placing::push_part;
use dbus_value_model::Value;
use dbus_walk::{MessageBytes, Spot};
use std::alloc::{AllocError, Allocator};

/// The number that begins at `start`, of the type that has this code.
#[inline(always)]
pub(crate) fn number_at<A: Allocator>(source: &MessageBytes<'_>, start: usize, code: u8) -> Value<A>
    requires inside { (k : NumberCode) → number_code k ≡ code → start + width k ≤ length source.now.bytes.now }
    requires known { (k : NumberCode) × (number_code k ≡ code) }
    ensures built { (k : NumberCode) (n : ℕ) → number_code k ≡ code → IsNumber k n →
        number_of source.now.order (take (width k) (drop start source.now.bytes.now)) ≡ n →
        value_tree result ≡ NumberValue k n }
    ensures packed { IsTrue (keeps_bytes result) }
{
    let bytes = source.bytes;
    match code {
        b'y' => Value::Byte(bytes[start]),
        b'b' => Value::Bool(source.order.u32_at(bytes, start) == 1),
        b'n' => Value::I16(source.order.u16_at(bytes, start).cast_signed()),
        b'q' => Value::U16(source.order.u16_at(bytes, start)),
        b'i' => Value::I32(source.order.u32_at(bytes, start).cast_signed()),
        b'u' => Value::U32(source.order.u32_at(bytes, start)),
        b'x' => Value::I64(source.order.u64_at(bytes, start).cast_signed()),
        b't' => Value::U64(source.order.u64_at(bytes, start)),
        b'd' => Value::Double(source.order.u64_at(bytes, start)),
        _ => Value::Fd(source.order.u32_at(bytes, start)),
    }
}

/// The numbers of `size` bytes each that follow one another from a spot on up to `end`. Room is
/// made for all of them at once.
pub(crate) fn numbers_up_to<A: Allocator + Copy>(
    alloc: A,
    source: &MessageBytes<'_>,
    spot: &Spot<'_>,
    end: usize,
    size: u8,
) -> Result<Vec<Value<A>, A>, AllocError>
    requires stand { ElementsStandThere source.now spot.now end }
    requires some { 0 < size }
    requires wide { (t : TypeTree) → first_code t ≡ slice_index spot.now.types.now 0 →
        size ≡ number_width t }
    requires aligned { gap_to size spot.now.at ≡ 0 }
    ensures { (vs : ValueTrees) (rest : List ℕ) → ElementsStandAt source.now spot.now end vs rest →
        IfOk result (λ r. (xs : List ValueTree) × (vs ≡ value_trees xs) × AreBuilt xs r.items) }
{
    let code = spot.types[0];
    let width = usize::from(size);
    let mut values = Vec::with_capacity(alloc, (end - spot.at) / width)?;
    let mut place = spot.at;
    while place < end {
        push_part(&mut values, number_at(source, place, code))?;
        place += width;
    }
    Ok(values)
}
