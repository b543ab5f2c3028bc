//! How numbers and arrays are seen.
#![tactic(auto)]

ghost use Rattle.std.specs.Prelude.{◌≡◌, ◌+◌, ◌<◌, ◌≤◌, ℕ, List, length, take, drop};
ghost use Rattle.dbus_texts.specs.Types.{NumberCode, number_code};
ghost use Rattle.dbus_types.specs.Alignments.{width};
ghost use Rattle.dbus_value_model.specs.Reading.{number_of};
ghost use Rattle.dbus_value_model.specs.Values.{ValueTree, NumberValue, IsNumber};
ghost use Rattle.dbus_walk.specs.Containers.{IsArrayAt};
ghost use Rattle.dbus_walk.specs.Standing.{StandsAt, StandsThere};
ghost use Rattle.dbus_values.specs.Seen.{AreSeenInside, IsSeen, weight_in};
ghost use Rattle.dbus_values.specs.States.{weight};

use crate::elements::Elements;
use crate::view::ValueView;
use dbus_walk::{MessageBytes, Run, Spot};

/// How an array is seen, whose elements are there.
pub(crate) fn array_view<'a>(source: &MessageBytes<'a>, spot: &Spot<'a>, run: Run) -> ValueView<'a>
    requires stands { StandsThere source.now spot.now }
    requires few { length spot.now.types.now ≤ 255 }
    requires laid { (v : ValueTree) (rest : List ℕ) → StandsAt source.now spot.now v rest →
        IsArrayAt source.now spot.now v rest run }
    ensures seen { (v : ValueTree) (rest : List ℕ) → StandsAt source.now spot.now v rest → IsSeen result v }
    ensures parts { (v : ValueTree) (rest : List ℕ) → StandsAt source.now spot.now v rest →
        AreSeenInside source.now.order source.now.bytes.now spot.now.at v result }
    ensures less { weight_in result < weight spot.now.depth_left spot.now.types.now }
{
    // Of all numbers only a BYTE has one byte.
    if run.size == 1 {
        return ValueView::Bytes(&source.bytes[run.first..run.end]);
    }
    ValueView::Array(Elements::new(source, run, &spot.types[1..], spot.depth_left - 1))
}

/// How the number is seen that begins at `start`, of the type that has this code.
#[inline]
pub(crate) fn number_view<'a>(source: &MessageBytes<'_>, start: usize, code: u8) -> ValueView<'a>
    requires inside { (k : NumberCode) → number_code k ≡ code → start + width k ≤ length source.now.bytes.now }
    requires known { (k : NumberCode) × (number_code k ≡ code) }
    ensures seen { (k : NumberCode) (n : ℕ) → number_code k ≡ code → IsNumber k n →
        number_of source.now.order (take (width k) (drop start source.now.bytes.now)) ≡ n →
        IsSeen result (NumberValue k n) }
    ensures none { weight_in result ≡ 0 }
{
    let bytes = source.bytes;
    match code {
        b'y' => ValueView::Byte(bytes[start]),
        b'b' => ValueView::Bool(source.order.u32_at(bytes, start) == 1),
        b'n' => ValueView::I16(source.order.u16_at(bytes, start).cast_signed()),
        b'q' => ValueView::U16(source.order.u16_at(bytes, start)),
        b'i' => ValueView::I32(source.order.u32_at(bytes, start).cast_signed()),
        b'u' => ValueView::U32(source.order.u32_at(bytes, start)),
        b'x' => ValueView::I64(source.order.u64_at(bytes, start).cast_signed()),
        b't' => ValueView::U64(source.order.u64_at(bytes, start)),
        b'd' => ValueView::Double(source.order.u64_at(bytes, start)),
        _ => ValueView::Fd(source.order.u32_at(bytes, start)),
    }
}
