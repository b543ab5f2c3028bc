//! How values are laid out: where the number, the text or the parts of each are.
#![tactic(auto)]

ghost use Rattle.std.specs.Prelude.{◌≡◌, ◌<◌, ℕ, ◌⊎◌, List, slice_index};
ghost use Rattle.dbus_value_model.specs.Bytes.{gap_to};
ghost use Rattle.dbus_value_model.specs.Values.{ValueTree};
ghost use Rattle.dbus_walk.specs.Standing.{StandsAt, StandsThere};
ghost use Rattle.dbus_walk.specs.Containers.{IsArrayAt, IsLaidOut};

use crate::numbers::number_width;
use crate::spot::{Layout, MessageBytes, Run, Spot};
use dbus_types::boundary;
use dbus_value_model::gap;

/// How the value at a spot is laid out. Nothing in it is gone through. D-Bus Specification,
/// "Marshaling (Wire Format)".
#[inline(always)]
pub fn layout<'a>(source: &MessageBytes<'a>, spot: &Spot<'_>) -> Layout<'a>
    requires stands { StandsThere source.now spot.now }
    ensures { (v : ValueTree) (rest : List ℕ) → StandsAt source.now spot.now v rest →
        IsLaidOut source.now spot.now v rest result }
{
    let code = spot.types[0];
    let size = number_width(code);
    if size > 0 {
        return Layout::Number {
            start: spot.at + number_gap(size, spot.at),
            size,
        };
    }
    match code {
        b's' => long_text(source, spot),
        b'o' => long_text(source, spot),
        b'g' => Layout::ShortText {
            size: usize::from(source.bytes[spot.at]),
        },
        b'v' => variant(source, spot),
        b'a' => Layout::Array(array(source, spot)),
        b'{' => Layout::Entry {
            start: spot.at + parts_gap(spot.at),
        },
        _ => Layout::Struct {
            start: spot.at + parts_gap(spot.at),
        },
    }
}

/// How far it is to where a number of so many bytes begins: [`gap`], asked so that the compiler
/// leaves out what the code that says the width rules out.
#[inline(always)]
fn number_gap(size: u8, at: usize) -> usize
    requires some { 0 < size }
    ensures { result ≡ gap_to size at }
{
    if size == 4 {
        return gap(4, at);
    }
    if size == 8 {
        return gap(8, at);
    }
    gap(size, at)
}

/// How far it is to where the parts of a struct or a dict entry begin: [`gap`], in three
/// instructions.
#[inline(always)]
#[tactic(auto, unfolding(dbus_value_model::specs::Bytes::gap_to))]
fn parts_gap(at: usize) -> usize
    ensures { result ≡ gap_to 8 at }
{
    (8 - at % 8) % 8
}

/// A STRING or an OBJECT_PATH.
#[inline]
fn long_text<'a>(source: &MessageBytes<'a>, spot: &Spot<'_>) -> Layout<'a>
    requires stands { StandsThere source.now spot.now }
    requires code { (slice_index spot.now.types.now 0 ≡ 115) ⊎ (slice_index spot.now.types.now 0 ≡ 111) }
    ensures { (v : ValueTree) (rest : List ℕ) → StandsAt source.now spot.now v rest →
        IsLaidOut source.now spot.now v rest result }
{
    let start = spot.at + gap(4, spot.at);
    Layout::LongText {
        start,
        size: source.order.u32_at(source.bytes, start) as usize,
    }
}

/// A VARIANT.
#[inline]
fn variant<'a>(source: &MessageBytes<'a>, spot: &Spot<'_>) -> Layout<'a>
    requires stands { StandsThere source.now spot.now }
    requires code { slice_index spot.now.types.now 0 ≡ 118 }
    ensures { (v : ValueTree) (rest : List ℕ) → StandsAt source.now spot.now v rest →
        IsLaidOut source.now spot.now v rest result }
{
    let size = usize::from(source.bytes[spot.at]);
    let first = spot.at + 1;
    Layout::Variant {
        types: &source.bytes[first..first + size],
        at: first + size + 1,
    }
}

/// Where the elements of an array are.
#[inline(always)]
fn array(source: &MessageBytes<'_>, spot: &Spot<'_>) -> Run
    requires stands { StandsThere source.now spot.now }
    requires code { slice_index spot.now.types.now 0 ≡ 97 }
    ensures { (v : ValueTree) (rest : List ℕ) → StandsAt source.now spot.now v rest →
        IsArrayAt source.now spot.now v rest result }
{
    let code = spot.types[1];
    let start = spot.at + gap(4, spot.at);
    let after = start + 4;
    let first = after + gap(boundary(code), after);
    let n = source.order.u32_at(source.bytes, start) as usize;
    Run {
        start,
        first,
        end: first + n,
        size: number_width(code),
    }
}
