//! Texts as values, from a message's bytes. D-Bus Specification, "Marshaling (Wire Format)".
#![tactic(auto)]

ghost use Rattle.std.specs.Prelude.{◌≡◌, ℕ, ◌+◌, ◌⊎◌, List, take, drop, slice_index, IfOk};
ghost use Rattle.dbus_value_model.specs.Bytes.{gap_to};
ghost use Rattle.dbus_value_model.specs.Reading.{number_of};
ghost use Rattle.dbus_value_model.specs.Values.{ValueTree};
ghost use Rattle.dbus_walk.specs.Standing.{StandsAt, StandsThere};
ghost use Rattle.dbus_unmarshal.specs.Builds.{IsBuilt};

use dbus_value_model::Value;
use dbus_walk::{MessageBytes, Spot, text_in};
use std::alloc::{AllocError, Allocator};

/// The STRING or OBJECT_PATH of `size` bytes at a spot. Its length is at `start`.
#[inline(always)]
pub(crate) fn long_text_at<A: Allocator + Copy>(
    alloc: A,
    source: &MessageBytes<'_>,
    spot: &Spot<'_>,
    start: usize,
    size: usize,
) -> Result<Value<A>, AllocError>
    requires stands { StandsThere source.now spot.now }
    requires code { (slice_index spot.now.types.now 0 ≡ 115) ⊎ (slice_index spot.now.types.now 0 ≡ 111) }
    requires begins { start ≡ spot.now.at + gap_to 4 spot.now.at }
    requires counts { size ≡ number_of source.now.order (take 4 (drop start source.now.bytes.now)) }
    ensures { (v : ValueTree) (rest : List ℕ) → StandsAt source.now spot.now v rest →
        IfOk result (IsBuilt v) }
{
    let text = String::from_str(alloc, text_in(source.bytes, start + 4, size))?;
    if spot.types[0] == b's' {
        return Ok(Value::Str(text));
    }
    Ok(Value::Path(text))
}

/// The SIGNATURE of `size` bytes at a spot.
#[inline(always)]
pub(crate) fn short_text_at<A: Allocator + Copy>(
    alloc: A,
    source: &MessageBytes<'_>,
    spot: &Spot<'_>,
    size: usize,
) -> Result<Value<A>, AllocError>
    requires stands { StandsThere source.now spot.now }
    requires code { slice_index spot.now.types.now 0 ≡ 103 }
    requires counts { size ≡ slice_index source.now.bytes.now spot.now.at }
    ensures { (v : ValueTree) (rest : List ℕ) → StandsAt source.now spot.now v rest →
        IfOk result (IsBuilt v) }
{
    let text = String::from_str(alloc, text_in(source.bytes, spot.at + 1, size))?;
    Ok(Value::Sig(text))
}
