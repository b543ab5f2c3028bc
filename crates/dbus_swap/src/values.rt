//! Values of any type, byteswapped in the copy. D-Bus Specification, "Marshaling (Wire Format)".
#![tactic(auto)]

ghost use Rattle.std.specs.Prelude.{◌≡◌, ℕ, ◌⊎◌, List, length, slice_index};
ghost use Rattle.dbus_types.specs.SignatureCodes.{AreLengths};
ghost use Rattle.dbus_value_model.specs.Values.{ValueTree, ValueTrees};
ghost use Rattle.dbus_value_model.specs.Spelling.{spelling, spellings};
ghost use Rattle.dbus_walk.specs.Standing.{StandsAt, StandsThere, AllStandAt, AllStandThere, end_of};
ghost use Rattle.dbus_swap.specs.Byteswapping.{other, Replaces};

use crate::byteswapper::Byteswapper;
use crate::numbers::byteswap_4;
use dbus_value_model::gap;
use dbus_walk::{MessageBytes, Spot, walk_value, walk_values};

/// Byteswaps the length of the STRING or OBJECT_PATH at a spot, as `byteswap_value` does.
fn byteswap_text(source: &MessageBytes<'_>, out: &mut [u8], spot: &Spot<'_>) -> usize
    requires stands { StandsThere source.now spot.now }
    requires code { (slice_index spot.now.types.now 0 ≡ 115) ⊎ (slice_index spot.now.types.now 0 ≡ 111) }
    requires as_long { length out.old ≡ length source.now.bytes.now }
    ensures byteswapped { (v : ValueTree) (rest : List ℕ) → StandsAt source.now spot.now v rest →
        Replaces spot.now.at (spelling source.now.order spot.now.at v) (spelling (other source.now.order) spot.now.at v) out.old out.new ×
        (result ≡ end_of source.now spot.now v) }
{
    let start = spot.at + gap(4, spot.at);
    byteswap_4(out, start);
    // The length, the text and a zero.
    start + (5 + source.order.u32_at(source.bytes, start) as usize)
}

/// Byteswaps the value at a spot, if it is in `out` as in the source: the offset after it.
pub(crate) fn byteswap_value(source: &MessageBytes<'_>, out: &mut [u8], spot: &Spot<'_>) -> usize
    requires stands { StandsThere source.now spot.now }
    requires noted { AreLengths spot.now.types.now spot.now.lengths.now }
    requires as_long { length out.old ≡ length source.now.bytes.now }
    ensures byteswapped { (v : ValueTree) (rest : List ℕ) → StandsAt source.now spot.now v rest →
        Replaces spot.now.at (spelling source.now.order spot.now.at v) (spelling (other source.now.order) spot.now.at v) out.old out.new ×
        (result ≡ end_of source.now spot.now v) }
{
    let code = spot.types[0];
    if code == b's' || code == b'o' {
        // Most values of header fields are texts.
        return byteswap_text(source, out, spot);
    }
    let mut byteswapper = Byteswapper { out };
    match walk_value(&mut byteswapper, &mut (), source, spot) {
        Ok(after) => after,
        Err(never) => match never {},
    }
}

/// Byteswaps the values at a spot, one after another, as `byteswap_value` does.
pub(crate) fn byteswap_values(source: &MessageBytes<'_>, out: &mut [u8], spot: &Spot<'_>)
    requires stand { AllStandThere source.now spot.now }
    requires noted { AreLengths spot.now.types.now spot.now.lengths.now }
    requires as_long { length out.old ≡ length source.now.bytes.now }
    ensures byteswapped { (vs : ValueTrees) (rest : List ℕ) → AllStandAt source.now spot.now vs rest →
        Replaces spot.now.at (spellings source.now.order spot.now.at vs) (spellings (other source.now.order) spot.now.at vs) out.old out.new }
{
    let mut byteswapper = Byteswapper { out };
    match walk_values(&mut byteswapper, &mut (), source, spot) {
        Ok(_) => {}
        Err(never) => match never {},
    }
}
