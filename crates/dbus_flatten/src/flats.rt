//! All values of a message's body as one row of items.
#![tactic(auto)]

ghost use Rattle.std.specs.Prelude.{◌≡◌, ℕ, ◌≤◌, List, length, take};
ghost use Rattle.dbus_types.specs.SignatureCodes.{AreLengths};
ghost use Rattle.dbus_value_model.specs.Values.{ValueTrees};
ghost use Rattle.dbus_walk.specs.Standing.{AllStandAt, AllStandThere};
ghost use Rattle.dbus_flatten.specs.Flattening.{AreFlat};

use crate::flat_item::FlatItem;
use crate::flattener::Flattener;
use dbus_walk::{MessageBytes, Spot, walk_values};

/// Writes items of the values that follow one another at a spot: a row of one for each value and
/// all its parts, each container before its parts. Those from place `first` of the row on, which
/// begins at 0, go to the start of `out`, as many as it has room for; what is after them stays as
/// it was. Returns the number of items of the whole row.
///
/// An array of numbers is one item, and so is one without elements. It validates nothing again, and
/// its time is linear in the bytes, whatever `first` is. D-Bus Specification, "Marshaling (Wire
/// Format)".
pub fn flatten(
    source: &MessageBytes<'_>,
    spot: &Spot<'_>,
    first: usize,
    out: &mut [FlatItem],
) -> usize
    requires stand { AllStandThere source.now spot.now }
    requires noted { AreLengths spot.now.types.now spot.now.lengths.now }
    ensures flat { (vs : ValueTrees) (rest : List ℕ) → AllStandAt source.now spot.now vs rest →
        AreFlat source.now.order spot.now.at vs first out.old out.new result }
{
    let mut flattener = Flattener {
        out,
        first,
        count: 0,
    };
    match walk_values(&mut flattener, &mut 0, source, spot) {
        Ok(_) => flattener.total(),
        Err(never) => match never {},
    }
}
