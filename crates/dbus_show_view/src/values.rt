//! Values as text, from a message's bytes. D-Bus Specification, "Type System".
#![tactic(auto)]

ghost use Rattle.std.specs.Prelude.{ℕ, List};
ghost use Rattle.dbus_types.specs.SignatureCodes.{AreLengths};
ghost use Rattle.dbus_value_model.specs.Values.{ValueTrees};
ghost use Rattle.dbus_walk.specs.Standing.{AllStandAt, AllStandThere};
ghost use Rattle.dbus_show.specs.ShownValues.{joined, value_texts};

use crate::plain::Plain;
use dbus_show::Draft;
use dbus_value_text::write_values;
use dbus_walk::{MessageBytes, Spot};

/// Appends the values that follow one another at a spot, one of each type that the text there
/// spells, as [`show_validated`](crate::show_validated) has each, and `, ` between two. D-Bus
/// Specification, "Type System".
pub fn write_shown_values<D: Draft>(draft: &mut D, source: &MessageBytes<'_>, spot: &Spot<'_>)
    requires stand { AllStandThere source.now spot.now }
    requires noted { AreLengths spot.now.types.now spot.now.lengths.now }
    ensures shown { (vs : ValueTrees) (rest : List ℕ) → AllStandAt source.now spot.now vs rest →
        D.gains draft.old (joined (value_texts vs)) draft.new }
{
    write_values::<Plain, D>(draft, source, spot);
}
