//! The first of several values. D-Bus Specification, "Marshaling (Wire Format)".
#![tactic(auto)]

ghost use Rattle.std.specs.Prelude.{◌≡◌, ℕ, List, MatchOption};
ghost use Rattle.dbus_value_model.specs.Values.{ValueTree, ValueTrees, NoValues, MoreValues};
ghost use Rattle.dbus_values.specs.States.{AreLeft};
ghost use Rattle.dbus_display.specs.FirstAlone.{IsFirstAlone};

use dbus_types::type_end;
use dbus_values::Values;

/// The first of the values alone, so that it can be printed: the value that `next` sees. `None` if
/// there are no values. The values stay what they are.
pub fn first_value<'a>(values: &Values<'a>) -> Option<Values<'a>>
    ensures first { (xs : ValueTrees) (rest : List ℕ) → AreLeft values.now xs rest →
        MatchOption result (xs ≡ NoValues) (λ first. IsFirstAlone xs first) }
{
    let (source, spot) = values.place();
    if spot.types.is_empty() {
        return None;
    }
    let end = type_end(spot.types, 0);
    Some(Values::new(&source, spot.at, &spot.types[..end], spot.depth_left))
}
