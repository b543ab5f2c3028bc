//! Types of Rust that stand for several types of D-Bus.
#![tactic(auto)]

ghost use Rattle.std.specs.Prelude.{◌≡◌, ℕ, List, MatchOption};
ghost use Rattle.dbus_texts.specs.Types.{TypeTrees};
ghost use Rattle.dbus_value_model.specs.Values.{ValueTrees, types_of};
ghost use Rattle.dbus_values.specs.States.{AreLeft};

use dbus_values::Values;

/// A tuple of types of Rust, which stands for values of their types one after another, as in a body
/// or in a STRUCT. D-Bus Specification, "Marshaling (Wire Format)".
pub trait FromValues<'a>: Sized + Drop {
    // The types of D-Bus.
    ghost stand_for: { TypeTrees };

    // The values that a tuple stands for.
    ghost trees: { Self → ValueTrees };

    // Those have the types.
    ghost typed: { (x : Self) → types_of (trees x) ≡ stand_for };

    /// All of the values as a tuple, or `None` if they are of other types, or more or fewer.
    fn from_values(values: Values<'a>) -> Option<Self>
        ensures read { (xs : ValueTrees) (rest : List ℕ) → AreLeft values.entry xs rest →
            MatchOption result (types_of xs ≡ stand_for → ⊥) (λ x. xs ≡ trees x) };
}
