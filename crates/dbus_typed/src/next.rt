//! The next of several values as one of Rust. D-Bus Specification, "Marshaling (Wire Format)".
#![tactic(auto)]

ghost use Rattle.std.specs.Prelude.{◌≡◌, ℕ, List, MatchOption, IsTrue};
ghost use Rattle.dbus_value_model.specs.Values.{ValueTrees, NoValues};
ghost use Rattle.dbus_values.specs.States.{AreLeft};
ghost use Rattle.dbus_typed.specs.Next.{IsNext, IsOfAnother};

use crate::from_value::FromValue;
use dbus_values::Values;

/// The next value, which is passed over, as one of the type, or `None` if it is of another type, or
/// no value is left.
pub(crate) fn next_as<'a, T: FromValue<'a>>(values: &mut Values<'a>) -> Option<T>
    ensures { (xs : ValueTrees) (rest : List ℕ) → AreLeft values.old xs rest →
        MatchOption result (IsOfAnother T.stands_for xs) (λ x. IsNext (T.tree x) xs rest values.new) }
{
    T::from_value(values.next()?)
}

/// What was made of the values before, if none is left.
pub(crate) fn at_end<'a, T: Drop>(made: T, values: &Values<'a>) -> Option<T>
    ensures { (xs : ValueTrees) (rest : List ℕ) → AreLeft values.now xs rest →
        MatchOption result (xs ≡ NoValues → ⊥) (λ x. (x ≡ made) × (xs ≡ NoValues)) }
{
    if values.first_code().is_some() {
        return None;
    }
    Some(made)
}
