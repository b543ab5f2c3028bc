//! Tuples, as values one after another. D-Bus Specification, "Marshaling (Wire Format)".
#![tactic(auto)]

ghost use Rattle.std.specs.Prelude.{refl};
ghost use Rattle.dbus_texts.specs.Types.{NoTypes, MoreTypes};
ghost use Rattle.dbus_value_model.specs.Values.{NoValues, MoreValues};
ghost use Rattle.dbus_typed.specs.TupleTypes.{more_typed};

use crate::from_value::FromValue;
use crate::from_values::FromValues;
use crate::next::{at_end, next_as};
use dbus_values::Values;

impl<'a> FromValues<'a> for () {
    ghost stand_for = { NoTypes };

    ghost trees = { λ _. NoValues };

    ghost typed = { λ _. refl };

    fn from_values(values: Values<'a>) -> Option<()> {
        at_end((), &values)
    }
}

impl<'a, A: FromValue<'a>> FromValues<'a> for (A,) {
    ghost stand_for = { MoreTypes A.stands_for NoTypes };

    ghost trees = { λ x. MoreValues (A.tree x.0) NoValues };

    ghost typed = { λ x. more_typed (A.typed x.0) refl };

    fn from_values(values: Values<'a>) -> Option<(A,)> {
        let mut values = values;
        let first = next_as::<A>(&mut values)?;
        at_end((first,), &values)
    }
}

impl<'a, A: FromValue<'a>, B: FromValue<'a>> FromValues<'a> for (A, B) {
    ghost stand_for = { MoreTypes A.stands_for (MoreTypes B.stands_for NoTypes) };

    ghost trees = { λ x. MoreValues (A.tree x.0) (MoreValues (B.tree x.1) NoValues) };

    ghost typed = { λ x. more_typed (A.typed x.0) (more_typed (B.typed x.1) refl) };

    fn from_values(values: Values<'a>) -> Option<(A, B)> {
        let mut values = values;
        let first = next_as::<A>(&mut values)?;
        let second = next_as::<B>(&mut values)?;
        at_end((first, second), &values)
    }
}

impl<'a, A: FromValue<'a>, B: FromValue<'a>, C: FromValue<'a>> FromValues<'a> for (A, B, C) {
    ghost stand_for = { MoreTypes A.stands_for (MoreTypes B.stands_for (MoreTypes C.stands_for NoTypes)) };

    ghost trees = { λ x. MoreValues (A.tree x.0) (MoreValues (B.tree x.1) (MoreValues (C.tree x.2) NoValues)) };

    ghost typed = { λ x. more_typed (A.typed x.0) (more_typed (B.typed x.1) (more_typed (C.typed x.2) refl)) };

    fn from_values(values: Values<'a>) -> Option<(A, B, C)> {
        let mut values = values;
        let first = next_as::<A>(&mut values)?;
        let second = next_as::<B>(&mut values)?;
        let third = next_as::<C>(&mut values)?;
        at_end((first, second, third), &values)
    }
}
