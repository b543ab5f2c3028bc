//! Tuples, as the fields of a STRUCT. D-Bus Specification, "Container types".
#![tactic(auto)]

ghost use Rattle.std.specs.Prelude.{◌≡◌, MatchOption};
ghost use Rattle.std.proofs.Common.{ap};
ghost use Rattle.dbus_texts.specs.Types.{TypeTrees, StructType};
ghost use Rattle.dbus_value_model.specs.Values.{ValueTree, StructValue, type_of};
ghost use Rattle.dbus_values.specs.Seen.{IsSeen};

use crate::from_value::FromValue;
use crate::from_values::FromValues;
use dbus_values::ValueView;

/// The fields of a STRUCT as a tuple, or `None` if the value is no STRUCT of these types.
fn fields_as<'a, T: FromValues<'a>>(value: ValueView<'a>) -> Option<T>
    ensures read { (v : ValueTree) → IsSeen value.entry v →
        MatchOption result (type_of v ≡ StructType T.stand_for → ⊥) (λ x.
        v ≡ StructValue (T.trees x)) }
{
    match value {
        ValueView::Struct(fields) => T::from_values(fields),
        _ => None,
    }
}

impl<'a, A: FromValue<'a>> FromValue<'a> for (A,) {
    ghost stands_for = { StructType (⟦<(A,) as FromValues<'a>>⟧.stand_for) };

    ghost tree = { λ x. StructValue (⟦<(A,) as FromValues<'a>>⟧.trees x) };

    ghost typed = { λ x. ap StructType (⟦<(A,) as FromValues<'a>>⟧.typed x) };

    fn from_value(value: ValueView<'a>) -> Option<(A,)> {
        fields_as::<(A,)>(value)
    }
}

impl<'a, A: FromValue<'a>, B: FromValue<'a>> FromValue<'a> for (A, B) {
    ghost stands_for = { StructType (⟦<(A, B) as FromValues<'a>>⟧.stand_for) };

    ghost tree = { λ x. StructValue (⟦<(A, B) as FromValues<'a>>⟧.trees x) };

    ghost typed = { λ x. ap StructType (⟦<(A, B) as FromValues<'a>>⟧.typed x) };

    fn from_value(value: ValueView<'a>) -> Option<(A, B)> {
        fields_as::<(A, B)>(value)
    }
}

impl<'a, A: FromValue<'a>, B: FromValue<'a>, C: FromValue<'a>> FromValue<'a> for (A, B, C) {
    ghost stands_for = { StructType (⟦<(A, B, C) as FromValues<'a>>⟧.stand_for) };

    ghost tree = { λ x. StructValue (⟦<(A, B, C) as FromValues<'a>>⟧.trees x) };

    ghost typed = { λ x. ap StructType (⟦<(A, B, C) as FromValues<'a>>⟧.typed x) };

    fn from_value(value: ValueView<'a>) -> Option<(A, B, C)> {
        fields_as::<(A, B, C)>(value)
    }
}
