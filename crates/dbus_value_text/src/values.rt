//! Values of any type as text, from a message's bytes. D-Bus Specification, "Marshaling (Wire
//! Format)".
#![tactic(auto)]

ghost use Rattle.std.specs.Prelude.{◌≡◌, ℕ, List};
ghost use Rattle.dbus_types.specs.SignatureCodes.{AreLengths};
ghost use Rattle.dbus_value_model.specs.Values.{ValueTree, ValueTrees};
ghost use Rattle.dbus_walk.specs.Standing.{StandsAt, StandsThere, AllStandAt, AllStandThere, end_of};
ghost use Rattle.dbus_value_text.specs.Forms.{AreTexts, joined};
ghost use Rattle.dbus_value_text.specs.Gaining.{GainsSome};

use crate::value_form::ValueForm;
use crate::writer::Writer;
use dbus_show::Draft;
use dbus_walk::{MessageBytes, Spot, walk_value, walk_values};
use std::marker::PhantomData;

/// Appends the text of the value at a spot, in a form: the offset after the value.
pub fn write_value<F: ValueForm, D: Draft>(
    draft: &mut D,
    source: &MessageBytes<'_>,
    spot: &Spot<'_>,
) -> usize
    requires stands { StandsThere source.now spot.now }
    requires noted { AreLengths spot.now.types.now spot.now.lengths.now }
    ensures written { (v : ValueTree) (rest : List ℕ) → StandsAt source.now spot.now v rest →
        GainsSome D.gains draft.old (F.is_text v) draft.new × (result ≡ end_of source.now spot.now v) }
{
    let mut writer: Writer<'_, D, F> = Writer {
        draft,
        form: PhantomData,
    };
    match walk_value(&mut writer, &mut (), source, spot) {
        Ok(after) => after,
        Err(never) => match never {},
    }
}

/// Appends the texts of the values that follow one another at a spot, one of each type that the
/// text there spells, in a form. What the form has between two parts stands between two of them.
pub fn write_values<F: ValueForm, D: Draft>(
    draft: &mut D,
    source: &MessageBytes<'_>,
    spot: &Spot<'_>,
)
    requires stand { AllStandThere source.now spot.now }
    requires noted { AreLengths spot.now.types.now spot.now.lengths.now }
    ensures written { (vs : ValueTrees) (rest : List ℕ) → AllStandAt source.now spot.now vs rest →
        (texts : List (List ℕ)) × AreTexts F.is_text vs texts ×
        D.gains draft.old (joined F.separator_text texts) draft.new }
{
    let mut writer: Writer<'_, D, F> = Writer {
        draft,
        form: PhantomData,
    };
    match walk_values(&mut writer, &mut (), source, spot) {
        Ok(_) => {}
        Err(never) => match never {},
    }
}
