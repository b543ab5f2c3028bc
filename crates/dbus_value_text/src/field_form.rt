//! What a form writes of header fields.
#![tactic(auto)]

ghost use Rattle.std.specs.Prelude.{◌≡◌, ℕ, List, Bool, true};
ghost use Rattle.dbus_types.specs.SignatureCodes.{AreLengths};
ghost use Rattle.dbus_value_model.specs.Values.{ValueTree};
ghost use Rattle.dbus_walk.specs.Standing.{StandsAt, StandsThere, end_of};
ghost use Rattle.dbus_value_text.specs.Gaining.{GainsSome};

use dbus_show::Draft;
use dbus_walk::{MessageBytes, Spot};

/// A form in which header fields are written: which fields it takes, by their codes, and what it
/// writes of each.
pub trait FieldForm {
    // It takes fields with this code.
    ghost is_taken: { ℕ → Bool };

    // This may be the text of a field with this code and value, which has this place among all
    // header fields, counted from 0.
    ghost is_text: { Self → (place code : ℕ) → ValueTree → List ℕ → Type 0 };

    /// Whether it takes fields with this code.
    fn takes(code: u8) -> bool
        ensures { result ≡ is_taken code };

    /// Appends the field that has this place among all header fields, counted from 0, and this
    /// code, and whose value is at a spot: the offset after the value.
    fn field<D: Draft>(
        &self,
        draft: &mut D,
        source: &MessageBytes<'_>,
        place: usize,
        code: u8,
        spot: &Spot<'_>,
    ) -> usize
        requires taken { is_taken code ≡ true }
        requires stands { StandsThere source.now spot.now }
        requires noted { AreLengths spot.now.types.now spot.now.lengths.now }
        ensures written { (v : ValueTree) (rest : List ℕ) → StandsAt source.now spot.now v rest →
            GainsSome D.gains draft.old (is_text self.now place code v) draft.new ×
            (result ≡ end_of source.now spot.now v) };
}
