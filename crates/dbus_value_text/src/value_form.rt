//! What a form writes of values.
#![tactic(auto)]

ghost use Rattle.std.specs.Prelude.{◌≡◌, ℕ, ◌+◌, ◌<◌, ◌≤◌, ◌⊎◌, List, ◌++◌, length, take, drop, true};
ghost use Rattle.std.specs.Str.{IsAscii};
ghost use Rattle.dbus_texts.specs.Types.{NumberCode, BYTE, TextCode, NumberType, number_code, text_code};
ghost use Rattle.dbus_types.specs.Alignments.{width};
ghost use Rattle.dbus_value_model.specs.Reading.{number_of};
ghost use Rattle.dbus_value_model.specs.Values.{ValueTree, ValueTrees, NumberValue, TextValue, ArrayValue, IsWellFormed};
ghost use Rattle.dbus_walk.specs.Containers.{IsOf, parts};
ghost use Rattle.dbus_walk.specs.declared.container.Container.TheVariants.{Array, Variant};
ghost use Rattle.dbus_show.specs.ShownValues.{bytes_in};
ghost use Rattle.dbus_value_text.specs.Gaining.{GainsSome};
ghost use Rattle.dbus_value_text.specs.Forms.{AreTexts, IsListed, joined, told_types};

use dbus_show::Draft;
use dbus_walk::{Container, MessageBytes};

/// A form in which values are written: what it writes of a number, of a text and of an array of
/// BYTE, and what comes around and between the parts of a container.
///
/// Its members say which texts a value may have, and its law says that the text of a container is
/// made of those of its parts.
pub trait ValueForm {
    // This may be the text of the value.
    ghost is_text: { ValueTree → List ℕ → Type 0 };

    // What comes before the parts of a container, and after them.
    ghost open_text: { ValueTree → List ℕ };

    ghost close_text: { ValueTree → List ℕ };

    // What comes between two parts.
    ghost separator_text: { List ℕ };

    /// Appends the number at `at`, of the type that has this code.
    fn number<D: Draft>(draft: &mut D, source: &MessageBytes<'_>, at: usize, code: u8)
        requires ascii { code < 128 }
        requires inside { (k : NumberCode) → number_code k ≡ code → at + width k ≤ length source.now.bytes.now }
        ensures written { (k : NumberCode) → number_code k ≡ code →
            GainsSome D.gains draft.old
            (is_text (NumberValue k (number_of source.now.order (take (width k) (drop at source.now.bytes.now)))))
            draft.new };

    /// Appends a text of the type that has this code.
    fn text<D: Draft>(draft: &mut D, code: u8, text: &str)
        requires ascii { code < 128 }
        ensures written { (k : TextCode) → text_code k ≡ code →
            GainsSome D.gains draft.old (is_text (TextValue k text.now)) draft.new };

    /// Appends an array of BYTE, which has these bytes.
    fn bytes<D: Draft>(draft: &mut D, bytes: &[u8])
        ensures written { (xs : ValueTrees) → bytes_in xs ≡ bytes.now →
            GainsSome D.gains draft.old (is_text (ArrayValue (NumberType BYTE) xs)) draft.new };

    /// Appends what comes before the parts of a container. `types` are those of its parts, or of an
    /// array its own.
    fn open<D: Draft>(draft: &mut D, kind: Container, types: &[u8])
        requires ascii { (kind ≡ Variant) ⊎ (kind ≡ Array) → IsAscii types.now }
        ensures written { (v : ValueTree) → IsOf kind v → told_types v ≡ types.now →
            D.gains draft.old (open_text v) draft.new };

    /// Appends what comes after the parts of a container.
    fn close<D: Draft>(draft: &mut D, kind: Container)
        ensures written { (v : ValueTree) → IsOf kind v → D.gains draft.old (close_text v) draft.new };

    /// What comes between two parts.
    fn separator() -> &'static str
        ensures { result.now ≡ separator_text };

    /// Whether the draft gains nothing of the values that follow, which may be left out then. If
    /// the form does not know, it may return false.
    #[inline]
    fn is_past<D: Draft>(_draft: &D) -> bool
        ensures values { result ≡ true → (depth : ℕ) (v : ValueTree) → IsWellFormed depth v →
            GainsSome D.gains _draft.now (is_text v) _draft.now }
        ensures separators { result ≡ true → D.gains _draft.now separator_text _draft.now }
    {
        false
    }

    // A container whose parts are written one by one.
    ghost whole: { (v : ValueTree) (texts : List (List ℕ)) →
        IsListed v → AreTexts is_text (parts v) texts →
        is_text v (open_text v ++ (joined separator_text texts ++ close_text v)) };
}
