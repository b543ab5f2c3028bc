//! Laws of types and the texts that spell them, and those of texts that `dbus_texts` has: each
//! function does nothing, and its contract is the law.
#![tactic(auto)]

ghost use Rattle.dbus_types.specs.Laws.{SinglesSpellTypes, SignaturesSpellTypes, NoTypeBeginsAnother};

pub use dbus_texts::laws::{
    breaks_are_computed, kinds_are_computed, names_are_texts, texts_are_utf8,
};

/// A signature of one complete type spells one type, and each such type has one such signature.
/// "Valid Signatures".
pub fn singles_spell_types()
    ensures { SinglesSpellTypes }
{}

/// A signature spells one list of types, and each such list has one signature. "Valid Signatures".
pub fn signatures_spell_types()
    ensures { SignaturesSpellTypes }
{}

/// No type's text begins with another's. "Valid Signatures".
pub fn no_type_begins_another()
    ensures { NoTypeBeginsAnother }
{}
