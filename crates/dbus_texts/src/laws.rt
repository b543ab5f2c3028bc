//! Laws of the definitions: each function does nothing, and its contract is the law.
#![tactic(auto)]

ghost use Rattle.dbus_texts.specs.Laws.{KindsAreComputed, BreaksAreComputed, TextsAreUtf8, NamesAreTexts};

/// A text is of a kind exactly if the slow function says so. "Basic types", "Valid Names".
#[tactic(auto, using(crate::proofs::KindFacts::kind_is, crate::proofs::KindFacts::is_kind_of))]
pub fn kinds_are_computed()
    ensures { KindsAreComputed }
{}

/// A text has one break, which the slow function gives. "Basic types", "Valid Names".
pub fn breaks_are_computed()
    ensures { BreaksAreComputed }
{}

/// The texts of a STRING are UTF-8 without a zero byte. "Basic types".
pub fn texts_are_utf8()
    ensures { TextsAreUtf8 }
{}

/// Names are texts. "Valid Names".
pub fn names_are_texts()
    ensures { NamesAreTexts }
{}
