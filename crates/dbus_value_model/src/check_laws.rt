//! Laws over which values are well formed: what a function here ensures is a fact about the
//! definitions, and it does nothing when it runs. D-Bus Specification, "Type System".
#![tactic(auto)]

ghost use Rattle.dbus_value_model.specs.Forming.{FormedByParts, WholesSpeakForParts};

/// A value is well formed exactly if it does not nest too deep, its types fit together, its texts
/// are of their kinds, and its numbers and the lengths of its texts are in range. A `Value` cannot
/// hold a number that is out of range.
#[tactic(auto, using(crate::proofs::Formed::formed_exact))]
pub fn formed_by_parts()
    ensures { FormedByParts }
{}

/// If the type of a whole is one that a signature spells, the items of arrays have their arrays'
/// types and the values of variants such types as well exactly if every part, but for dict entries
/// in arrays, has such a type.
#[tactic(auto, using(crate::proofs::TypeRows::wholes_speak))]
pub fn wholes_speak_for_parts()
    ensures { WholesSpeakForParts }
{}
