//! Laws over how far values reach: what a function here ensures is a fact about the definitions,
//! and it does nothing when it runs. D-Bus Specification, "Marshaling (Wire Format)".
#![tactic(auto)]

ghost use Rattle.dbus_value_model.specs.SizeLimits.{CappedTells, OffsetsRepeat};

/// An offset is within the message's limit exactly if its capped one is, and both are one offset
/// there.
pub fn capped_tells()
    ensures { CappedTells }
{}

/// How many bytes spell a value, and whether the arrays in it keep their limit, is the same 8 bytes
/// further on.
pub fn offsets_repeat()
    ensures { OffsetsRepeat }
{}
