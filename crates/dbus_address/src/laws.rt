//! The laws of addresses. These functions do nothing: their contracts are the laws.
#![tactic(auto)]

ghost use Rattle.dbus_address.specs.Laws.{NotBoth, OneFault, OneReading};

/// A text spells at most one list of addresses.
pub fn one_reading()
    ensures { OneReading }
{}

/// A text is refused for at most one reason, at one place.
pub fn one_fault()
    ensures { OneFault }
{}

/// No text is taken and refused.
pub fn not_both()
    ensures { NotBoth }
{}
