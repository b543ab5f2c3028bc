//! Laws of the definitions: each function does nothing, and its contract is the law.
#![tactic(auto)]

ghost use Rattle.dbus_c.specs.Addresses.{AddressNamesAreTexts};
ghost use Rattle.dbus_c.specs.JsonReasons.{JsonNamesAreTexts, OneJsonNumber};
ghost use Rattle.dbus_c.specs.Reasons.{NamesAreTexts, OneNumber};
ghost use Rattle.dbus_c.specs.Rules.{RuleNamesAreTexts};

/// Two reasons that have one number and name one field are the same.
pub fn reasons_have_one_number()
    ensures { OneNumber }
{}

/// The text of a reason is the name at its number, and the code of the field if one is missing.
pub fn names_are_texts()
    ensures { NamesAreTexts }
{}

/// Two reasons of lines of JSON that have one number and name one field are the same.
pub fn json_reasons_have_one_number()
    ensures { OneJsonNumber }
{}

/// The text of a reason of a line of JSON is the name at its number, and the code of the field if
/// one is missing.
pub fn json_names_are_texts()
    ensures { JsonNamesAreTexts }
{}

/// The text of a reason of a rule is the name at its number.
pub fn rule_names_are_texts()
    ensures { RuleNamesAreTexts }
{}

/// The text of a reason of a server address is the name at its number.
pub fn address_names_are_texts()
    ensures { AddressNamesAreTexts }
{}
