//! Laws over what is said of a refused message: what a function here ensures is a fact about the
//! definitions, and it does nothing when it runs.
#![tactic(auto)]

ghost use Rattle.dbus_explain.specs.FirstFields.{FirstFields};
ghost use Rattle.dbus_explain.specs.FirstValues.{FirstValues};
ghost use Rattle.dbus_explain.specs.Laws.{OneExplanation, OneRefusal};

/// A message that is refused is explained in one way, by its bytes as far as they were read, its
/// fault, its number and where it begins. So two calls of
/// [`explain_message`](crate::explain_message) for it write the same.
pub fn one_explanation()
    ensures { OneExplanation }
{}

/// It is said in JSON in one way too, unless a header field that is whole before the place of the
/// fault has a DOUBLE, which may be written by any digits that read back as its bits.
pub fn one_refusal()
    ensures { OneRefusal }
{}

/// The header fields that are whole before the place of a fault are the first ones of each message
/// that has the same bytes up to the end of the last of them. D-Bus Specification, "Header Fields".
pub fn first_fields()
    ensures { FirstFields }
{}

/// The values of the body that are whole before the place of a fault are the first ones of the body
/// of each message that has the same bytes up to the end of the last of them. So what
/// `dbus_flatten` gives of them is how its row of that body begins. D-Bus Specification, "Message
/// Format".
pub fn first_values()
    ensures { FirstValues }
{}
