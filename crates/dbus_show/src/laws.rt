//! Laws of the texts of messages. Each function's contract is a law; it does nothing when it runs.
#![tactic(auto)]

ghost use Rattle.dbus_show.specs.ShownMessages.{NoneInValues, OneForEachLine};

/// The text of a value has no line feed.
pub fn one_line_for_a_value()
    ensures { NoneInValues }
{}

/// The text of a message has a line feed for its header's line and one for each value of its body,
/// and no other.
pub fn one_line_for_each_value()
    ensures { OneForEachLine }
{}
