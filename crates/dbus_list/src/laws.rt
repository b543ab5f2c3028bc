//! Laws of lines. A function's contract is its law; it does nothing when it runs.
#![tactic(auto)]

ghost use Rattle.dbus_list.specs.Lines.{ControlNothing, Fits, HideNothing, IsSomeLineEach};

/// Each message has a line, whatever its place and what is told beside it.
pub fn some_line_for_a_message()
    ensures { IsSomeLineEach }
{}

/// A line has at most as many cells as it may have, whatever the message holds.
pub fn lines_fit()
    ensures { Fits }
{}

/// A line has no hidden character, whatever the message holds.
pub fn lines_hide_nothing()
    ensures { HideNothing }
{}

/// The line of a message has no control character of ASCII before the line feed that ends it,
/// whatever the message holds that is within the limits, if the call that it answers is so too, and
/// names by which connections are known are bus names.
pub fn lines_control_nothing()
    ensures { ControlNothing }
{}
