//! What holds of the lines of calls: what a function here ensures is a fact about the definitions,
//! and it does nothing when it runs.
#![tactic(auto)]

ghost use Rattle.dbus_call_lines.specs.CallLines.{HasTwoParts};
ghost use Rattle.dbus_call_lines.specs.Keeping.{AreLines};
ghost use Rattle.dbus_call_lines.specs.Listing.{OneLineEach, OneList, OnlyPrinted, SomeList, TakesEnded};

/// The line of a call is its front, which says nothing of what came of the call, and its end, which
/// says that alone.
pub fn two_parts()
    ensures { HasTwoParts }
{}

/// What [`Lines`](crate::Lines) writes of the calls that a list adds is the lines of those that are
/// wanted.
pub fn are_lines()
    ensures { AreLines }
{}

/// Each METHOD_CALL of an input is listed exactly once, and nothing else is: once it is known what
/// came of it, or at the end.
pub fn one_line_each()
    ensures { OneLineEach }
{}

/// Of messages whose numbers rise there is a list of calls.
pub fn some_list()
    ensures { SomeList }
{}

/// The messages of an input determine what is listed of its calls, and in which order.
pub fn one_list()
    ensures { OneList }
{}

/// The lines of the calls in words have only characters of ASCII from the space to `~` before their
/// line feeds, so that a terminal obeys none of them, whatever the messages hold that are within the
/// limits, if names by which connections are known are bus names.
pub fn only_printed()
    ensures { OnlyPrinted }
{}

/// One pass over messages that keeps the calls that wait, as `dbus_calls::OpenCalls` does, takes
/// away exactly the calls that a message ends.
pub fn takes_ended()
    ensures { TakesEnded }
{}
