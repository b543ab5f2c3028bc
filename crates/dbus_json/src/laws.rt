//! Laws of the JSON of messages. A function's contract is its law; it does nothing when it runs.
#![tactic(auto)]

ghost use Rattle.dbus_json.specs.JsonMessages.{IsOneLineEach, IsSomeLineEach};

/// A message's JSON has one line feed, its last byte.
pub fn one_line_for_a_message()
    ensures { IsOneLineEach }
{}

/// Each message has a line of JSON.
pub fn some_line_for_a_message()
    ensures { IsSomeLineEach }
{}
