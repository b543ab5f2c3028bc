//! Laws of lines. A function's contract is its law; it does nothing when it runs.
#![tactic(auto)]

ghost use Rattle.dbus_json_laws.specs.Kept.{IsLineKept, IsOneMessageOfALine, IsTextKept, IsValueKept};
ghost use Rattle.dbus_json_laws.specs.Laws.{IsOneMessageALine};
ghost use Rattle.dbus_json_laws.specs.Reading.{IsDoubleKept, IsOneMessageEach, IsOneValueEach};

/// No two messages have one line of JSON: it keeps the order, the header and the body.
pub fn one_message_for_a_line()
    ensures { IsOneMessageALine }
{}

/// No JSON spells two values of one type.
pub fn one_value_for_json()
    ensures { IsOneValueEach }
{}

/// No JSON spells two messages: what `dbus_json_reader::read_message` returns is the one.
pub fn one_message_for_json()
    ensures { IsOneMessageEach }
{}

/// The text of a DOUBLE spells that DOUBLE, with its bits.
pub fn doubles_kept()
    ensures { IsDoubleKept }
{}

/// The string that is written of a text, with its escapes, is read as that text.
pub fn texts_kept()
    ensures { IsTextKept }
{}

/// What is written of a value is JSON that spells it, and nests at most twice as deep.
pub fn values_kept()
    ensures { IsValueKept }
{}

/// The line that is written of a message is a line of it: `encode` reads what `json` writes.
pub fn lines_kept()
    ensures { IsLineKept }
{}

/// No line is of two messages: what `dbus_json_lines::message_of_line` returns is the one.
pub fn one_message_of_a_line()
    ensures { IsOneMessageOfALine }
{}
