//! What holds of calls and their replies: what a function here ensures is a fact about the
//! definitions, and it does nothing when it runs.
#![tactic(auto)]

ghost use Rattle.dbus_message_model.specs.Messages.{MessageTree};
ghost use Rattle.dbus_calls.specs.Pairing.{AnswersOne, KeepsOpen};

/// One pass over messages that keeps the calls that wait keeps exactly those that are open: of each
/// caller and serial the call that is among the messages, wants a reply, and that no message after
/// it ends.
pub fn keeps_open<T>()
    ensures { (message : T → MessageTree) → KeepsOpen message }
{}

/// A reply answers at most one call.
pub fn answers_one<T>()
    ensures { (message : T → MessageTree) → AnswersOne message }
{}
