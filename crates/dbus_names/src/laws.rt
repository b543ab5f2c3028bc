//! What holds of names that messages tell: what a function here ensures is a fact about the
//! definitions, and it does nothing when it runs.
#![tactic(auto)]

ghost use Rattle.dbus_names.specs.Laws.{KeepsOpenCalls, KnowsWanted};

/// The calls that are known after messages are, of each caller and serial, the call that is open
/// after these messages, if its reply tells who has a name that is wanted. So a message that is
/// taken then is understood as the reply to the call that it answers.
pub fn keeps_open_calls()
    ensures { KeepsOpenCalls }
{}

/// A name by which a connection is known, after some messages, is one that is wanted.
pub fn knows_wanted_names()
    ensures { KnowsWanted }
{}
