//! What holds of the calls of a connection. None of these functions does anything: their contracts
//! are the laws, over the definitions that the calls of the crate are specified by.
#![tactic(auto)]

ghost use Rattle.dbus_connection.specs.Handing.{EachOnce};
ghost use Rattle.dbus_connection.specs.Runs.{AnyCut, Bounded, TakesMessages};

/// However bytes are cut, the same comes of them, wherever a connection stands, in its handshake or
/// past it: of two ways to cut them, one tells what the other does, and maybe more, since a call
/// looks at no line and no message before all of it is at hand. D-Bus Specification,
/// "Authentication Protocol" and "Message Protocol".
pub fn any_cut()
    ensures { AnyCut }
{}

/// The bytes that were taken past the handshake are those of the messages that were given, and of
/// those that were passed over, one after another. D-Bus Specification, "Message Protocol".
pub fn takes_messages()
    ensures { TakesMessages }
{}

/// Past the handshake no call wants more bytes at hand than `longest` of the settings, or 16 if
/// that is less, however long the messages are that come. D-Bus Specification, "Message Protocol".
pub fn bounded()
    ensures { Bounded }
{}

/// Each descriptor that was kept is handed out once, with one message, or is left, and all stay in
/// order. So messages and their UNIX_FDS decide which are whose, and no cut of the bytes does. D-Bus
/// Specification, "Header Fields" (UNIX_FDS).
pub fn each_once<D>()
    ensures { EachOnce D }
{}
