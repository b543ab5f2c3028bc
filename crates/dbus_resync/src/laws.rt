//! Laws of damaged bytes. Each function's contract is one, and it does nothing at run time.
ghost use Rattle.dbus_resync.specs.DamagedInputs.{NextIsMet, OneWay};
ghost use Rattle.dbus_resync.specs.Search.{OneFound};

/// Damaged bytes are made of messages, of bytes that are lost before the next one, and of a rest in
/// which none begins, in one way, under any limits and by any window.
pub fn one_way()
    ensures { OneWay }
{}

/// Whatever the bytes before a valid message are, the next message begins behind them at the
/// latest, if the window has all of them and that message.
pub fn next_is_met()
    ensures { NextIsMet }
{}

/// A search among bytes comes to one thing, by its limits and its effort.
pub fn one_found()
    ensures { OneFound }
{}
