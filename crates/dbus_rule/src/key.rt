//! The keys of a rule: their names, their order and the values that they take.
#![tactic(auto)]

use crate::value_kinds::{
    is_bool_name, is_bus_name, is_interface, is_member, is_path, is_type_name,
};

/// The number of the arguments that keys name: `arg0` to `arg63`.
const ARGUMENTS: u16 = 64;

/// A key of a match rule, in canonical order. D-Bus Specification, "Match Rules".
#[derive(Clone, Copy, PartialEq, Eq, Debug)]
pub enum Key {
    /// `type`: `signal`, `method_call`, `method_return` or `error`.
    MessageType,
    /// `sender`: a bus name.
    Sender,
    /// `interface`: an interface name.
    Interface,
    /// `member`: a member name.
    Member,
    /// `path`: an object path.
    Path,
    /// `path_namespace`: an object path.
    PathNamespace,
    /// `destination`: a bus name (the specification: a unique name).
    Destination,
    /// `arg0` to `arg63`: any text.
    Arg(u8),
    /// `arg0path` to `arg63path`: any text.
    ArgPath(u8),
    /// `arg0namespace`: any text (the specification: like a bus name, with or without a period).
    Arg0Namespace,
    /// `eavesdrop`: `true` or `false`; it is kept and has no effect.
    Eavesdrop,
}

impl Key {
    ghost use Rattle.std.specs.Prelude.{◌≡◌, ◌↔◌, IsTrue};
    ghost use Rattle.dbus_rule.specs.Keys.{rank, IsValueOf};

    /// Whether the two are one key.
    pub(crate) fn is(self, other: Key) -> bool
        ensures { IsTrue result ↔ (self ≡ other) }
    {
        self == other
    }

    /// The place of the key in the canonical order.
    pub(crate) fn rank(self) -> u16
        ensures { result ≡ rank self }
    {
        match self {
            Key::MessageType => 0,
            Key::Sender => 1,
            Key::Interface => 2,
            Key::Member => 3,
            Key::Path => 4,
            Key::PathNamespace => 5,
            Key::Destination => 6,
            Key::Arg(n) => 7 + u16::from(n),
            Key::ArgPath(n) => 7 + ARGUMENTS + u16::from(n),
            Key::Arg0Namespace => 7 + 2 * ARGUMENTS,
            Key::Eavesdrop => 8 + 2 * ARGUMENTS,
        }
    }

    /// Whether the key takes the value.
    pub(crate) fn takes(self, value: &str) -> bool
        ensures { IsTrue result ↔ IsValueOf self value.now }
    {
        match self {
            Key::MessageType => is_type_name(value),
            Key::Sender => is_bus_name(value),
            Key::Interface => is_interface(value),
            Key::Member => is_member(value),
            Key::Path => is_path(value),
            Key::PathNamespace => is_path(value),
            Key::Destination => is_bus_name(value),
            Key::Arg(_) => true,
            Key::ArgPath(_) => true,
            Key::Arg0Namespace => true,
            Key::Eavesdrop => is_bool_name(value),
        }
    }
}
