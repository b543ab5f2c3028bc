//! The kinds of values that keys take.
#![tactic(auto)]

ghost use Rattle.std.specs.Prelude.{◌≡◌, ◌↔◌, IsTrue};
ghost use Rattle.dbus_texts.specs.declared.text_kind.TextKind.TheVariants as kinds;
ghost use Rattle.dbus_texts.specs.Kinds.{IsKind};
ghost use Rattle.dbus_rule.specs.Keys.{IsTypeName, IsBoolName};

use dbus_texts::{check_bus_name, check_interface, check_member, check_path};

/// Whether the value is the name of a message type.
pub(crate) fn is_type_name(value: &str) -> bool
    ensures { IsTrue result ↔ IsTypeName value.now }
{
    matches!(value, "signal" | "method_call" | "method_return" | "error")
}

/// Whether the value is `true` or `false`.
pub(crate) fn is_bool_name(value: &str) -> bool
    ensures { IsTrue result ↔ IsBoolName value.now }
{
    matches!(value, "true" | "false")
}

/// Whether the value is an object path.
pub(crate) fn is_path(value: &str) -> bool
    ensures { IsTrue result ↔ IsKind kinds.Path value.now }
{
    check_path(value.as_bytes()).is_ok()
}

/// Whether the value is an interface name.
pub(crate) fn is_interface(value: &str) -> bool
    ensures { IsTrue result ↔ IsKind kinds.Interface value.now }
{
    check_interface(value.as_bytes()).is_ok()
}

/// Whether the value is a member name.
pub(crate) fn is_member(value: &str) -> bool
    ensures { IsTrue result ↔ IsKind kinds.Member value.now }
{
    check_member(value.as_bytes()).is_ok()
}

/// Whether the value is a bus name, unique or well-known.
pub(crate) fn is_bus_name(value: &str) -> bool
    ensures { IsTrue result ↔ IsKind kinds.BusName value.now }
{
    check_bus_name(value.as_bytes()).is_ok()
}
