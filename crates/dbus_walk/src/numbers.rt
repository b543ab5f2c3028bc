//! The number of bytes of a number. D-Bus Specification, "Summary of D-Bus marshaling".
#![tactic(auto)]

ghost use Rattle.std.specs.Prelude.{◌≡◌, ◌≤◌};
ghost use Rattle.dbus_texts.specs.Types.{TypeTree};
ghost use Rattle.dbus_types.specs.SignatureCodes.{first_code};
ghost use Rattle.dbus_walk.specs.Containers.{number_width};

use dbus_types::free_width;

/// The number of bytes of a number of a type that begins with this byte, or 0 if a type that begins
/// with it is no type of numbers. D-Bus Specification, "Summary of D-Bus marshaling".
#[inline]
pub fn number_width(code: u8) -> u8
    ensures value { (t : TypeTree) → first_code t ≡ code → result ≡ number_width t }
    ensures few { result ≤ 8 }
{
    match code {
        b'b' | b'h' => 4,
        other => free_width(other),
    }
}
