//! Signatures as text. D-Bus Specification, "Valid Signatures".
#![tactic(auto)]

ghost use Rattle.std.specs.Str.{IsAscii};

use dbus_show::Draft;
use std::str;

/// Appends the bytes of a signature. D-Bus Specification, "Valid Signatures".
pub fn write_types<D: Draft>(draft: &mut D, types: &[u8])
    requires { IsAscii types.now }
    ensures { D.gains draft.old types.now draft.new }
{
    // Each byte of a signature is ASCII.
    draft.push_str(unsafe { str::from_utf8_unchecked(types) });
}
