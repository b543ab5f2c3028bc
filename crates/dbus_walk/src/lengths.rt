//! How long the types of values are. D-Bus Specification, "Valid Signatures".
#![tactic(auto)]

ghost use Rattle.std.specs.Prelude.{◌≤◌, length};
ghost use Rattle.dbus_types.specs.SignatureCodes.{AreLengths};

use dbus_types::lengths_in;

/// How long each type of a signature is, for a [`Spot`](crate::Spot): noted in the table, unless
/// the signature has one byte.
#[inline]
pub fn lengths_of<'t>(types: &[u8], table: &'t mut [u8; 255]) -> &'t [u8]
    requires few { length types.now ≤ 255 }
    ensures { AreLengths types.now result.now }
{
    if types.len() == 1 {
        return &[1];
    }
    lengths_in(types, table)
}
