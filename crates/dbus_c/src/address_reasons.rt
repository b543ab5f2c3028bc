//! The numbers and the names of the reasons why a text of server addresses is refused.
#![tactic(auto)]

ghost use Rattle.std.specs.Prelude.{◌≡◌, ◌<◌, ◌≤◌, ◌+◌, ◌∷◌, ◌++◌, drop, length};
ghost use Rattle.dbus_c.specs.Addresses.{address_name_at};
ghost use Rattle.dbus_c.specs.Addresses.{address_reason_number};

use crate::names::put_text;
use dbus_address::AddressReason;

/// The number of a reason, from 1 on.
pub fn address_reason_number(reason: AddressReason) -> u32
    ensures { result ≡ address_reason_number reason }
{
    match reason {
        AddressReason::TooLong => 1,
        AddressReason::Transport => 2,
        AddressReason::Key => 3,
        AddressReason::Value => 4,
        AddressReason::Escape => 5,
        AddressReason::KeyTwice => 6,
        AddressReason::Guid => 7,
    }
}

/// Writes the name of the reason of this number why a text of server addresses is refused, as
/// [`crate::dbus_wire_reason_name`] does.
#[unsafe(no_mangle)]
pub extern "C" fn dbus_wire_address_reason_name(reason: u32, out: &mut [u8]) -> usize
    ensures counted { result ≡ length (address_name_at reason) }
    ensures written { length (address_name_at reason) < length out.old →
        out.new ≡ address_name_at reason ++
        0 ∷ drop (length (address_name_at reason) + 1) out.old }
    ensures unchanged { length out.old ≤ length (address_name_at reason) → out.new ≡ out.old }
{
    put_text(address_name_numbered(reason).as_bytes(), out)
}

// The name of the reason of this number.
fn address_name_numbered(number: u32) -> &'static str
    ensures { result.now ≡ address_name_at number }
{
    match number {
        1 => "TooLong",
        2 => "Transport",
        3 => "Key",
        4 => "Value",
        5 => "Escape",
        6 => "KeyTwice",
        7 => "Guid",
        _ => "",
    }
}
