//! What is refused in addresses that are spelled: a key twice, and a GUID that is none.
#![tactic(auto)]

ghost use Rattle.std.specs.Prelude.{◌≡◌, ◌≤◌, length, option_map};
ghost use Rattle.dbus_address.specs.Flaws.{value_at, has_key_twice, is_guid, flaw};
ghost use Rattle.dbus_address.specs.Parts.{parts};
ghost use Rattle.dbus_address.specs.Scans.{first_flaw};
ghost use Rattle.dbus_address.specs.Views.{bytes_of, pairs_of, address_view};

use crate::bytes::is_hex;
use crate::fault::{AddressFault, AddressReason};
use crate::reading::{AddressView, Pairs, ValueBytes, address_in, cut};

/// The value of the first pair with the key.
fn value_in<'a>(pairs: Pairs<'a>, key: &[u8]) -> Option<ValueBytes<'a>>
    ensures { option_map bytes_of result ≡ value_at key.now (pairs_of pairs.entry) }
{
    for pair in pairs {
        if pair.key == key {
            return Some(pair.value);
        }
    }
    None
}

/// Whether a key is also in a later pair.
fn has_key_twice(pairs: Pairs<'_>) -> bool
    ensures { result ≡ has_key_twice (pairs_of pairs.entry) }
{
    let mut left = pairs;
    while let Some(pair) = left.next() {
        if value_in(left, pair.key).is_some() {
            return true;
        }
    }
    false
}

/// Whether the value is a GUID: 32 hexadecimal digits. D-Bus Specification, "UUIDs".
fn is_guid(value: ValueBytes<'_>) -> bool
    ensures { result ≡ is_guid (bytes_of value.entry) }
{
    let mut count: usize = 0;
    for b in value {
        if count == 32 || !is_hex(b) {
            return false;
        }
        count += 1;
    }
    count == 32
}

impl<'a> AddressView<'a> {
    ghost use Rattle.std.specs.Prelude.{◌≡◌};
    ghost use Rattle.dbus_address.specs.Flaws.{flaw};
    ghost use Rattle.dbus_address.specs.Views.{IsValueOf, address_view};

    /// The value of the key, if the address has it. D-Bus Specification, "Server Addresses".
    ///
    /// ```rust
    /// use dbus_address::parse_addresses;
    ///
    /// if let Ok(addresses) = parse_addresses(b"unix:path=/run/bus") {
    ///     for address in addresses {
    ///         let _path = address.value(b"path");
    ///     }
    /// }
    /// ```
    pub fn value(&self, key: &[u8]) -> Option<ValueBytes<'a>>
        ensures { IsValueOf key.now self.now result }
    {
        value_in(self.pairs, key)
    }

    /// The reason to refuse the address, if there is one.
    fn flaw(&self) -> Option<AddressReason>
        ensures { result ≡ flaw (address_view self.now) }
    {
        if has_key_twice(self.pairs) {
            return Some(AddressReason::KeyTwice);
        }
        match self.value(b"guid") {
            Some(value) if !is_guid(value) => Some(AddressReason::Guid),
            _ => None,
        }
    }
}

/// The first flaw of an address, at the place where that address begins.
#[tactic(auto, using(crate::proofs::Parts::parts_cut, crate::proofs::FirstFlaw::cut_length))]
pub(crate) fn first_flaw(text: &[u8]) -> Option<AddressFault>
    requires { length text.now ≤ 4096 }
    ensures { result ≡ first_flaw 0 (parts 59 text.now) }
{
    let mut at: usize = 0;
    let mut left = Some(text);
    while let Some(rest) = left {
        let (part, after) = cut(rest, b';');
        if let Some(reason) = address_in(part).flaw() {
            return Some(AddressFault { at, reason });
        }
        at = at + part.len() + 1;
        left = after;
    }
    None
}
