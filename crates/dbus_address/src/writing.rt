//! The text of addresses, written.
#![tactic(auto)]

ghost use Rattle.std.specs.Prelude.{true, ◌↔◌, IsTrue, ◌≡◌, ◌<◌, ◌++◌, ◌∷◌, [], List, ℕ, map, IfOk, OnOk};
ghost use Rattle.std.specs.List.{AllByRecursion};
ghost use Rattle.dbus_address.specs.Addresses.{IsName, pieces_then, pair_then, more_pairs_then, pairs_then, address_then};
ghost use Rattle.dbus_address.specs.Written.{IsPair, IsAddress, piece_of, written_pair, written_address, written, AreAddresses};
ghost use Rattle.dbus_address.specs.Bytes.{is_plain};
ghost use Rattle.dbus_address.specs.WrittenViews.{Appends, IsWritten, pair_parts, address_parts, more_addresses_then};

use crate::bytes::{digit_of, is_plain};
use crate::fault::AddressTextFault;
use crate::parse::fault_in;
use std::alloc::{AllocError, Allocator};

/// A key and its value, to be written. D-Bus Specification, "Server Addresses".
#[derive(Clone, Copy, Drop)]
pub struct PairParts<'a> {
    /// The key: one byte at least, and only bytes that may stand unescaped.
    pub key: &'a [u8],
    /// Its value: any bytes.
    pub value: &'a [u8],
}

/// An address, to be written. D-Bus Specification, "Server Addresses".
#[derive(Clone, Copy, Drop)]
pub struct AddressParts<'a> {
    /// The transport: one byte at least, and only bytes that may stand unescaped.
    pub transport: &'a [u8],
    /// The keys and values.
    pub pairs: &'a [PairParts<'a>],
}

/// Appends a byte of a value, escaped if it must be.
fn push_byte<A: Allocator>(text: &mut Vec<u8, A>, b: u8) -> Result<(), AllocError>
    ensures { OnOk result (Appends text.old.items text.new.items (pieces_then (piece_of b ∷ []))) }
{
    if is_plain(b) {
        text.push(b)?;
        return Ok(());
    }
    text.push(b'%')?;
    text.push(digit_of(b / 16))?;
    text.push(digit_of(b % 16))?;
    Ok(())
}

/// Appends a value.
fn push_value<A: Allocator>(text: &mut Vec<u8, A>, value: &[u8]) -> Result<(), AllocError>
    ensures { OnOk result (Appends text.old.items text.new.items
        (pieces_then (map piece_of value.now))) }
{
    for i in 0..value.len() {
        push_byte(text, value[i])?;
    }
    Ok(())
}

/// Appends a pair.
#[tactic(auto, using(crate::proofs::Appends::pair_appends))]
fn push_pair<A: Allocator>(text: &mut Vec<u8, A>, pair: &PairParts<'_>) -> Result<(), AllocError>
    ensures { OnOk result (Appends text.old.items text.new.items
        (pair_then (written_pair (pair_parts pair.now)))) }
{
    text.extend_from_slice(pair.key)?;
    text.push(b'=')?;
    push_value(text, pair.value)
}

/// Appends pairs, each after a comma.
fn push_more_pairs<A: Allocator>(
    text: &mut Vec<u8, A>,
    pairs: &[PairParts<'_>],
) -> Result<(), AllocError>
    ensures { OnOk result (Appends text.old.items text.new.items
        (more_pairs_then (map written_pair (map pair_parts pairs.now)))) }
{
    for i in 0..pairs.len() {
        text.push(b',')?;
        push_pair(text, &pairs[i])?;
    }
    Ok(())
}

/// Appends pairs, with a comma between each two.
fn push_pairs<A: Allocator>(
    text: &mut Vec<u8, A>,
    pairs: &[PairParts<'_>],
) -> Result<(), AllocError>
    ensures { OnOk result (Appends text.old.items text.new.items
        (pairs_then (map written_pair (map pair_parts pairs.now)))) }
{
    match pairs.split_first() {
        Some((first, more)) => {
            push_pair(text, first)?;
            push_more_pairs(text, more)
        }
        None => Ok(()),
    }
}

/// Appends an address.
#[tactic(auto, using(crate::proofs::Appends::address_appends))]
fn push_address<A: Allocator>(
    text: &mut Vec<u8, A>,
    address: &AddressParts<'_>,
) -> Result<(), AllocError>
    ensures { OnOk result (Appends text.old.items text.new.items
        (address_then (written_address (address_parts address.now)))) }
{
    text.extend_from_slice(address.transport)?;
    text.push(b':')?;
    push_pairs(text, address.pairs)
}

/// Appends addresses, each after a semicolon.
fn push_more_addresses<A: Allocator>(
    text: &mut Vec<u8, A>,
    addresses: &[AddressParts<'_>],
) -> Result<(), AllocError>
    ensures { OnOk result (Appends text.old.items text.new.items
        (more_addresses_then (map written_address (map address_parts addresses.now)))) }
{
    for i in 0..addresses.len() {
        text.push(b';')?;
        push_address(text, &addresses[i])?;
    }
    Ok(())
}

/// The text of an address and of further ones.
fn write_some<A: Allocator>(
    alloc: A,
    first: &AddressParts<'_>,
    more: &[AddressParts<'_>],
) -> Result<Vec<u8, A>, AllocError>
    ensures { IfOk result (λ t. t.items ≡
        written (address_parts first.now ∷ map address_parts more.now)) }
{
    let mut text = Vec::new(alloc);
    push_address(&mut text, first)?;
    push_more_addresses(&mut text, more)?;
    Ok(text)
}

/// The text of the addresses.
fn write_addresses<A: Allocator>(
    alloc: A,
    addresses: &[AddressParts<'_>],
) -> Result<Vec<u8, A>, AllocError>
    ensures { IfOk result (λ t. t.items ≡ written (map address_parts addresses.now)) }
{
    match addresses.split_first() {
        Some((first, more)) => write_some(alloc, first, more),
        None => Ok(Vec::new(alloc)),
    }
}

/// Whether no byte must be escaped.
fn are_plain(text: &[u8]) -> bool
    ensures { IsTrue result ↔ AllByRecursion (λ b. is_plain b ≡ true) text.now }
{
    for b in text {
        if !is_plain(*b) {
            return false;
        }
    }
    true
}

/// Whether the text may be a transport or a key: one byte at least, and only bytes that may stand
/// unescaped.
#[tactic(auto, using(crate::proofs::Names::name_is, crate::proofs::Names::name_plain))]
fn is_name(text: &[u8]) -> bool
    ensures { IsTrue result ↔ IsName text.now }
{
    !text.is_empty() && are_plain(text)
}

/// Does nothing: the bytes of a slice are numbers below 256.
fn are_bytes(text: &[u8])
    ensures { AllByRecursion (λ b. b < 256) text.now }
{
    for b in text {
        let _b = *b;
    }
}

/// Whether the key is a name.
fn is_pair(pair: &PairParts<'_>) -> bool
    ensures { IsTrue result ↔ IsPair (pair_parts pair.now) }
{
    are_bytes(pair.value);
    is_name(pair.key)
}

/// Whether each key is a name.
fn are_pairs(pairs: &[PairParts<'_>]) -> bool
    ensures { IsTrue result ↔ AllByRecursion IsPair (map pair_parts pairs.now) }
{
    for pair in pairs {
        if !is_pair(pair) {
            return false;
        }
    }
    true
}

/// Whether the transport and each key are names.
fn is_address(address: &AddressParts<'_>) -> bool
    ensures { IsTrue result ↔ IsAddress (address_parts address.now) }
{
    is_name(address.transport) && are_pairs(address.pairs)
}

/// Whether each has names.
fn each_is_address(addresses: &[AddressParts<'_>]) -> bool
    ensures { IsTrue result ↔ AllByRecursion IsAddress (map address_parts addresses.now) }
{
    for address in addresses {
        if !is_address(address) {
            return false;
        }
    }
    true
}

/// Whether the addresses can be spelled: there is one at least, and each transport and key is a
/// name.
#[tactic(auto, using(crate::proofs::Names::addresses_are, crate::proofs::Names::each_address))]
fn are_addresses(addresses: &[AddressParts<'_>]) -> bool
    ensures { IsTrue result ↔ AreAddresses (map address_parts addresses.now) }
{
    !addresses.is_empty() && each_is_address(addresses)
}

/// The text of the addresses: with a semicolon between each two, and each byte of a value escaped
/// that must be, in lower case. [`parse_addresses`](crate::parse_addresses) reads it back. D-Bus
/// Specification, "Server Addresses".
///
/// Else `NoName` if there is no address, or if a transport or a key is empty or has a byte that
/// would have to be escaped; `Refused` with the fault that the text has, as of a key that comes
/// twice; and `Memory` only if an allocation failed.
///
/// ```rust
/// use dbus_address::{AddressParts, PairParts, addresses_text};
///
/// let path = [PairParts { key: b"path", value: b"/run/my bus" }];
/// // b"unix:path=/run/my%20bus"
/// let _text = addresses_text(alloc, &[AddressParts { transport: b"unix", pairs: &path }]);
/// ```
#[tactic(auto, using(crate::proofs::FirstFlaw::written_answer, crate::proofs::FirstFlaw::written_fault,))]
pub fn addresses_text<A: Allocator>(
    alloc: A,
    addresses: &[AddressParts<'_>],
) -> Result<Vec<u8, A>, AddressTextFault>
    ensures { IsWritten (map address_parts addresses.now) result }
{
    if !are_addresses(addresses) {
        return Err(AddressTextFault::NoName);
    }
    let text = write_addresses(alloc, addresses)?;
    match fault_in(text.as_slice()) {
        None => Ok(text),
        Some(fault) => Err(AddressTextFault::Refused(fault)),
    }
}
