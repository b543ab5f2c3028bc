//! Server addresses, in numbers and in the caller's bytes.
#![tactic(auto)]

ghost use Rattle.std.specs.Prelude.{◌≡◌, ◌∷◌, [], length, option_map};
ghost use Rattle.dbus_address.specs.Views.{address_view, addresses_of, bytes_of};
ghost use Rattle.dbus_c.specs.Addresses.{TellsAddresses, TellsAddressText, WritesText};
ghost use Rattle.dbus_c.specs.Addresses.{address_at, transport_in, value_in};
ghost use Rattle.dbus_room.specs.Counting.{counted};
ghost use Rattle.dbus_room.specs.Rooms.{Gains};

use crate::address_reasons::address_reason_number;
use crate::answers::{NO_VALUE, REFUSED, WHOLE};
use crate::written::end_text;
use dbus_address::{AddressView, Addresses, ValueBytes, parse_addresses};
use dbus_room::Room;

/// What is told of a text of server addresses. Fields that do not apply are 0.
#[repr(C)]
#[derive(Drop)]
pub struct AddressesTold {
    /// Of a text that is taken: the number of its addresses.
    pub count: u64,
    /// Of a text that is refused: the place of the fault, in bytes from the first.
    pub offset: u64,
    /// Of a text that is refused: the number of the reason, as
    /// [`address_reason_number`](crate::address_reason_number) has it.
    pub reason: u32,
    /// 0.
    pub reserved: u32,
}

/// Whether the text spells server addresses: [`WHOLE`] with their number if it does, else
/// [`REFUSED`] with the place and the reason. It allocates nothing. D-Bus Specification, "Server
/// Addresses".
#[unsafe(no_mangle)]
pub extern "C" fn dbus_wire_address_check(text: &[u8], out: &mut AddressesTold) -> u32
    ensures { TellsAddresses text.now result out.new }
{
    match parse_addresses(text) {
        Ok(addresses) => {
            *out = AddressesTold {
                count: count_of(addresses),
                offset: 0,
                reason: 0,
                reserved: 0,
            };
            WHOLE
        }
        Err(fault) => {
            *out = AddressesTold {
                count: 0,
                offset: fault.at as u64,
                reason: address_reason_number(fault.reason),
                reserved: 0,
            };
            REFUSED
        }
    }
}

/// Writes the transport of the address that has this number, from 0 on, in the text, to the start
/// of `out`, and a 0 after it, as much of this as it has room for; and to `count` how many bytes of
/// the transport it has.
///
/// [`WHOLE`] if there is room for both, and [`crate::NO_ROOM`] if there is not. [`NO_VALUE`] if the
/// text has no address of this number, and [`REFUSED`] if it spells none; then `out` and `count`
/// stay as they are. It allocates nothing. D-Bus Specification, "Server Addresses".
#[unsafe(no_mangle)]
pub extern "C" fn dbus_wire_address_transport(
    text: &[u8],
    number: u64,
    out: &mut [u8],
    count: &mut u64,
) -> u32
    ensures { TellsAddressText text.now (λ a. transport_in (address_at number a)) result
        out.old out.new count.old count.new }
{
    match parse_addresses(text) {
        Ok(addresses) => match address_at(addresses, number) {
            Some(address) => write_bytes(address.transport, out, count),
            None => NO_VALUE,
        },
        Err(_) => REFUSED,
    }
}

/// As [`dbus_wire_address_transport`], the value of a key, unescaped; [`NO_VALUE`] also if the
/// address does not have the key.
#[unsafe(no_mangle)]
pub extern "C" fn dbus_wire_address_value(
    text: &[u8],
    number: u64,
    key: &[u8],
    out: &mut [u8],
    count: &mut u64,
) -> u32
    ensures { TellsAddressText text.now (λ a. value_in key.now (address_at number a)) result
        out.old out.new count.old count.new }
{
    match parse_addresses(text) {
        Ok(addresses) => match value_in(addresses, number, key) {
            Some(value) => write_value(value, out, count),
            None => NO_VALUE,
        },
        Err(_) => REFUSED,
    }
}

// How many addresses there are.
fn count_of(addresses: Addresses<'_>) -> u64
    ensures { result ≡ counted (length (addresses_of addresses.entry)) }
{
    let mut count: u64 = 0;
    for _address in addresses {
        count = count.saturating_add(1);
    }
    count
}

// The address of this number, from 0 on.
fn address_at<'a>(addresses: Addresses<'a>, number: u64) -> Option<AddressView<'a>>
    ensures { option_map address_view result ≡ address_at number (addresses_of addresses.entry) }
{
    let mut left = number;
    for address in addresses {
        if left == 0 {
            return Some(address);
        }
        left -= 1;
    }
    None
}

// The value of a key of the address of this number.
fn value_in<'a>(addresses: Addresses<'a>, number: u64, key: &[u8]) -> Option<ValueBytes<'a>>
    ensures { option_map bytes_of result ≡
        value_in key.now (address_at number (addresses_of addresses.entry)) }
{
    match address_at(addresses, number) {
        Some(address) => address.value(key),
        None => None,
    }
}

// Writes bytes and a 0 after them, as much of this as there is room for.
fn write_bytes(bytes: &[u8], out: &mut [u8], count: &mut u64) -> u32
    ensures { WritesText bytes.now out.old out.new result count.new }
{
    let mut room = Room::new(out);
    push_bytes(&mut room, bytes);
    *count = room.len as u64;
    end_text(&mut room)
}

// The same of a value.
fn write_value(value: ValueBytes<'_>, out: &mut [u8], count: &mut u64) -> u32
    ensures { WritesText (bytes_of value.entry) out.old out.new result count.new }
{
    let mut room = Room::new(out);
    push_value(&mut room, value);
    *count = room.len as u64;
    end_text(&mut room)
}

// Adds bytes to the text in a room, as many as there is room for.
fn push_bytes(room: &mut Room<'_>, bytes: &[u8])
    ensures { Gains room.old bytes.now room.new }
{
    for b in bytes {
        push_byte(room, *b);
    }
}

// The same of a value.
fn push_value(room: &mut Room<'_>, value: ValueBytes<'_>)
    ensures { Gains room.old (bytes_of value.entry) room.new }
{
    for b in value {
        push_byte(room, b);
    }
}

// The same of a byte.
fn push_byte(room: &mut Room<'_>, b: u8)
    ensures { Gains room.old (b ∷ []) room.new }
{
    if room.len == room.bytes.len() {
        room.is_cut = true;
        return;
    }
    room.bytes[room.len] = b;
    room.len += 1;
}
