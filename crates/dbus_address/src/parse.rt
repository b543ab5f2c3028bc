//! The reading of a text of addresses.
#![tactic(auto)]

ghost use Rattle.std.specs.Prelude.{◌≡◌};
ghost use Rattle.dbus_address.specs.declared.scan.AddressState.TheVariants.{Start};
ghost use Rattle.dbus_address.specs.Scans.{scan};
ghost use Rattle.dbus_address.specs.Views.{IsAnswer, IsParsed};

use crate::fault::{AddressFault, AddressReason};
use crate::reading::Addresses;
use crate::scan::{AddressState, is_end, next_state, reason_in};
use crate::unsound::first_flaw;

/// The greatest length of a text of addresses, in bytes: the longest path that Linux takes
/// (`PATH_MAX`). The specification has no such limit. The bound keeps the time short in which the
/// keys of an address are compared with each other.
pub const ADDRESS_LIMIT: usize = 4096;

/// Why the text spells no addresses, read byte by byte.
fn break_in(text: &[u8]) -> Option<AddressFault>
    ensures { result ≡ scan Start 0 text.now }
{
    let mut state = AddressState::Start;
    for i in 0..text.len() {
        match next_state(state, text[i]) {
            Some(next) => state = next,
            None => return Some(AddressFault {
                at: i,
                reason: reason_in(state),
            }),
        }
    }
    if is_end(state) {
        return None;
    }
    Some(AddressFault {
        at: text.len(),
        reason: reason_in(state),
    })
}

/// Why the text is refused, if it is.
#[tactic(auto, using(crate::proofs::FirstFlaw::is_long_answer, crate::proofs::FirstFlaw::broken_answer, crate::proofs::FirstFlaw::flaw_answer,))]
pub(crate) fn fault_in(text: &[u8]) -> Option<AddressFault>
    ensures { IsAnswer text.now result }
{
    if text.len() > ADDRESS_LIMIT {
        return Some(AddressFault {
            at: ADDRESS_LIMIT,
            reason: AddressReason::TooLong,
        });
    }
    let broken = break_in(text);
    if broken.is_some() {
        return broken;
    }
    first_flaw(text)
}

/// The addresses that the text spells, read from the text itself; else why it is refused. It
/// allocates nothing. D-Bus Specification, "Server Addresses".
///
/// This is stricter than the specification: a text has at most [`ADDRESS_LIMIT`] bytes, and one
/// address at least, of which none is empty; a transport and a key have a byte at least, and none
/// that is escaped or would have to be; a key is in an address once; and the value of `guid` is 32
/// hexadecimal digits. docs/PEERS.md says what others make of these texts.
///
/// ```rust
/// use dbus_address::parse_addresses;
///
/// match parse_addresses(b"unix:path=/run/user/1000/bus") {
///     Ok(addresses) => {
///         for address in addresses {
///             if address.transport == b"unix".as_slice() {
///                 println!(rt; "a socket of this machine")?;
///             }
///         }
///     }
///     Err(fault) => println!(rt; "no addresses: {fault}")?,
/// }
/// ```
pub fn parse_addresses(text: &[u8]) -> Result<Addresses<'_>, AddressFault>
    ensures { IsParsed text.now result }
{
    match fault_in(text) {
        None => Ok(Addresses::of(text)),
        Some(fault) => Err(fault),
    }
}
