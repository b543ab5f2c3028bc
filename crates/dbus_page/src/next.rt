//! Whether bytes begin with a message.
#![tactic(auto)]

ghost use Rattle.dbus_header.specs.NoMessage.{BeginsWithNone};
ghost use Rattle.dbus_value_model.specs.Specification.{specification};
ghost use Rattle.dbus_page.specs.Telling.{States, Tells};

use crate::answers::{PARTIAL, REFUSED, WHOLE};
use dbus_check::fault_of;
use dbus_header::stated_length_within;
use dbus_validate::validate;
use dbus_value_model::Limits;

/// What bytes begin with.
#[repr(C)]
#[derive(Drop)]
pub struct Next {
    /// Of a message: its number of bytes. Else the number that their first 16 bytes state, or 0 if
    /// they state none.
    pub length: u64,
    /// Of a fault: its offset, in bytes from the first. Of bytes that show none: their number. Of a
    /// message: 0.
    pub at: u64,
}

/// Whether the bytes begin with a message within the limits of the specification: [`WHOLE`] with
/// its length; [`REFUSED`] with the place of their fault; or [`PARTIAL`], if more bytes are needed,
/// with the place at which they end. Bytes after the message are not looked at. It allocates
/// nothing. D-Bus Specification, "Message Protocol".
#[unsafe(no_mangle)]
pub extern "C" fn dbus_page_next(bytes: &[u8], next: &mut Next) -> u32
    ensures { Tells bytes.now result next.new }
{
    match validate(bytes, Limits::specification()) {
        Some(validated) => {
            *next = Next {
                length: validated.length as u64,
                at: 0,
            };
            WHOLE
        }
        None => tell_none(bytes, next),
    }
}

// What bytes begin with that begin with no message.
fn tell_none(bytes: &[u8], next: &mut Next) -> u32
    requires { BeginsWithNone specification bytes.now }
    ensures { Tells bytes.now result next.new }
{
    let length = stated_length(bytes);
    match fault_of(bytes, Limits::specification()) {
        Some(fault) => {
            *next = Next {
                length,
                at: fault.at,
            };
            REFUSED
        }
        None => {
            *next = Next {
                length,
                at: bytes.len() as u64,
            };
            PARTIAL
        }
    }
}

// The length that the first 16 bytes state, or 0.
fn stated_length(bytes: &[u8]) -> u64
    ensures { States bytes.now result }
{
    match stated_length_within(bytes, Limits::specification()) {
        Ok(Some(length)) => length,
        Ok(None) => 0,
        Err(_) => 0,
    }
}
