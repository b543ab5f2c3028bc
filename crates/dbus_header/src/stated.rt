//! The length of a message, by the lengths that its header states.
#![tactic(auto)]

ghost use Rattle.std.specs.Prelude.{◌≤◌, IfOk, IfSome};
ghost use Rattle.dbus_value_model.specs.declared.limits.TheConstants.{MESSAGE_LIMIT};
ghost use Rattle.dbus_value_model.specs.Specification.{specification};
ghost use Rattle.dbus_header.specs.StatedLengths.{Stated};

use crate::fixed_header::read_fixed_header;
use dbus_value_model::{Fault, Limits, Stop, padding_length};

/// The number of bytes that state a message's length: those of its header before the contents of
/// the field array. No message has fewer. D-Bus Specification, "Message Format".
pub const FIXED_HEADER_LENGTH: usize = 16;

/// The length in bytes of the message that the bytes begin with, within the limits of the
/// specification, as [`stated_length_within`] says. D-Bus Specification, "Message Format".
///
/// ```rust
/// use dbus_message::stated_length;
///
/// match stated_length(bytes)? {
///     Some(length) => println!(rt; "read up to {length} bytes, and decode them")?,
///     None => println!(rt; "read up to 16 bytes, and ask again")?,
/// }
/// ```
pub fn stated_length(bytes: &[u8]) -> Result<Option<u64>, Fault>
    ensures stated { Stated specification bytes.now result }
    ensures within { IfOk result (λ stated. IfSome stated (λ n. (16 ≤ n) × (n ≤ MESSAGE_LIMIT))) }
{
    stated_length_within(bytes, Limits::specification())
}

/// The length in bytes of the message that the bytes begin with, under limits, once 16 of them are
/// there: those 16, the header fields, the padding after them to a multiple of 8, and the body.
/// D-Bus Specification, "Message Format".
///
/// `Ok(Some(n))` if the first 16 bytes are there and none of their items is at fault: whatever
/// follows, a message that begins with them has exactly n bytes, from 16 to the limits' message, so
/// that `decode_within` gives none out of fewer. The fields and the body are not looked at.
/// `Ok(None)` if fewer than 16 bytes are there and show no fault: more are wanted. `Err` if an item
/// within the first 16 bytes is at fault (the byte order, the type, the version, the serial, or a
/// length over its limit), with the fault that `decode_within` returns. Nothing is allocated.
pub fn stated_length_within(bytes: &[u8], limits: Limits) -> Result<Option<u64>, Fault>
    ensures stated { Stated limits bytes.now result }
    ensures within { IfOk result (λ stated. IfSome stated (λ n. (16 ≤ n) × (n ≤ limits.message))) }
{
    match read_fixed_header(bytes, limits) {
        Ok(header) => {
            let fields_end = FIXED_HEADER_LENGTH as u64 + u64::from(header.fields);
            let padding = u64::from(padding_length(8, fields_end));
            Ok(Some(fields_end + padding + u64::from(header.body)))
        }
        Err(Stop::Refused(fault)) => Err(fault),
        Err(Stop::Partial) => Ok(None),
    }
}
