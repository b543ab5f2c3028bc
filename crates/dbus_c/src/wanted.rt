//! The length of a message, by its first sixteen bytes.
#![tactic(auto)]

ghost use Rattle.std.specs.Prelude.{◌≤◌};
ghost use Rattle.dbus_c.specs.GivenLimits.{limits_of};
ghost use Rattle.dbus_c.specs.Checking.{Wants};

use crate::given_limits::{WireLimits, given_limits};
use dbus_header::stated_length_within;

/// The length in bytes of the message that the bytes begin with, as soon as 16 of them are there
/// and none of their items is at fault under the limits; else 0. Whatever follows, a message that
/// begins so has exactly this number of bytes.
///
/// 0 says of 16 bytes and more that no message begins so, and [`crate::dbus_wire_check`] reports
/// why; of fewer, that more bytes are wanted or that they are refused. It allocates nothing. D-Bus
/// Specification, "Message Format".
#[unsafe(no_mangle)]
pub extern "C" fn dbus_wire_wanted(bytes: &[u8], limits: &WireLimits) -> u64
    ensures wants { Wants (limits_of limits.now) bytes.now result }
    ensures within { result ≤ (limits_of limits.now).message }
{
    match stated_length_within(bytes, given_limits(limits)) {
        Ok(Some(length)) => length,
        Ok(None) => 0,
        Err(_) => 0,
    }
}
