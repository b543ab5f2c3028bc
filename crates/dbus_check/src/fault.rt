//! Why bytes begin with no message. D-Bus Specification, "Message Protocol".
#![tactic(auto)]

ghost use Rattle.std.specs.Prelude.{MatchOption};
ghost use Rattle.dbus_header.specs.MessageOutcomes.{IsRefused, IsPartial};
ghost use Rattle.dbus_header.specs.NoMessage.{BeginsWithNone, IsFaultAtEnd};

use crate::check::Check;
use crate::checker::Checker;
use dbus_value_model::{Fault, Limits, Reason};

/// The fault of bytes that begin with no message, or None if they are not refused, and more are
/// wanted. D-Bus Specification, "Message Protocol".
// A checker is large: a caller that finds a message has no room for one.
#[inline(never)]
pub fn fault_of(bytes: &[u8], limits: Limits) -> Option<Fault>
    requires { BeginsWithNone limits bytes.now }
    ensures { MatchOption result (IsPartial limits bytes.now) (λ f. IsRefused limits bytes.now f) }
{
    match Checker::within(limits).take(bytes) {
        Check::Refused(fault) => Some(fault),
        // No message is done, since the bytes begin with none.
        Check::Partial | Check::Done(_) => None,
    }
}

/// The fault of bytes that begin with no message and are all that there is: `Truncated` at their
/// end if they are not refused. D-Bus Specification, "Message Protocol".
pub fn fault_at_end(bytes: &[u8], limits: Limits) -> Fault
    requires { BeginsWithNone limits bytes.now }
    ensures { IsFaultAtEnd limits bytes.now result }
{
    match fault_of(bytes, limits) {
        Some(fault) => fault,
        None => Fault {
            at: bytes.len() as u64,
            reason: Reason::Truncated,
        },
    }
}
