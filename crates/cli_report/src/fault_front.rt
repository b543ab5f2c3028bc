//! The first bytes of a message that show its fault.
ghost use Rattle.std.specs.Prelude.{◌≡◌, ◌≤◌, [], length, take};
ghost use Rattle.dbus_check.specs.Checks.{Stands, limits_of};
ghost use Rattle.dbus_header.specs.MessageOutcomes.{IsPartial};
ghost use Rattle.cli_report.specs.FaultFronts.{IsFaultFront};

use dbus_check::{Check, Checker};
use dbus_value_model::Limits;

/// Hands a new checker the bytes before the fault at once, but for one: how many it took, which
/// show no fault. It is 0 if the bytes before the fault's place show it.
fn take_before_fault(checker: &mut Checker, bytes: &[u8]) -> usize
    requires fresh { Stands checker.old [] }
    ensures inside { result ≤ length bytes.now }
    ensures stands { Stands checker.new (take result bytes.now) }
    ensures limits { limits_of checker.new ≡ limits_of checker.old }
    ensures unshown { IsPartial (limits_of checker.old) (take result bytes.now) }
{
    let near = match checker.take(bytes) {
        Check::Partial => return bytes.len(),
        Check::Done(_) => 0,
        Check::Refused(fault) => fault.at.saturating_sub(1),
    };
    checker.restart();
    let n = near.min(bytes.len() as u64) as usize;
    if let Check::Partial = checker.take(&bytes[..n]) {
        return n;
    }
    checker.restart();
    0
}

/// The fewest of the first bytes that are refused under these limits; or all, if none are. So what
/// is told of a message is the same however many bytes were read behind its fault. Each byte is
/// looked at thrice at most.
pub(crate) fn fault_front(bytes: &[u8], limits: Limits) -> &[u8]
    ensures { IsFaultFront limits bytes.now result.now }
{
    let mut checker = Checker::within(limits);
    let near = take_before_fault(&mut checker, bytes);
    for at in near..bytes.len() {
        match checker.take(&bytes[at..at + 1]) {
            Check::Partial => {}
            Check::Done(_) => return bytes,
            Check::Refused(_) => return &bytes[..at + 1],
        }
    }
    bytes
}
