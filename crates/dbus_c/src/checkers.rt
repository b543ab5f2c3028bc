//! A checker that C keeps from call to call: messages whose bytes come in pieces.
#![tactic(auto)]

ghost use Rattle.std.specs.Prelude.{◌≡◌, None};
ghost use Rattle.dbus_c.specs.Checking.{IsMade, TellsRestart, TellsPiece, answer_of, taken_told};
ghost use Rattle.dbus_c.specs.GivenLimits.{limits_of};

use crate::answers::{NO_CHECKER, NO_MEMORY, PARTIAL, REFUSED, WHOLE};
use crate::checking::{fault_told, nothing_told};
use crate::given_limits::{WireLimits, given_limits};
use dbus_c_handle::WireHandle;
use dbus_check::Check;
use std::alloc::Global;

/// What is reported of a piece beside the answer. Fields that do not apply are 0.
#[repr(C)]
#[derive(Drop)]
pub struct Taken {
    /// The number of bytes of the piece that were taken: those up to the end of the message, else
    /// all.
    pub count: u64,
    /// Of a fault: its offset, in bytes from the first of the message.
    pub offset: u64,
    /// Of a fault: the number of its reason.
    pub reason: u32,
    /// Of a fault: the code of the header field that is missing, if that is the reason.
    pub field: u32,
}

/// Makes a checker that took nothing yet, and takes messages within the limits: [`WHOLE`], or
/// [`NO_MEMORY`] if memory runs out; then there is none. It takes two blocks of memory, of some
/// 40,000 bytes and a few. What the handle kept is not freed.
#[unsafe(no_mangle)]
pub extern "C" fn dbus_wire_checker_new(
    alloc: Global,
    limits: &WireLimits,
    checker: &mut WireHandle,
) -> u32
    ensures { IsMade (limits_of limits.now) result checker.new.state }
{
    match checker.make_checker(alloc, given_limits(limits)) {
        Ok(()) => WHOLE,
        Err(_) => NO_MEMORY,
    }
}

/// Passes the checker a piece of a message, which it takes up to the message's end.
///
/// Of all bytes that it took since it was made or began again, and the piece: [`WHOLE`] if they
/// begin with a message within its limits, [`REFUSED`] with the fault, [`PARTIAL`] if more bytes
/// are needed. After [`WHOLE`] it takes nothing, and after [`REFUSED`] it reports the same fault,
/// until [`dbus_wire_checker_restart`]. [`NO_CHECKER`] if there is none; then nothing is written.
/// It allocates nothing. D-Bus Specification, "Message Protocol".
#[unsafe(no_mangle)]
pub extern "C" fn dbus_wire_checker_take(
    checker: &mut WireHandle,
    piece: &[u8],
    out: &mut Taken,
) -> u32
    ensures { TellsPiece checker.old.state checker.new.state piece.now result out.old out.new }
{
    match checker.take(piece) {
        None => NO_CHECKER,
        Some(check) => {
            *out = taken_told(check, piece.len());
            answer_of(check)
        }
    }
}

/// Begins again, under the same limits, as if it took nothing yet. [`WHOLE`]; [`NO_CHECKER`] if
/// there is none.
#[unsafe(no_mangle)]
pub extern "C" fn dbus_wire_checker_restart(checker: &mut WireHandle) -> u32
    ensures { TellsRestart checker.old.state checker.new.state result }
{
    if checker.restart() { WHOLE } else { NO_CHECKER }
}

/// Frees the checker, if there is one: from then on there is none.
#[unsafe(no_mangle)]
pub extern "C" fn dbus_wire_checker_free(alloc: Global, checker: &mut WireHandle)
    ensures { checker.new.state ≡ None }
{
    checker.free(alloc);
}

/// The number of a checker's answer.
pub(crate) fn answer_of(check: Check) -> u32
    ensures { result ≡ answer_of check }
{
    match check {
        Check::Done(_) => WHOLE,
        Check::Partial => PARTIAL,
        Check::Refused(_) => REFUSED,
    }
}

// What is told of a piece of so many bytes.
fn taken_told(check: Check, length: usize) -> Taken
    ensures { result ≡ taken_told check length }
{
    let (count, told) = match check {
        Check::Partial => (length, nothing_told()),
        Check::Done(count) => (count, nothing_told()),
        Check::Refused(fault) => (length, fault_told(fault)),
    };
    Taken {
        count: count as u64,
        offset: told.offset,
        reason: told.reason,
        field: told.field,
    }
}
