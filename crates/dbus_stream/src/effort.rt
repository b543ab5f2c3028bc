//! How many bytes may be looked at to go on behind those that are no message.
ghost use Rattle.std.specs.Prelude.{◌≡◌, ◌≤◌, ◌+◌, ◌*◌, ◌^◌};
ghost use Rattle.dbus_stream.specs.GoingOn.{checked, counted, effort_of};

use crate::read_fault::ReadFault;

// How many bytes may be looked at for each one that is done, and for each one of the window.
const EFFORT: u64 = 16;

/// The effort for one message, after so many bytes were looked at, and this many to find its fault.
pub(crate) fn effort_of(window: u32, done: u64, looked: u64, at: u64) -> usize
    requires { done ≤ 2 ^ 50 }
    ensures { result ≡ effort_of window done (looked + at) }
{
    let over = looked.saturating_add(at).saturating_sub(EFFORT * done);
    (EFFORT * u64::from(window)).saturating_sub(over) as usize
}

/// How many bytes count as looked at after so many more: to find a fault, and then by a search.
pub(crate) fn counted(window: u32, done: u64, looked: u64, at: u64, searched: u64) -> u64
    requires { done ≤ 2 ^ 50 }
    ensures counts { result ≡ counted window done looked (at + searched) }
    ensures few { looked ≤ 2 ^ 55 → result ≤ 2 ^ 55 }
    ensures within { looked ≤ 16 * (done + window) → result ≤ 16 * (done + window) }
{
    let most = looked.max(EFFORT * (done + u64::from(window)));
    looked.saturating_add(at).saturating_add(searched).min(most)
}

/// How many bytes were looked at to find a fault.
pub(crate) fn checked(stopped: Option<ReadFault>) -> u64
    ensures { result ≡ checked stopped }
{
    match stopped {
        Some(ReadFault::Format(fault)) => fault.at,
        Some(ReadFault::Memory) => 0,
        Some(ReadFault::Device) => 0,
        Some(ReadFault::TooManyReads) => 0,
        None => 0,
    }
}
