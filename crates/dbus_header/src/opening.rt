//! How deep containers are opened while a message is read.
#![tactic(auto)]

ghost use Rattle.std.specs.Prelude.{◌-◌, ◌<◌, ◌≤◌, List, ℕ, drop, IfOk};
ghost use Rattle.dbus_value_model.specs.ValueReaders.{Gives};
ghost use Rattle.dbus_header.specs.HeaderReading.{opening};

use dbus_value_model::{Limits, Reason, Stop, refuse};

/// That one more container may be opened, at a place where `opened` are open: `TooDeep` if none
/// may.
#[inline]
pub fn check_open(limits: Limits, opened: u8, at: usize) -> Result<(), Stop>
    requires { opened ≤ limits.depth }
    ensures gives { (bytes : List ℕ) →
        Gives (λ _. (limits.depth - opened - 1, at)) bytes result
        (opening (limits.depth - opened) at (drop at bytes)) }
    ensures there { IfOk result (λ _. opened < limits.depth) }
{
    if opened == limits.depth {
        return refuse(at, Reason::TooDeep);
    }
    Ok(())
}
