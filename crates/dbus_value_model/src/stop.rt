//! Why reading stops before what is wanted is whole.
#![tactic(auto)]

ghost use Rattle.std.specs.Prelude.{◌≡◌, Err};
ghost use Rattle.dbus_value_model.specs.Items.{fault};
ghost use Rattle.dbus_value_model.specs.declared.stop.Stop.TheVariants.{Refused};

use crate::fault::{Fault, Reason};

/// Why reading stops before what is wanted is whole.
#[derive(Clone, Copy, PartialEq, Eq, Debug)]
pub enum Stop {
    /// The bytes given end here, and show no fault.
    Partial,
    /// The bytes are refused.
    Refused(Fault),
}

/// The answer that the bytes at a place are refused.
pub fn refuse<T>(at: usize, reason: Reason) -> Result<T, Stop>
    ensures { result ≡ Err (Refused (fault at reason)) }
{
    Err(Stop::Refused(Fault {
        at: at as u64,
        reason,
    }))
}
