//! Why a run is given up, and what is told of that.
ghost use Rattle.std.specs.Prelude.{◌≡◌};
ghost use Rattle.cli_encode.specs.Running.{TellsStop};

use cli_report::{Cause, ExitStatus, give_up};
use dbus_stream::Sink;

/// Why a run is given up.
#[derive(Clone, Copy, Debug, PartialEq, Eq)]
pub(crate) enum Stop {
    /// By this cause, which the second writer is to be told.
    Cause(Cause),
    /// A write to the second writer failed.
    Untold,
}

/// Tells the second writer why the run is given up, unless a write to it failed.
pub(crate) fn tell_stop<E: Sink>(stop: Stop, second: &mut E) -> ExitStatus
    ensures failed { result ≡ ExitStatus.Failed }
    ensures tells { TellsStop E.held E.failures stop second.old second.new }
{
    match stop {
        Stop::Cause(cause) => give_up(cause, second),
        Stop::Untold => ExitStatus::Failed,
    }
}
