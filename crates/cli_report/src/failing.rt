//! What a failed run reports.
ghost use Rattle.std.specs.Prelude.{◌≡◌};
ghost use Rattle.cli_report.specs.Telling.{Told};

use crate::ending::{Cause, ExitStatus};
use crate::lines::cause_line;
use dbus_stream::{Sink, write_all};

/// Writes the line of the cause on the second writer, and returns that the run failed. If that
/// write fails, it writes nothing more.
pub fn give_up<E: Sink>(cause: Cause, second: &mut E) -> ExitStatus
    ensures failed { result ≡ ExitStatus.Failed }
    ensures told { Told E.held E.failures second.old second.new cause }
{
    let _ = write_all(second, cause_line(cause).as_bytes());
    ExitStatus::Failed
}
