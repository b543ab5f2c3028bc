//! The messages of a source are counted, and none is built.
ghost use Rattle.std.specs.Prelude.{◌≡◌, ◌≤◌, ◌^◌, false};
ghost use Rattle.dbus_stream.specs.CheckReading.{limits_of, lengths};
ghost use Rattle.dbus_stream.specs.Reading.{IsNewReader, most_reads_of, source_of};
ghost use Rattle.cli_options.specs.Limiting.{ask_more};
ghost use Rattle.cli_options.specs.declared.settings.Settings.{Settings};
ghost use Rattle.cli_run.specs.ByName.{Tallies};
ghost use Rattle.cli_run.specs.Refusals.{number_of};
ghost use Rattle.cli_report.specs.Devices.{reading};

use crate::counted::Counted;
use crate::handing::ended_by;
use cli_options::Settings;
use cli_report::Cause;
use dbus_stream::{CheckReader, Source};

// Counts the messages of the reader, up to the end of the input or a fault.
fn count_all<R: Source>(messages: &mut CheckReader<R>) -> Result<Counted, Cause>
    requires { IsNewReader lengths (source_of messages.old) (most_reads_of messages.old)
        (limits_of messages.old) messages.old }
    ensures counts { (settings : Settings) → ask_more settings ≡ false →
        settings.limits ≡ limits_of messages.old → Tallies
        (reading R.left R.calls R.failures R.packets (source_of messages.old)
        (source_of messages.new))
        settings (most_reads_of messages.old) (number_of (R.packet (source_of messages.new)))
        result }
    ensures same_reference { R.reference (source_of messages.new) ≡
        R.reference (source_of messages.old) }
{
    let mut count = 0u64;
    'messages: loop {
        match messages.next() {
            Ok(Some(_)) => count += 1,
            Ok(None) => {
                return Ok(Counted {
                    count,
                    size: messages.done(),
                    fault: None,
                });
            }
            Err(fault) => return ended_by(count, messages.done(), fault),
        }
    }
}

/// Counts the messages of a source by settings that ask for no more, up to its end, a fault or this
/// number of reads, and hands the source back. It allocates nothing.
pub(crate) fn count_through<R: Source + Drop>(
    settings: Settings,
    reads: u64,
    source: R,
) -> (Result<Counted, Cause>, R)
    requires few { reads ≤ 2 ^ 32 }
    requires no_more { ask_more settings ≡ false }
    ensures counts { Tallies (reading R.left R.calls R.failures R.packets source result.1)
        settings reads (number_of (R.packet result.1)) result.0 }
    ensures same_reference { R.reference result.1 ≡ R.reference source }
{
    let mut messages = CheckReader::within(source, reads, settings.limits);
    let counted = count_all(&mut messages);
    (counted, messages.into_source())
}
