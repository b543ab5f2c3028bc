//! Bytes that are gathered before they are written.
ghost use Rattle.std.specs.Prelude.{◌≡◌, []};
ghost use Rattle.cli_report.specs.Gathering.{Gathers, WritesSome, gathered_bytes};

use crate::output_buffer::OutputBuffer;
use dbus_stream::{Sink, WrittenOnly, write_all};

/// A write failed, or took none of its bytes.
#[derive(Clone, Copy, Debug, PartialEq, Eq)]
pub struct Unwritten;

/// Writes what is gathered, and then these bytes.
pub(crate) fn write_after<W: Sink>(
    bytes: &[u8],
    gathered: &mut OutputBuffer,
    first: &mut W,
) -> Result<(), Unwritten>
    ensures { Gathers W.held W.failures bytes.now (gathered_bytes gathered.old)
        (gathered_bytes gathered.new) first.old
        first.new result }
{
    match write_out(gathered, first) {
        Ok(()) => write_some(bytes, first),
        Err(Unwritten) => Err(Unwritten),
    }
}

/// Writes what is gathered, and then nothing is gathered.
///
/// `Unwritten`: a write failed, or took none of its bytes.
pub fn write_out<W: Sink>(gathered: &mut OutputBuffer, first: &mut W) -> Result<(), Unwritten>
    ensures gathers { Gathers W.held W.failures [] (gathered_bytes gathered.old)
        (gathered_bytes gathered.new) first.old
        first.new result }
    ensures emptied { (gathered_bytes gathered.new) ≡ [] }
{
    let written = write_some(gathered.as_slice(), first);
    gathered.clear();
    written
}

/// Writes these bytes, by no call if there are none.
///
/// `Unwritten`: a write failed, or took none of its bytes.
pub fn write_some<W: Sink>(bytes: &[u8], first: &mut W) -> Result<(), Unwritten>
    ensures { WritesSome W.held W.failures bytes.now first.old first.new result }
{
    if bytes.is_empty() {
        return Ok(());
    }
    match write_all(first, bytes) {
        Ok(()) => Ok(()),
        Err(WrittenOnly(_)) => Err(Unwritten),
    }
}
