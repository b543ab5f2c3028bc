//! The lines of a handshake, listed.
ghost use Rattle.std.specs.Prelude.{◌≡◌, []};
ghost use Rattle.dbus_handshake_input.specs.Ahead.{source_of};
ghost use Rattle.dbus_handshake_input.specs.Passing.{Counts};
ghost use Rattle.cli_report.specs.Devices.{writing};
ghost use Rattle.cli_report.specs.Gathering.{gathered_bytes};
ghost use Rattle.dbus_tool.specs.Handshaking.{GathersLines, PutsLines, WritesLines};

use cli_report::{OutputBuffer, Page, Unwritten, write_out};
use dbus_handshake_input::{HandshakeFault, HandshakeSize, ReadAhead, Side, read_handshake};
use dbus_show_handshake::{ShownLines, write_size};
use dbus_stream::{Sink, Source};
use std::alloc::Global;

/// Reads the handshake of a side, and writes a line for each of its lines, and at its end one with
/// their number.
#[tactic(auto, using(crate::proofs::SameAsked::written_out))]
pub(crate) fn write_lines<R: Source, W: Sink>(
    alloc: Global,
    side: Side,
    reader: &mut ReadAhead<R>,
    first: &mut W,
) -> (Result<HandshakeSize, HandshakeFault>, Result<(), Unwritten>)
    ensures lines { WritesLines R.left R.calls R.packets R.packet reader.old reader.new
        (writing W.held W.failures first.old first.new) side result.0
        result.1 }
    ensures failed { Counts (R.failures (source_of reader.old)) (R.failures (source_of reader.new))
        result.0 }
{
    let mut gathered = OutputBuffer::new();
    let (read, put) = gather_lines(alloc, side, reader, &mut gathered, first);
    match put {
        Ok(()) => (read, write_out(&mut gathered, first)),
        Err(Unwritten) => (read, Err(Unwritten)),
    }
}

// Reads the handshake, and gathers or writes those lines.
fn gather_lines<R: Source, W: Sink>(
    alloc: Global,
    side: Side,
    reader: &mut ReadAhead<R>,
    gathered: &mut OutputBuffer,
    first: &mut W,
) -> (Result<HandshakeSize, HandshakeFault>, Result<(), Unwritten>)
    ensures lines { GathersLines R.left R.calls R.packets R.packet reader.old reader.new
        (writing W.held W.failures first.old first.new) side
        (gathered_bytes gathered.old) (gathered_bytes gathered.new) result.0 result.1 }
    ensures failed { Counts (R.failures (source_of reader.old)) (R.failures (source_of reader.new))
        result.0 }
{
    let mut shown = ShownLines(Page {
        gathered,
        first,
        failed: false,
    });
    let read = put_lines(alloc, side, reader, &mut shown);
    if shown.0.failed {
        (read, Err(Unwritten))
    } else {
        (read, Ok(()))
    }
}

// Reads the handshake, and puts those lines on the page.
#[tactic(auto, using(crate::proofs::SameAsked::puts_all, crate::proofs::SameAsked::puts_some))]
fn put_lines<R: Source, W: Sink>(
    alloc: Global,
    side: Side,
    reader: &mut ReadAhead<R>,
    shown: &mut ShownLines<Page<'_, W>>,
) -> Result<HandshakeSize, HandshakeFault>
    ensures lines { PutsLines R.left R.calls R.packets R.packet reader.old reader.new W.held W.failures
        shown.old.0 shown.new.0 side result }
    ensures failed { Counts (R.failures (source_of reader.old)) (R.failures (source_of reader.new))
        result }
{
    match read_handshake(alloc, side, reader, shown) {
        Ok(size) => {
            write_size(&mut shown.0, size);
            Ok(size)
        }
        Err(fault) => Err(fault),
    }
}
