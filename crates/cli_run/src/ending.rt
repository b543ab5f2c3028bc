//! A run of what makes texts of messages.
ghost use Rattle.std.specs.Prelude.{◌≤◌, ◌^◌, List, string_bytes};
ghost use Rattle.cli_report.specs.Devices.{reading, writing};
ghost use Rattle.cli_report.specs.Gathering.{gathered_bytes};
ghost use Rattle.cli_run.specs.Inputs.{ArePlaced, Part, Placed};
ghost use Rattle.cli_run.specs.Making.{GathersLast, RunsBy, RunsToEnd, TellsNote, WritesLast};

use crate::going::{pass_through, tell_stop};
use crate::output_writer::OutputWriter;
use crate::renderer::{EndRenderer, Renderer};
use crate::visitor::write_text;
use cli_options::Settings;
use cli_report::{Cause, ExitStatus, OutputBuffer, Page, Unwritten, give_up, write_out};
use dbus_stream::{MOST_READS, Sink, Source};
use std::alloc::{AllocError, Allocator, Global};

/// Writes on the first writer what is made of the messages of a source, with at most so many reads,
/// and tells the second writer of messages that are refused, as [`crate::run_with`] does.
pub(crate) fn run_by<A: Allocator + Copy, C: Renderer + Drop, R: Source, W: Sink, E: Sink>(
    alloc: A,
    settings: Settings,
    reads: u64,
    renderer: C,
    reader: &mut R,
    first: &mut W,
    second: &mut E,
) -> ExitStatus
    requires { reads ≤ 2 ^ 32 }
    ensures { (s : C.State) → C.stands renderer s → ((items : List Placed) → C.follows s items) →
        RunsBy C.makes s C.spent (C.silent renderer)
        (reading R.left R.calls R.failures R.packets reader.old reader.new)
        (writing W.held W.failures first.old first.new)
        (writing E.held E.failures second.old second.new) settings reads result }
{
    let is_check = renderer.is_silent();
    let mut visitor = OutputWriter {
        renderer,
        gathered: OutputBuffer::new(),
        first,
        second: &mut *second,
    };
    let (ended, _source) = pass_through(alloc, settings, is_check, reads, reader, &mut visitor);
    let (_renderer, first_writer, _second) = visitor.into_parts();
    let _first = first_writer.into_inner();
    match ended {
        Ok(status) => status,
        Err(stop) => tell_stop(stop, is_check, second),
    }
}

/// Writes on the first writer what is made of the messages of a source, and what is made at the
/// end, with at most 2^32 reads, and tells the second writer of messages that are refused, as
/// [`crate::run_with`] does, and the note at the end.
pub(crate) fn run_to_end<C: EndRenderer + Drop, R: Source, W: Sink, E: Sink>(
    alloc: Global,
    settings: Settings,
    renderer: C,
    reader: &mut R,
    first: &mut W,
    second: &mut E,
) -> ExitStatus
    ensures { (s : C.State) → C.stands renderer s →
        ((parts : List Part) (items : List Placed) → ArePlaced (R.packets reader.old) 1 0 parts items →
        C.follows s items) →
        RunsToEnd C.makes s C.ends
        (reading R.left R.calls R.failures R.packets reader.old reader.new)
        (writing W.held W.failures first.old first.new)
        (writing E.held E.failures second.old second.new) settings (2 ^ 32) result }
{
    let mut visitor = OutputWriter {
        renderer,
        gathered: OutputBuffer::new(),
        first,
        second: &mut *second,
    };
    let (ended, _source) = pass_through(alloc, settings, false, MOST_READS, reader, &mut visitor);
    let (renderer, first_writer, _second) = visitor.into_parts();
    let writer = first_writer.into_inner();
    match ended {
        Ok(status) => match write_last(renderer, writer) {
            Ok(note) => tell_note(note, status, second),
            Err(cause) => give_up(cause, second),
        },
        Err(stop) => tell_stop(stop, false, second),
    }
}

// Writes what is made at the end, and returns the note.
fn write_last<C: EndRenderer, W: Sink>(renderer: C, first: &mut W) -> Result<String, Cause>
    ensures { (s : C.State) → C.stands renderer s →
        WritesLast C.ends s (writing W.held W.failures first.old first.new) result }
{
    let mut gathered = OutputBuffer::new();
    match gather_last(renderer, &mut gathered, first) {
        Ok(note) => match write_out(&mut gathered, first) {
            Ok(()) => Ok(note),
            Err(Unwritten) => Err(Cause::WriteFailed),
        },
        Err(cause) => Err(cause),
    }
}

// Writes or gathers it.
fn gather_last<C: EndRenderer, W: Sink>(
    renderer: C,
    gathered: &mut OutputBuffer,
    first: &mut W,
) -> Result<String, Cause>
    ensures { (s : C.State) → C.stands renderer s →
        GathersLast C.ends s (writing W.held W.failures first.old first.new)
        (gathered_bytes gathered.old) (gathered_bytes gathered.new) result }
{
    let mut page = Page {
        gathered,
        first,
        failed: false,
    };
    match renderer.finish(&mut page) {
        Ok(note) => {
            if page.failed {
                Err(Cause::WriteFailed)
            } else {
                Ok(note)
            }
        }
        Err(AllocError) => Err(Cause::Memory),
    }
}

// Tells this note, and returns the status that is due then.
fn tell_note<E: Sink>(note: String, due: ExitStatus, second: &mut E) -> ExitStatus
    ensures { TellsNote (writing E.held E.failures second.old second.new) (string_bytes note) due result }
{
    match write_text(second, note.as_str()) {
        Ok(()) => due,
        Err(Unwritten) => ExitStatus::Failed,
    }
}
