//! The lines of an input, encoded one after another.
ghost use Rattle.std.specs.Prelude.{◌≡◌, ◌≤◌, ◌^◌, ◌++◌, ℕ, List};
ghost use Rattle.cli_report.specs.Devices.{reading, taken, writing};
ghost use Rattle.cli_report.specs.Gathering.{gathered_bytes};
ghost use Rattle.dbus_lines.specs.LineReading.{IsNewReader, Keeps, Reads, ReadsNothing, most_reads_of, source_of};
ghost use Rattle.cli_encode.specs.Runs.{EncodesAll, EncodesLines, EncodesSource, GivesKept, LineAnswers, ReadFails, Settles, cause_of, status_of};
ghost use Rattle.cli_encode.specs.Steps.{IsNewEncoder, SameState};

use crate::encoder::Encoder;
use crate::encoding::Encoding;
use crate::ending::{Stop, tell_stop};
use cli_report::{Cause, ExitStatus, Unwritten};
use dbus_lines::{LineReader, NoLine};
use dbus_stream::{Sink, Source};
use std::alloc::{AllocError, Allocator};

// Why a run is given up by a fault of its reader.
fn cause_of(fault: NoLine) -> Cause
    ensures { result ≡ cause_of fault }
{
    match fault {
        NoLine::Memory => Cause::Memory,
        NoLine::Device => Cause::ReadFailed,
        NoLine::TooManyReads => Cause::TooManyReads,
    }
}

// How a run ends that was not given up.
fn status_of(refused: bool) -> ExitStatus
    ensures { result ≡ status_of refused }
{
    if refused {
        ExitStatus::Refused
    } else {
        ExitStatus::Done
    }
}

// Gives the next line, if it is kept whole and there is memory for it.
fn next_kept<R: Source, A: Allocator>(lines: &mut LineReader<R, A>) -> bool
    ensures kept { (w : List ℕ) → Keeps lines.old w → GivesKept w lines.new result }
    ensures unread { ReadsNothing lines.old lines.new }
{
    match lines.next_kept() {
        Ok(is_kept) => is_kept,
        Err(AllocError) => false,
    }
}

// Reads the next line, if there is one, after all that is gathered was written if more has to be
// read for it.
fn next_line<R: Source, A: Allocator + Copy, W: Sink>(
    lines: &mut LineReader<R, A>,
    encoder: &mut Encoder<A>,
    first: &mut W,
) -> Result<bool, Cause>
    ensures reads { (w : List ℕ) → Keeps lines.old w →
        (r : Reads R.left R.calls R.failures w lines.old lines.new) ×
        LineAnswers (w ++ r.bytes) lines.new result }
    ensures settles { Settles W.held W.failures (gathered_bytes encoder.old.gathered)
        (gathered_bytes encoder.new.gathered) first.old first.new result }
    ensures same { SameState encoder.old encoder.new }
    ensures failed { ReadFails (R.failures (source_of lines.old)) (R.failures (source_of lines.new))
        result }
    ensures same_reference { R.reference (source_of lines.new) ≡ R.reference (source_of lines.old) }
{
    if next_kept(lines) {
        return Ok(true);
    }
    match encoder.settle(first) {
        Ok(()) => {}
        Err(Unwritten) => return Err(Cause::WriteFailed),
    }
    match lines.next() {
        Ok(more) => Ok(more),
        Err(fault) => Err(cause_of(fault)),
    }
}

// Encodes the lines of the reader, up to its end, or a line after which the run does not go on.
fn encode_all<R: Source, A: Allocator + Copy, W: Sink, E: Sink>(
    alloc: A,
    lines: &mut LineReader<R, A>,
    encoder: &mut Encoder<A>,
    first: &mut W,
    second: &mut E,
) -> Result<(), Stop>
    requires new { IsNewReader (source_of lines.old) (most_reads_of lines.old)
        encoder.old.encoding.most lines.old }
    requires few { most_reads_of lines.old ≤ 2 ^ 32 }
    requires starts { IsNewEncoder encoder.old }
    ensures encodes { EncodesAll (taken
        (reading R.left R.calls R.failures R.packets (source_of lines.old) (source_of lines.new)))
        (writing W.held W.failures first.old first.new)
        (writing E.held E.failures second.old second.new)
        encoder.old.encoding (most_reads_of lines.old) encoder.new.refused result }
    ensures same_reference { R.reference (source_of lines.new) ≡ R.reference (source_of lines.old) }
{
    'lines: loop {
        match next_line(lines, encoder, first) {
            Ok(true) => {}
            Ok(false) => return Ok(()),
            Err(cause) => return Err(Stop::Cause(cause)),
        }
        match encoder.take(alloc, lines.line(), first, second) {
            Ok(()) => {}
            Err(stop) => return Err(stop),
        }
        if encoder.is_over() {
            return Ok(());
        }
    }
}

// The same of a source, which is handed back, and whether a line was refused.
fn encode_source<R: Source + Drop, A: Allocator + Copy, W: Sink, E: Sink>(
    alloc: A,
    encoding: Encoding,
    reads: u64,
    source: R,
    first: &mut W,
    second: &mut E,
) -> (Result<bool, Stop>, R)
    requires { reads ≤ 2 ^ 32 }
    ensures encodes { EncodesSource
        (taken (reading R.left R.calls R.failures R.packets source result.1))
        (writing W.held W.failures first.old first.new)
        (writing E.held E.failures second.old second.new) encoding reads result.0 }
    ensures same_reference { R.reference result.1 ≡ R.reference source }
{
    let mut lines = LineReader::new(alloc, source, reads, encoding.most);
    let mut encoder = Encoder::new(alloc, encoding);
    let ended = encode_all(alloc, &mut lines, &mut encoder, first, second);
    let source = lines.into_source();
    match ended {
        Ok(()) => (Ok(encoder.refused), source),
        Err(stop) => (Err(stop), source),
    }
}

/// Writes the message that each line spells which the reader gives, as
/// [`dbus_json_lines::message_of_line`] reads it, on the first writer. At most `reads` reads are
/// made, the one that finds the end of the input among them. The lines are those of
/// [`dbus_lines::LineReader`]: each ends with a line feed, but the last may lack one. One that is
/// blank is passed over. A message with no serial has the number of its line among those that are
/// not blank, from 1 to 2^32 - 1 and then from 1 again.
///
/// A line that spells no message is refused, and one of more bytes than a line may have:
/// `refused at line N, column C: REASON` on the second writer, the number of the line from 1 among
/// all, the place of the [`crate::Refusal`] in bytes from 1, and the name of its reason. If it is to
/// be explained, more lines follow there, each after two spaces: unless it is too long, at most 40
/// bytes of the line before the place and 36 from there on, as text with U+FFFD for what is no
/// UTF-8, and a `^` below the place; and what has to be there. What came before it is written first.
/// The run ends there, unless it is to go on.
///
/// If the run fails, it stops at the first cause that it meets, and writes `read failed`, `write
/// failed`, `too many reads` or `out of memory` on the second writer. Each line ends in LF. What is
/// written is gathered up to 16,384 bytes, and goes out before each read, before a line that is
/// refused is told, and before the status is given. A writer gets no more after a write to it
/// failed.
///
/// The run holds a line, its JSON and its message at a time, and uses their memory again.
///
/// `Done`: each line was a message, or blank. `Refused`: one was refused, and that was told.
/// `Failed`: a read failed, a write to either writer failed or took none of its bytes, as many
/// reads were made as may be, or an allocation failed. It is never `Usage`.
pub fn encode_lines<A: Allocator + Copy, R: Source, W: Sink, E: Sink>(
    alloc: A,
    encoding: Encoding,
    reads: u64,
    reader: &mut R,
    first: &mut W,
    second: &mut E,
) -> ExitStatus
    requires { reads ≤ 2 ^ 32 }
    ensures { EncodesLines (reading R.left R.calls R.failures R.packets reader.old reader.new)
        (writing W.held W.failures first.old first.new)
        (writing E.held E.failures second.old second.new)
        encoding reads result }
{
    let (ended, _source) = encode_source(alloc, encoding, reads, reader, first, &mut *second);
    match ended {
        Ok(refused) => status_of(refused),
        Err(stop) => tell_stop(stop, second),
    }
}
