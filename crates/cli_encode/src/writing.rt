//! What the writers get of a line.
#![tactic(auto)]

ghost use Rattle.std.specs.Prelude.{◌≡◌, IfOk, string_bytes};
ghost use Rattle.cli_report.specs.Gathering.{Gathers, gathered_bytes};
ghost use Rattle.cli_encode.specs.Outcomes.{refused_text};
ghost use Rattle.cli_encode.specs.Running.{TellsLine};

use crate::ending::Stop;
use crate::reason::Refusal;
use cli_report::{Cause, OutputBuffer, Page, Unwritten};
use dbus_stream::{Sink, WrittenOnly, write_all};
use std::alloc::{AllocError, Allocator};

/// Writes or gathers bytes.
pub(crate) fn write_bytes<W: Sink>(
    bytes: &[u8],
    gathered: &mut OutputBuffer,
    first: &mut W,
) -> Result<(), Unwritten>
    ensures { Gathers W.held W.failures bytes.now (gathered_bytes gathered.old)
        (gathered_bytes gathered.new) first.old first.new result }
{
    let mut page = Page {
        gathered,
        first,
        failed: false,
    };
    page.push_bytes(bytes);
    if page.failed { Err(Unwritten) } else { Ok(()) }
}

// What is told of a line that is refused, which is so explained.
fn refused_text<A: Allocator + Copy>(
    alloc: A,
    number: u64,
    refusal: Refusal,
    explained: &str,
) -> Result<String<A>, AllocError>
    ensures { IfOk result (λ text. string_bytes text ≡ refused_text number refusal explained.now) }
{
    let column = refusal.at as u128 + 1;
    let reason = refusal.reason;
    format!(in alloc; "refused at line {number}, column {column}: {reason}\n{explained}")
}

/// Tells that the line of this number is refused, and what explains that.
pub(crate) fn tell_refused<A: Allocator + Copy, E: Sink>(
    alloc: A,
    number: u64,
    refusal: Refusal,
    explained: &str,
    second: &mut E,
) -> Result<(), Stop>
    ensures { TellsLine E.held E.failures (refused_text number refusal explained.now) second.old
        second.new result }
{
    match refused_text(alloc, number, refusal, explained) {
        Ok(text) => match write_all(second, text.as_bytes()) {
            Ok(()) => Ok(()),
            Err(WrittenOnly(_)) => Err(Stop::Untold),
        },
        Err(AllocError) => Err(Stop::Cause(Cause::Memory)),
    }
}
