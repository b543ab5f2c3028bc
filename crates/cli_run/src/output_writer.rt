//! What writes what is made of each message, and tells of those that are refused.
ghost use Rattle.std.specs.Prelude.{◌≡◌, ◌∷◌, [], ℕ, List, length};
ghost use Rattle.dbus_value_model.specs.declared.order.Order.{Order};
ghost use Rattle.dbus_message_model.specs.Messages.{MessageTree};
ghost use Rattle.dbus_header.specs.MessageOutcomes.{IsWhole};
ghost use Rattle.dbus_validate.specs.Validating.{IsValidatedWhole};
ghost use Rattle.cli_report.specs.Devices.{writing};
ghost use Rattle.cli_report.specs.Gathering.{gathered_bytes};
ghost use Rattle.cli_run.specs.OutputWriting.{GathersNone, GathersOne, LeavesWritten, WritesAll, placed_at};
ghost use Rattle.cli_run.specs.VisitorLaws.{output_adds_up};

use crate::place::Lent;
use crate::renderer::Renderer;
use crate::visitor::{MessageVisitor, write_text};
use cli_report::{Cause, OutputBuffer, Page, Unwritten, write_out};
use dbus_stream::Sink;
use std::alloc::AllocError;

/// Writes what is made of each message, and tells of those that are refused.
#[derive(Drop)]
pub(crate) struct OutputWriter<'a, 'b, C, W, E> {
    /// What makes it.
    pub(crate) renderer: C,
    /// What is gathered for the first writer.
    pub(crate) gathered: OutputBuffer,
    /// The writers.
    pub(crate) first: &'a mut W,
    pub(crate) second: &'b mut E,
}

impl<'a, 'b, C, W, E> OutputWriter<'a, 'b, C, W, E> {
    /// What makes it, and the writers. The first has a struct around it, since the proofs follow
    /// one reference alone.
    pub(crate) fn into_parts(self) -> (C, First<'a, W>, &'b mut E)
        ensures renderer { result.0 ≡ self.entry.renderer }
        ensures same_first { result.1.0.ghost_name ≡ self.entry.first.ghost_name }
        ensures first { result.1.0.now ≡ self.entry.first.now }
        ensures same_second { result.2.ghost_name ≡ self.entry.second.ghost_name }
        ensures second { result.2.now ≡ self.entry.second.now }
    {
        (self.renderer, First(self.first), self.second)
    }
}

/// A first writer.
#[derive(Drop)]
pub(crate) struct First<'a, W>(pub(crate) &'a mut W);

impl<'a, W> First<'a, W> {
    /// The writer.
    pub(crate) fn into_inner(self) -> &'a mut W
        ensures same_reference { result.ghost_name ≡ self.entry.0.ghost_name }
        ensures now { result.now ≡ self.entry.0.now }
    {
        self.0
    }
}

impl<C: Renderer, W: Sink, E: Sink> MessageVisitor for OutputWriter<'_, '_, C, W, E> {
    ghost takes = { WritesAll C.stands C.makes C.follows C.silent W.held W.failures E.held E.failures };

    ghost leaves = { LeavesWritten C.stands C.makes C.follows C.silent W.held W.failures E.held E.failures };

    ghost settled = { λ a. gathered_bytes a.gathered ≡ [] };

    ghost full = { λ a. C.full a.renderer };

    fn is_full(&self) -> bool {
        self.renderer.is_full()
    }

    fn settle(&mut self) -> Result<(), Unwritten> {
        write_out(&mut self.gathered, self.first)
    }

    fn take(&mut self, lent: &Lent<'_>) -> Result<(), Cause> {
        match write_one(&mut self.renderer, lent, &mut self.gathered, self.first) {
            Ok(Ok(())) => Ok(()),
            Ok(Err(AllocError)) => match write_out(&mut self.gathered, self.first) {
                Ok(()) => Err(Cause::Memory),
                Err(Unwritten) => Err(Cause::WriteFailed),
            },
            Err(Unwritten) => Err(Cause::WriteFailed),
        }
    }

    fn tell(&mut self, text: &str) -> Result<(), Unwritten> {
        if self.renderer.is_silent() {
            write_text(self.first, text)
        } else {
            write_text(self.second, text)
        }
    }

    ghost adds_up = { output_adds_up C.stands C.makes C.follows C.silent W.held W.failures E.held E.failures C.full C.nothing C.joins C.splits };
}

// Writes or gathers what is made of the message, and says whether there was memory for it.
fn write_one<C: Renderer, W: Sink>(
    renderer: &mut C,
    lent: &Lent<'_>,
    gathered: &mut OutputBuffer,
    first: &mut W,
) -> Result<Result<(), AllocError>, Unwritten>
    requires { IsValidatedWhole lent.now.limits lent.now.bytes.now lent.now.validated }
    ensures writes { (order : Order) (m : MessageTree) →
        IsWhole lent.now.limits lent.now.bytes.now order m (length lent.now.bytes.now) →
        (s : C.State) → C.stands renderer.old s →
        C.follows s (placed_at lent.now.place order m (length lent.now.bytes.now) ∷ []) →
        (t : C.State) × (text : List ℕ) × C.makes s
        (placed_at lent.now.place order m (length lent.now.bytes.now) ∷ []) text t ×
        GathersOne C.stands (writing W.held W.failures first.old first.new) t renderer.new
        text (gathered_bytes gathered.old) (gathered_bytes gathered.new) result }
    ensures short { GathersNone (writing W.held W.failures first.old first.new)
        (gathered_bytes gathered.old) (gathered_bytes gathered.new) result }
    ensures silent { C.silent renderer.new ≡ C.silent renderer.old }
{
    let mut page = Page {
        gathered,
        first,
        failed: false,
    };
    let taken = renderer.take(lent, &mut page);
    if page.failed {
        return Err(Unwritten);
    }
    Ok(taken)
}
