//! What takes the messages of an input, and tells of those that are refused.
ghost use Rattle.std.specs.Prelude.{◌≡◌, ℕ, Bool, IfOk, List, length};
ghost use Rattle.dbus_value_model.specs.declared.order.Order.{Order};
ghost use Rattle.dbus_message_model.specs.Messages.{MessageTree};
ghost use Rattle.dbus_header.specs.MessageOutcomes.{IsWhole};
ghost use Rattle.dbus_validate.specs.Validating.{IsValidatedWhole};
ghost use Rattle.cli_report.specs.Gathering.{WritesSome};
ghost use Rattle.cli_run.specs.Inputs.{Placed};
ghost use Rattle.cli_run.specs.Visiting.{AddsUp, LetsGo, TakesOne, TellsOne};

use crate::place::Lent;
use cli_report::{Cause, Unwritten, write_some};
use dbus_stream::Sink;

/// Why a run is given up.
#[derive(Clone, Copy, Debug, PartialEq, Eq)]
pub(crate) enum RunStop {
    /// By this cause, which the second writer is to be told.
    Cause(Cause),
    /// A write of what is told failed.
    Untold,
}

/// What takes the messages of an input, one after the other, and tells what is to be told.
///
/// Its relations say what becomes of it by messages, each with its place in the input, and by what
/// it tells. Its law says that this adds up.
pub(crate) trait MessageVisitor {
    ghost use Rattle.cli_run.specs.declared.visitor.RunStop.{RunStop};

    // It took these messages, and told this text: what it was before, and after.
    ghost takes: { Self → Self → List Placed → List ℕ → Type 0 };

    // It took these messages and told this text, as far as this stop let it. It holds nothing back,
    // unless a write failed.
    ghost leaves: { Self → Self → List Placed → List ℕ → RunStop → Type 0 };

    // It holds nothing back.
    ghost settled: { Self → Type 0 };

    // It wants no more messages.
    ghost full: { Self → Bool };

    /// Whether it wants no more messages: what follows those that it took is not read then.
    fn is_full(&self) -> bool
        ensures { result ≡ full self.now };

    /// Lets go of what it holds back of the messages that it took.
    ///
    /// `Unwritten`: a write failed, or took none of its bytes.
    fn settle(&mut self) -> Result<(), Unwritten>
        ensures lets_go { LetsGo takes leaves self.old self.new result }
        ensures settled { settled self.new };

    /// Takes a message.
    ///
    /// `Memory`: there was not enough memory, and it let go of what it held back. `WriteFailed`: a
    /// write failed, or took none of its bytes.
    fn take(&mut self, lent: &Lent<'_>) -> Result<(), Cause>
        requires { IsValidatedWhole lent.now.limits lent.now.bytes.now lent.now.validated }
        ensures { (order : Order) (m : MessageTree) →
            IsWhole lent.now.limits lent.now.bytes.now order m (length lent.now.bytes.now) →
            TakesOne takes leaves self.old self.new
            (record { place = lent.now.place; item = record { order = order; message = m; size = length lent.now.bytes.now } }) result };

    /// Tells a text.
    ///
    /// `Unwritten`: a write of it failed, or took none of its bytes.
    fn tell(&mut self, text: &str) -> Result<(), Unwritten>
        requires { settled self.old }
        ensures tells { TellsOne takes leaves self.old self.new text.now result }
        ensures settled { IfOk result (λ _. settled self.new) };

    ghost adds_up: { AddsUp takes leaves settled full };
}

/// Writes a text that is told.
pub(crate) fn write_text<W: Sink>(writer: &mut W, text: &str) -> Result<(), Unwritten>
    ensures { WritesSome W.held W.failures text.now writer.old writer.new result }
{
    write_some(text.as_bytes(), writer)
}
