//! The messages of a source, listed in lines for a reader.
ghost use Rattle.std.specs.Prelude.{◌≡◌, ◌^◌, ℕ, false, List, length};
ghost use Rattle.std.proofs.Common.{ap};
ghost use Rattle.dbus_value_model.specs.declared.order.Order.{Order};
ghost use Rattle.dbus_message_model.specs.Messages.{MessageTree};
ghost use Rattle.dbus_header.specs.MessageOutcomes.{IsWhole};
ghost use Rattle.dbus_validate.specs.Validating.{IsValidatedWhole};
ghost use Rattle.dbus_list.specs.Lines.{IsLine};
ghost use Rattle.dbus_list.specs.Told.{told_seen};
ghost use Rattle.cli_report.specs.Devices.{reading, writing};
ghost use Rattle.cli_run.specs.LineLaws as laws;
ghost use Rattle.cli_run.specs.Output.{is_spent, line_place};
ghost use Rattle.cli_run.specs.LineListing.{LinesState, ListsLines, MakesLines, StandsAt};

use crate::byte_draft::ByteDraft;
use crate::ending::run_by;
use crate::line_names::{beside, learn_names};
use crate::picking::{first_names, selector_of, selects};
use crate::place::Lent;
use crate::renderer::Renderer;
use crate::selector::Selector;
use crate::showing::line_place;
use crate::window::{is_spent, lets_through};
use cli_options::{Settings, WantedLines, Window};
use cli_report::{Cause, ExitStatus, give_up};
use dbus_call_lines::Place;
use dbus_calls::EventView;
use dbus_list::{Beside, CallTable, write_line};
use dbus_names::Names;
use dbus_show::Draft;
use dbus_stream::{MOST_READS, Sink, Source};
use dbus_validate::Whole;
use dbus_view::MessageView;
use std::alloc::{AllocError, Global};

/// What makes the lines of messages.
#[derive(Drop)]
pub(crate) struct LineRenderer<'s> {
    /// Which messages are listed; without a selector, all.
    pub(crate) selector: Option<Selector<'s>>,
    /// The most cells of a line.
    pub(crate) width: u16,
    /// The window for the messages that follow.
    pub(crate) window: Window,
    /// Who has which name.
    pub(crate) names: Names,
    /// The calls that wait for their replies.
    pub(crate) calls: CallTable,
}

impl Renderer for LineRenderer<'_> {
    ghost State = { LinesState };

    ghost stands = { StandsAt };

    ghost makes = { MakesLines };

    ghost follows = { λ _ _. Unit {0} };

    ghost ends = { λ _ _ _. ⊥ };

    ghost full = { λ a. is_spent a.window };

    ghost spent = { λ s. is_spent s.window };

    ghost silent = { λ _. false };

    fn is_full(&self) -> bool {
        is_spent(&self.window)
    }

    fn is_silent(&self) -> bool {
        false
    }

    fn take<D: ByteDraft>(&mut self, lent: &Lent<'_>, draft: &mut D) -> Result<(), AllocError> {
        let view = MessageView::of_validated(lent.bytes, lent.limits, lent.validated);
        let place = Place {
            number: lent.place.number,
            time: lent.place.time,
        };
        let message = EventView::of(&view);
        let Ok(answered) = self.calls.take(place, &message) else {
            return Err(AllocError);
        };
        let selected = selects(&self.selector, &view, &self.names);
        let Ok(_) = learn_names(&message, &mut self.names) else {
            return Err(AllocError);
        };
        if !selected {
            return Ok(());
        }
        if !lets_through(&mut self.window) {
            return Ok(());
        }
        let told = beside(&view, place.time, &answered, &self.names);
        write_listed(draft, self.width, lent, told);
        Ok(())
    }

    ghost fills = { λ a s there. ap (λ (t : LinesState). is_spent t.window) there.1 };

    ghost nothing = { laws.nothing };

    ghost joins = { laws.joins };

    ghost splits = { λ s a b _. (tt, λ t p _. tt) };

    ghost quiet = { laws.quiet };
}

// Appends the line of the message, of at most so many cells, which tells this beside it.
fn write_listed<D: Draft>(draft: &mut D, width: u16, lent: &Lent<'_>, told: Beside<'_>)
    requires { IsValidatedWhole lent.now.limits lent.now.bytes.now lent.now.validated }
    ensures { (order : Order) (m : MessageTree) →
        IsWhole lent.now.limits lent.now.bytes.now order m (length lent.now.bytes.now) →
        (line : List ℕ) ×
        IsLine width (line_place lent.now.place) (told_seen told.entry) order m line ×
        D.gains draft.old line draft.new }
{
    let whole = Whole {
        bytes: lent.bytes,
        limits: lent.limits,
        validated: &lent.validated,
    };
    write_line(draft, width, &whole, line_place(lent.place), told);
}

/// Lists the messages of a source on the first writer, each that is selected as a line of at most
/// so many cells, with at most 2^32 reads, and tells the second writer of messages that are
/// refused, as [`crate::run_with`] does. A reply to a call that came before it in the input is told
/// with the call's number, also if that is not selected; how long it took, if the input has times.
/// A connection is told with the name that it is known to have, by the messages up to this one. Of
/// the lines that there are the window of the settings lets some through, and nothing is read after
/// the last of them, unless the rest is to be checked. What is written is gathered up to 16,384
/// bytes, and goes out before each read.
///
/// `Done`, `Refused`: all was written, and whether anything was refused. `Failed`: a read or a
/// write failed, as many reads were made as may be, or memory ran out; if it was not a write to the
/// second writer, that is told there.
pub fn list_lines<R: Source, W: Sink, E: Sink>(
    alloc: Global,
    settings: Settings,
    wanted: &WantedLines,
    reader: &mut R,
    first: &mut W,
    second: &mut E,
) -> ExitStatus
    ensures { ListsLines (reading R.left R.calls R.failures R.packets reader.old reader.new)
        (writing W.held W.failures first.old first.new)
        (writing E.held E.failures second.old second.new)
        settings wanted.now (2 ^ 32) result }
{
    let Ok(selector) = selector_of(&wanted.selection) else {
        return give_up(Cause::Memory, second);
    };
    let Ok(names) = first_names(alloc, &wanted.selection) else {
        return give_up(Cause::Memory, second);
    };
    let renderer = LineRenderer {
        selector,
        width: wanted.width,
        window: settings.window,
        names,
        calls: CallTable::new(alloc),
    };
    run_by(alloc, settings, MOST_READS, renderer, reader, first, second)
}
