//! The messages of a source, counted by their names.
ghost use Rattle.std.specs.Prelude.{◌≡◌, ◌^◌, false};
ghost use Rattle.std.specs.Option.{option_to_list};
ghost use Rattle.std.proofs.Common.{refl};
ghost use Rattle.dbus_count.specs.Spans.{with_times};
ghost use Rattle.cli_report.specs.Devices.{reading, writing};
ghost use Rattle.cli_run.specs.ByName.{CountsByName, CountsState, EndsCounts, MakesCounts, counts_at, table_form};
ghost use Rattle.cli_run.specs.CountLaws as laws;

use crate::byte_draft::ByteDraft;
use crate::ending::run_to_end;
use crate::picking::{picks, selector_of};
use crate::place::Lent;
use crate::renderer::{EndRenderer, Renderer};
use crate::selector::Selector;
use cli_options::{Selection, Settings};
use cli_report::{Cause, ExitStatus, give_up};
use dbus_count::{Counts, Form, Span};
use dbus_names::Names;
use dbus_stream::{Sink, Source};
use dbus_view::MessageView;
use std::alloc::{AllocError, Global};

/// What counts messages by their names.
#[derive(Drop)]
pub(crate) struct CountRenderer<'s> {
    alloc: Global,
    /// The form of the tables.
    pub(crate) form: Form,
    /// Which messages are counted; without a selector, all.
    pub(crate) selector: Option<Selector<'s>>,
    /// What is known of the owners of names, once a message was looked at.
    pub(crate) owners: Option<Names>,
    /// The counts.
    pub(crate) counts: Counts,
    /// From when to when the messages were captured that have a time.
    pub(crate) span: Option<Span>,
}

impl Renderer for CountRenderer<'_> {
    ghost State = { CountsState };

    ghost stands = { λ a s. s ≡ counts_at a };

    ghost makes = { MakesCounts };

    ghost follows = { λ _ _. Unit {0} };

    ghost ends = { EndsCounts };

    ghost full = { λ _. false };

    ghost spent = { λ _. false };

    ghost silent = { λ _. false };

    fn is_full(&self) -> bool {
        false
    }

    fn is_silent(&self) -> bool {
        false
    }

    fn take<D: ByteDraft>(&mut self, lent: &Lent<'_>, _draft: &mut D) -> Result<(), AllocError> {
        let Ok(selected) = picks(&self.selector, lent, &mut self.owners) else {
            return Err(AllocError);
        };
        if !selected {
            return Ok(());
        }
        let view = MessageView::of_validated(lent.bytes, lent.limits, lent.validated);
        let Ok(_) = self.counts.add(&view) else {
            return Err(AllocError);
        };
        self.span = span_after(self.span, lent.place.time);
        Ok(())
    }

    ghost fills = { λ a s there. refl };

    ghost nothing = { laws.nothing };

    ghost joins = { laws.joins };

    ghost splits = { λ s a b _. (tt, λ t p _. tt) };

    ghost quiet = { laws.quiet };
}

impl EndRenderer for CountRenderer<'_> {
    fn finish<D: ByteDraft>(self, draft: &mut D) -> Result<String, AllocError> {
        let Ok(text) = self.counts.tables(self.form, self.span) else {
            return Err(AllocError);
        };
        draft.push_str(text.as_str());
        Ok(String::new(self.alloc))
    }

    ghost wants_all = { λ a. refl };

    ghost loud = { λ a. refl };
}

// The span after one message more, which has this time or none.
fn span_after(span: Option<Span>, time: Option<u64>) -> Option<Span>
    ensures { result ≡ with_times (option_to_list time) span }
{
    match time {
        Some(time) => Some(Span::with_time(span, time)),
        None => span,
    }
}

// The form of the tables.
fn table_form(as_json: bool) -> Form
    ensures { result ≡ table_form as_json }
{
    if as_json { Form::Json } else { Form::Text }
}

/// Counts by their names the messages of a source that are selected, without a selection all, with
/// at most 2^32 reads, and tells the second writer of messages that are refused, as
/// [`crate::run_with`] does. Then the tables of the counts go to the first writer, and the line of
/// the span of the messages that were counted and have a time; as JSON, if the settings ask for it.
///
/// `Done`, `Refused`: all was written, and whether anything was refused. `Failed`: a read or a
/// write failed, as many reads were made as may be, or memory ran out; if it was not a write to the
/// second writer, that is told there.
pub fn count_by_name<R: Source, W: Sink, E: Sink>(
    alloc: Global,
    settings: Settings,
    selection: &Option<Selection>,
    reader: &mut R,
    first: &mut W,
    second: &mut E,
) -> ExitStatus
    ensures { CountsByName (reading R.left R.calls R.failures R.packets reader.old reader.new)
        (writing W.held W.failures first.old first.new)
        (writing E.held E.failures second.old second.new)
        settings selection.now (2 ^ 32) result }
{
    let Ok(selector) = selector_of(selection) else {
        return give_up(Cause::Memory, second);
    };
    let renderer = CountRenderer {
        alloc,
        form: table_form(settings.as_json),
        selector,
        owners: None,
        counts: Counts::new(alloc),
        span: None,
    };
    run_to_end(alloc, settings, renderer, reader, first, second)
}
