//! The calls of a source, summed up by their members.
ghost use Rattle.std.specs.Prelude.{◌^◌, IfOk, List, false, string_bytes};
ghost use Rattle.std.proofs.Common.{refl};
ghost use Rattle.dbus_call_lines.specs.Keeping.{EndedCall};
ghost use Rattle.dbus_call_lines.specs.Listing.{AreRising, Numbered};
ghost use Rattle.dbus_call_lines.specs.declared.wanted.Wanted.{Wanted};
ghost use Rattle.cli_report.specs.Devices.{reading, writing};
ghost use Rattle.cli_run.specs.CallSumming.{EndsSums, FollowRising, IsLast, Knows, MakesSums, SumsAt, SumsCalls, SumsState};
ghost use Rattle.cli_run.specs.SumLaws as laws;

use crate::byte_draft::ByteDraft;
use crate::call_listing::notes_of;
use crate::ending::run_to_end;
use crate::place::Lent;
use crate::renderer::{EndRenderer, Renderer};
use cli_options::Settings;
use cli_report::ExitStatus;
use dbus_call_lines::{CallList, CallNames, Form, Place, Wanted};
use dbus_call_members::MemberSums;
use dbus_calls::EventView;
use dbus_stream::{Sink, Source};
use dbus_view::MessageView;
use std::alloc::{AllocError, Global};

// The sums tell no connection.
const NO_NAMES: CallNames<'static> = CallNames {
    sender: None,
    destination: None,
};

/// What sums up calls by their members.
#[derive(Drop)]
pub(crate) struct SumRenderer {
    alloc: Global,
    /// What is wanted.
    pub(crate) wanted: Wanted,
    /// The list of the calls.
    pub(crate) list: CallList,
    /// The sums of those that ended.
    pub(crate) sums: MemberSums,
    /// Whether a message had a time.
    pub(crate) timed: bool,
}

impl Renderer for SumRenderer {
    ghost State = { SumsState };

    ghost stands = { SumsAt };

    ghost makes = { MakesSums };

    ghost follows = { FollowRising };

    ghost ends = { EndsSums };

    ghost full = { λ _. false };

    ghost spent = { λ _. false };

    ghost silent = { λ _. false };

    fn is_full(&self) -> bool {
        false
    }

    fn is_silent(&self) -> bool {
        false
    }

    fn take<D: ByteDraft>(&mut self, lent: &Lent<'_>, _draft: &mut D) -> Result<(), AllocError> {
        let view = MessageView::of_validated(lent.bytes, lent.limits, lent.validated);
        let message = EventView::of(&view);
        self.timed = self.timed | lent.place.time.is_some();
        let place = Place {
            number: lent.place.number,
            time: lent.place.time,
        };
        let Ok(_) = self.list.take(&mut self.sums, place, NO_NAMES, &message) else {
            return Err(AllocError);
        };
        if self.sums.is_short() {
            return Err(AllocError);
        }
        Ok(())
    }

    ghost fills = { λ a s there. refl };

    ghost nothing = { laws.nothing };

    ghost joins = { laws.joins };

    ghost splits = { laws.splits };

    ghost quiet = { laws.quiet };
}

impl EndRenderer for SumRenderer {
    fn finish<D: ByteDraft>(self, draft: &mut D) -> Result<String, AllocError> {
        let lacks_times = self.wanted.slower.is_some() & !self.timed;
        let form = self.wanted.form;
        let Ok((table, note)) = table_of(self.alloc, self.list, self.sums, form, lacks_times) else {
            return Err(AllocError);
        };
        draft.push_str(table.as_str());
        Ok(note)
    }

    ghost wants_all = { λ a. refl };

    ghost loud = { λ a. refl };
}

/// Sums up the calls in the messages of a source by their members, of those that are wanted, with
/// at most 2^32 reads, and tells the second writer of messages that are refused, as
/// [`crate::run_with`] does. Then the table of the sums goes to the first writer, as
/// [`MemberSums::table`] says, and the second writer is told what [`crate::list_calls`] tells at the
/// end.
///
/// `Done`, `Refused`: all was written, and whether anything was refused. `Failed`: a read or a
/// write failed, as many reads were made as may be, or memory ran out; if it was not a write to the
/// second writer, that is told there.
pub fn sum_calls<R: Source, W: Sink, E: Sink>(
    alloc: Global,
    settings: Settings,
    wanted: Wanted,
    reader: &mut R,
    first: &mut W,
    second: &mut E,
) -> ExitStatus
    ensures { SumsCalls (reading R.left R.calls R.failures R.packets reader.old reader.new)
        (writing W.held W.failures first.old first.new)
        (writing E.held E.failures second.old second.new)
        settings wanted (2 ^ 32) result }
{
    let renderer = SumRenderer {
        alloc,
        wanted,
        list: CallList::new(alloc, wanted),
        sums: MemberSums::new(alloc),
        timed: false,
    };
    run_to_end(alloc, settings, renderer, reader, first, second)
}

// The table, and what is to be told at the end.
fn table_of(
    alloc: Global,
    list: CallList,
    sums: MemberSums,
    form: Form,
    lacks_times: bool,
) -> Result<(String, String), AllocError>
    ensures { (wanted : Wanted) (before : List Numbered) (earlier : List EndedCall) →
        Knows wanted before earlier list sums → AreRising before →
        IfOk result (λ made. IsLast wanted form before earlier lacks_times
        (string_bytes made.0) (string_bytes made.1)) }
{
    let note = notes_of(alloc, lacks_times, list.stray_replies())?;
    let mut all = sums;
    list.finish(&mut all)?;
    let table = all.table(form)?;
    Ok((table, note))
}
