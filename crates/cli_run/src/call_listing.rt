//! The calls of a source, and what came of them, listed.
ghost use Rattle.std.specs.Prelude.{◌≡◌, ◌^◌, IfOk, false, string_bytes};
ghost use Rattle.std.proofs.Common.{refl};
ghost use Rattle.cli_report.specs.Devices.{reading, writing};
ghost use Rattle.cli_run.specs.CallLaws as laws;
ghost use Rattle.cli_run.specs.CallListing.{CallsState, EndsCalls, FollowRising, ListsAt, ListsCalls, MakesCalls, notes, times_note};

use crate::byte_draft::{ByteDraft, LentDraft};
use crate::ending::run_to_end;
use crate::line_names::{known_names, learn_names};
use crate::place::Lent;
use crate::renderer::{EndRenderer, Renderer};
use cli_options::Settings;
use cli_report::ExitStatus;
use dbus_call_lines::{CallList, Lines, Place, Wanted};
use dbus_calls::EventView;
use dbus_names::Names;
use dbus_rule_set::Owners;
use dbus_stream::{Sink, Source};
use dbus_view::MessageView;
use std::alloc::{AllocError, Global};

/// What is told if slow calls are wanted, and no message has a time.
const TIMES_NOTE: &str = "note: no message has a time, so --slower lists no call\n";

/// What makes the lines of calls.
#[derive(Drop)]
pub(crate) struct CallRenderer {
    alloc: Global,
    /// What is wanted.
    pub(crate) wanted: Wanted,
    /// The list.
    pub(crate) list: CallList,
    /// Who has which name, by the messages that were taken.
    pub(crate) names: Names,
    /// Whether a message had a time.
    pub(crate) timed: bool,
}

impl Renderer for CallRenderer {
    ghost State = { CallsState };

    ghost stands = { ListsAt };

    ghost makes = { MakesCalls };

    ghost follows = { FollowRising };

    ghost ends = { EndsCalls };

    ghost full = { λ _. false };

    ghost spent = { λ _. false };

    ghost silent = { λ _. false };

    fn is_full(&self) -> bool {
        false
    }

    fn is_silent(&self) -> bool {
        false
    }

    fn take<D: ByteDraft>(&mut self, lent: &Lent<'_>, draft: &mut D) -> Result<(), AllocError> {
        let view = MessageView::of_validated(lent.bytes, lent.limits, lent.validated);
        let message = EventView::of(&view);
        let Ok(_) = learn_names(&message, &mut self.names) else {
            return Err(AllocError);
        };
        self.timed = self.timed | lent.place.time.is_some();
        let place = Place {
            number: lent.place.number,
            time: lent.place.time,
        };
        let known = known_names(&view, &self.names);
        let mut lines = Lines {
            draft: LentDraft { draft },
        };
        let Ok(_) = self.list.take(&mut lines, place, known, &message) else {
            return Err(AllocError);
        };
        Ok(())
    }

    ghost fills = { λ a s there. refl };

    ghost nothing = { laws.nothing };

    ghost joins = { laws.joins };

    ghost splits = { laws.splits };

    ghost quiet = { laws.quiet };
}

impl EndRenderer for CallRenderer {
    fn finish<D: ByteDraft>(self, draft: &mut D) -> Result<String, AllocError> {
        let lacks_times = self.wanted.slower.is_some() & !self.timed;
        let Ok(note) = notes_of(self.alloc, lacks_times, self.list.stray_replies()) else {
            return Err(AllocError);
        };
        let mut lines = Lines {
            draft: LentDraft { draft },
        };
        let Ok(_) = self.list.finish(&mut lines) else {
            return Err(AllocError);
        };
        Ok(note)
    }

    ghost wants_all = { λ a. refl };

    ghost loud = { λ a. refl };
}

/// Lists the calls in the messages of a source and what came of them on the first writer, with at
/// most 2^32 reads, and tells the second writer of messages that are refused, as
/// [`crate::run_with`] does. The line of a call is written once it is known what came of it, at the
/// latest before more is read; those of calls that wait at the end follow in their order. A
/// connection is told with the name that it is known to have, by the messages up to the call. A
/// message that is refused is no call and no reply. At the end the second writer is told if slow
/// calls are wanted and no message has a time, and how many replies answer no call that was seen, if
/// any.
///
/// `Done`, `Refused`: all was written, and whether anything was refused. `Failed`: a read or a
/// write failed, as many reads were made as may be, or memory ran out; if it was not a write to the
/// second writer, that is told there.
pub fn list_calls<R: Source, W: Sink, E: Sink>(
    alloc: Global,
    settings: Settings,
    wanted: Wanted,
    reader: &mut R,
    first: &mut W,
    second: &mut E,
) -> ExitStatus
    ensures { ListsCalls (reading R.left R.calls R.failures R.packets reader.old reader.new)
        (writing W.held W.failures first.old first.new)
        (writing E.held E.failures second.old second.new)
        settings wanted (2 ^ 32) result }
{
    let renderer = CallRenderer {
        alloc,
        wanted,
        list: CallList::new(alloc, wanted),
        names: Names::new(alloc, Owners::new(alloc)),
        timed: false,
    };
    run_to_end(alloc, settings, renderer, reader, first, second)
}

/// What is told at the end: that no message has a time, if slow calls are wanted and none has; and
/// how many replies answer no call that was seen, if any.
pub(crate) fn notes_of(alloc: Global, lacks_times: bool, stray: u64) -> Result<String, AllocError>
    ensures { IfOk result (λ text. string_bytes text ≡ notes lacks_times stray) }
{
    let times = times_note(lacks_times);
    match stray {
        0 => String::from_str(alloc, times),
        1 => format!(in alloc; "{times}1 reply answers no call that was seen\n"),
        _ => format!(in alloc; "{times}{stray} replies answer no call that was seen\n"),
    }
}

// What is told of times.
fn times_note(lacks_times: bool) -> &'static str
    ensures { result.now ≡ times_note lacks_times }
{
    if lacks_times { TIMES_NOTE } else { "" }
}
