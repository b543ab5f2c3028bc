//! What was handed on and passed over of an input, and the last line that tells it.
ghost use Rattle.std.specs.Prelude.{◌≡◌, ◌≤◌, ◌<◌, ◌+◌, ◌-◌, ◌^◌, IfErr, IfOk, string_bytes, true};
ghost use Rattle.cli_run.specs.Going.{HasLastLine, closing_line, cut_tally, status_at};

use crate::closing::{counts_json, counts_line, ok_line};
use crate::counted::Counted;
use cli_options::Settings;
use cli_report::ExitStatus;
use dbus_value_model::Fault;
use std::alloc::{AllocError, Allocator};

/// What was handed on and passed over of an input.
#[derive(Clone, Copy, Debug, PartialEq, Eq)]
pub(crate) struct Tally {
    /// How many messages there are, those that were passed over among them, and how many bytes they
    /// have.
    pub(crate) count: u64,
    pub(crate) size: u64,
    /// How many of them were passed over, and how many bytes these have.
    pub(crate) passed: u64,
    pub(crate) passed_size: u64,
    /// Whether the input ends within the last of these.
    pub(crate) is_cut: bool,
}

impl Tally {
    /// The tally up to the end of these messages.
    pub(crate) fn up_to(self, counted: Counted) -> Tally
        ensures { result ≡ record self { count = counted.count; size = counted.size } }
    {
        Tally {
            count: counted.count,
            size: counted.size,
            ..self
        }
    }

    /// The tally after one more message, which is passed over up to this place.
    pub(crate) fn past(self, end: u64) -> Tally
        requires few { self.count < 2 ^ 60 }
        requires few_passed { self.passed ≤ self.count }
        requires after { self.size ≤ end }
        requires low { self.passed_size + (end - self.size) < 2 ^ 60 }
        ensures { result ≡ record {
          count = self.count + 1;
          size = end;
          passed = self.passed + 1;
          passed_size = self.passed_size + (end - self.size);
          is_cut = self.is_cut;
        } }
    {
        Tally {
            count: self.count + 1,
            size: end,
            passed: self.passed + 1,
            passed_size: self.passed_size + (end - self.size),
            ..self
        }
    }

    /// The tally at the end of the input, after a message that is passed over up to there: the input
    /// ends within it, or in a capture with it.
    pub(crate) fn at_end(self, end: u64, is_cut: bool) -> Tally
        requires few { self.count < 2 ^ 60 }
        requires few_passed { self.passed ≤ self.count }
        requires after { self.size ≤ end }
        requires low { self.passed_size + (end - self.size) < 2 ^ 60 }
        ensures { result ≡ cut_tally self (end - self.size) is_cut }
    {
        Tally {
            is_cut,
            ..self.past(end)
        }
    }

    /// How a run ends that came to the end of its input, or to a message that is not passed over.
    pub(crate) fn status(self, fault: Option<Fault>) -> ExitStatus
        ensures { result ≡ status_at self.passed fault }
    {
        if self.passed > 0 || fault.is_some() {
            ExitStatus::Refused
        } else {
            ExitStatus::Done
        }
    }
}

/// The last line, if there is one: what was passed over, if anything was refused and the run is to
/// go on; or of `check` that of an input without fault. By the settings it is JSON, or in words.
pub(crate) fn closing_line<A: Allocator + Copy>(
    alloc: A,
    settings: Settings,
    is_check: bool,
    tally: Tally,
    fault: Option<Fault>,
) -> Result<String<A>, AllocError>
    ensures line { IfOk result (λ line. string_bytes line ≡
        closing_line settings.as_json is_check settings.keeps_going tally tally.passed fault) }
    ensures due { IfErr result (λ _.
        HasLastLine is_check settings.keeps_going tally.passed fault) }
{
    let is_refused = tally.passed > 0 || (settings.keeps_going && fault.is_some());
    let is_whole = fault.is_none() && is_check;
    if settings.as_json && (is_refused || is_whole) {
        return counts_json(alloc, tally);
    }
    if is_refused {
        return counts_line(alloc, tally);
    }
    if is_whole {
        return ok_line(alloc, tally.count, tally.size);
    }
    Ok(String::new(alloc))
}
