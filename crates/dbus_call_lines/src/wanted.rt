//! What a list of calls is to have.
#![tactic(auto)]

ghost use Rattle.std.specs.Prelude.{◌≡◌};
ghost use Rattle.dbus_call_lines.specs.Outcomes.{is_longer, is_wanted, outcome_seen};

use crate::elapsed::{Elapsed, time_between};
use crate::form::Form;
use crate::outcome::Outcome;

/// What a list of calls is to have, and in which form: all calls, or those of some outcomes. If it
/// is to have those of several, a call of any of them is listed.
#[derive(Clone, Copy, Debug, PartialEq, Eq)]
pub struct Wanted {
    /// The form of its lines.
    pub form: Form,
    /// Whether it is to have the calls to which no reply came, of those that want one.
    pub unanswered: bool,
    /// Whether it is to have the calls that an ERROR answered.
    pub errors: bool,
    /// The milliseconds that a reply has to come later than after its call, if the list is to have
    /// the calls of such replies. Without the time of both a reply is not late.
    pub slower: Option<u32>,
}

impl Wanted {
    /// Whether the list is to have a call that was captured at this time, if that is known, and of
    /// which this came: each, if none are asked for. The time is in nanoseconds.
    pub fn lists(self, sent: Option<u64>, outcome: Outcome) -> bool
        ensures { result ≡ is_wanted self sent (outcome_seen outcome.entry) }
    {
        if !self.unanswered && !self.errors && self.slower.is_none() {
            return true;
        }
        match outcome {
            Outcome::Reply(place) => is_late(self.slower, time_between(sent, place.time)),
            Outcome::Error(place, _) => {
                self.errors || is_late(self.slower, time_between(sent, place.time))
            }
            Outcome::Unwanted => false,
            Outcome::Open => self.unanswered,
            Outcome::Left => self.unanswered,
            Outcome::Replaced => self.unanswered,
        }
    }
}

// Whether a reply came later than so many milliseconds after its call, if both are known.
fn is_late(slower: Option<u32>, took: Option<Elapsed>) -> bool
    ensures { result ≡ is_longer slower took }
{
    match (slower, took) {
        (Some(milliseconds), Some(took)) => {
            !took.backwards && took.nanoseconds > u64::from(milliseconds) * 1_000_000
        }
        _ => false,
    }
}
