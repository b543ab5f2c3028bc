//! What came of the calls of a member, and how long they took.
#![tactic(auto)]

ghost use Rattle.std.specs.Prelude.{◌≡◌};
ghost use Rattle.dbus_call_lines.specs.Outcomes.{is_error, is_unanswered, outcome_seen};
ghost use Rattle.dbus_call_members.specs.Summing.{is_reply, no_calls, time_of, with_call};

use dbus_call_lines::{Outcome, time_between};

/// How many calls a member has, what came of them, and how long its METHOD_RETURNs took. Each
/// number stops at 2^64 - 1. D-Bus Specification, "Message Types".
#[derive(Clone, Copy, Debug, PartialEq, Eq)]
pub struct MemberSum {
    /// How many calls.
    pub calls: u64,
    /// How many of them a METHOD_RETURN answered.
    pub replies: u64,
    /// How many an ERROR answered.
    pub errors: u64,
    /// How many have no reply, of those that want one.
    pub unanswered: u64,
    /// How many METHOD_RETURNs came of which it is known how long they took.
    pub timed: u64,
    /// How long these took together, in nanoseconds. One that was captured before its call took no
    /// time.
    pub total: u64,
    /// How long the slowest of these took, in nanoseconds.
    pub longest: u64,
}

impl MemberSum {
    /// No calls.
    pub(crate) fn none() -> MemberSum
        ensures { result ≡ no_calls }
    {
        MemberSum {
            calls: 0,
            replies: 0,
            errors: 0,
            unanswered: 0,
            timed: 0,
            total: 0,
            longest: 0,
        }
    }

    /// One call more, which was captured at this time, if that is known, and of which this came.
    pub(crate) fn with_call(self, sent: Option<u64>, outcome: Outcome) -> MemberSum
        ensures { result ≡ with_call self sent (outcome_seen outcome.entry) }
    {
        let took = reply_time(sent, outcome);
        let nanoseconds = took.unwrap_or(0);
        MemberSum {
            calls: self.calls.saturating_add(1),
            replies: self.replies.saturating_add(u64::from(is_reply(outcome))),
            errors: self.errors.saturating_add(u64::from(is_error(outcome))),
            unanswered: self
                .unanswered
                .saturating_add(u64::from(is_unanswered(outcome))),
            timed: self.timed.saturating_add(u64::from(took.is_some())),
            total: self.total.saturating_add(nanoseconds),
            longest: self.longest.max(nanoseconds),
        }
    }
}

// How long a METHOD_RETURN took, if one came and that is known.
fn reply_time(sent: Option<u64>, outcome: Outcome) -> Option<u64>
    ensures { result ≡ time_of sent (outcome_seen outcome.entry) }
{
    let Outcome::Reply(place) = outcome else {
        return None;
    };
    match time_between(sent, place.time) {
        Some(took) => Some(if took.backwards { 0 } else { took.nanoseconds }),
        None => None,
    }
}

// Whether a METHOD_RETURN came.
fn is_reply(outcome: Outcome) -> bool
    ensures { result ≡ is_reply (outcome_seen outcome.entry) }
{
    matches!(outcome, Outcome::Reply(_))
}

// Whether an ERROR came.
fn is_error(outcome: Outcome) -> bool
    ensures { result ≡ is_error (outcome_seen outcome.entry) }
{
    matches!(outcome, Outcome::Error(..))
}

// Whether no reply came, and one is wanted.
fn is_unanswered(outcome: Outcome) -> bool
    ensures { result ≡ is_unanswered (outcome_seen outcome.entry) }
{
    matches!(outcome, Outcome::Open | Outcome::Left | Outcome::Replaced)
}
