//! What came of a call, as the end of its line.
#![tactic(auto)]

ghost use Rattle.std.specs.Prelude.{◌≡◌, [], ◌∷◌, codes, decimal};
ghost use Rattle.dbus_json.specs.JsonValues.{member};
ghost use Rattle.dbus_call_lines.specs.CallLines.{behind_commas, end, outcome_text, outcome_word, reply_members, took_members, took_text};
ghost use Rattle.dbus_call_lines.specs.Durations.{time_between};
ghost use Rattle.dbus_call_lines.specs.Outcomes.{outcome_seen};

use crate::elapsed::{Elapsed, time_between, write_exact, write_milliseconds};
use crate::form::Form;
use crate::outcome::Outcome;
use dbus_json::write_string;
use dbus_show::{Draft, write_integer};

/// Appends what came of a call, as the end of its line. It says how long a reply took, if the time
/// is known at which the call was captured, as the reply's is. Both are in nanoseconds. It
/// allocates nothing.
pub fn write_end<D: Draft>(draft: &mut D, form: Form, sent: Option<u64>, outcome: Outcome)
    ensures { D.gains draft.old (end form sent (outcome_seen outcome.entry)) draft.new }
{
    match form {
        Form::Text => {
            draft.push_str(" ");
            write_words(draft, sent, outcome);
            draft.push_str("\n");
        }
        Form::Json => {
            draft.push_between(",\"outcome\":\"", word_of(outcome), "\"");
            write_reply(draft, sent, outcome);
            draft.push_str("}\n");
        }
    }
}

// Appends what came of a call in words.
fn write_words<D: Draft>(draft: &mut D, sent: Option<u64>, outcome: Outcome)
    ensures { D.gains draft.old (outcome_text sent (outcome_seen outcome.entry)) draft.new }
{
    match outcome {
        Outcome::Reply(place) => {
            draft.push_str("reply #");
            write_integer(draft, place.number);
            write_took(draft, time_between(sent, place.time));
        }
        Outcome::Error(place, name) => {
            draft.push_str("error #");
            write_integer(draft, place.number);
            write_took(draft, time_between(sent, place.time));
            draft.push_str(" ");
            draft.push_str(name);
        }
        Outcome::Unwanted => draft.push_str("no reply wanted"),
        Outcome::Open => draft.push_str("no reply"),
        Outcome::Left => draft.push_str("no reply: the caller left"),
        Outcome::Replaced => draft.push_str("no reply: its serial was used again"),
    }
}

/// Appends how long a reply took, in milliseconds behind a space, if that is known. It allocates
/// nothing.
pub fn write_took<D: Draft>(draft: &mut D, took: Option<Elapsed>)
    ensures { D.gains draft.old (took_text took) draft.new }
{
    if let Some(took) = took {
        draft.push_str(" ");
        write_milliseconds(draft, took);
        draft.push_str(" ms");
    }
}

// The word of JSON for what came of a call.
fn word_of(outcome: Outcome) -> &'static str
    ensures { result.now ≡ outcome_word (outcome_seen outcome.entry) }
{
    match outcome {
        Outcome::Reply(_) => "reply",
        Outcome::Error(..) => "error",
        Outcome::Unwanted => "unwanted",
        Outcome::Open => "open",
        Outcome::Left => "left",
        Outcome::Replaced => "replaced",
    }
}

// Appends the members of a reply, if there is one, each behind a comma.
fn write_reply<D: Draft>(draft: &mut D, sent: Option<u64>, outcome: Outcome)
    ensures { D.gains draft.old (behind_commas (reply_members sent (outcome_seen outcome.entry))) draft.new }
{
    match outcome {
        Outcome::Reply(place) => {
            write_number(draft, place.number);
            write_milliseconds_member(draft, time_between(sent, place.time));
        }
        Outcome::Error(place, name) => {
            write_number(draft, place.number);
            draft.push_str(",\"error_name\":");
            write_string(draft, name);
            write_milliseconds_member(draft, time_between(sent, place.time));
        }
        _ => {}
    }
}

// Appends the number of a reply as a member, behind a comma.
fn write_number<D: Draft>(draft: &mut D, number: u64)
    ensures { D.gains draft.old (behind_commas (member (codes "reply") (decimal number) ∷ [])) draft.new }
{
    draft.push_str(",\"reply\":");
    write_integer(draft, number);
}

// Appends how long a reply took as a member, behind a comma, if that is known.
fn write_milliseconds_member<D: Draft>(draft: &mut D, took: Option<Elapsed>)
    ensures { D.gains draft.old (behind_commas (took_members took)) draft.new }
{
    if let Some(took) = took {
        draft.push_str(",\"milliseconds\":");
        write_exact(draft, took);
    }
}
