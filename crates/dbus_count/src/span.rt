//! From when to when messages were captured, and how many a second these are.
#![tactic(auto)]

ghost use Rattle.std.specs.Prelude.{◌≡◌};
ghost use Rattle.dbus_count.specs.Spans.{duration, rate, rate_in_words, rate_member, span_as_object, span_in_words, span_text, with_time};

use crate::form::Form;
use dbus_json::{write_seconds, write_thousandths};
use dbus_show::{Draft, write_integer};

/// How many messages have a time, and from when to when they were captured, in nanoseconds since
/// 1970 began in UTC.
#[derive(Clone, Copy, Debug, PartialEq, Eq)]
pub struct Span {
    /// How many messages. It stops at 2^64 - 1.
    pub messages: u64,
    /// The earliest of their times.
    pub first: u64,
    /// The latest of their times.
    pub last: u64,
}

impl Span {
    /// The span of the messages of another, if there is one, and one more of this time.
    pub fn with_time(span: Option<Span>, time: u64) -> Span
        ensures { result ≡ with_time time span }
    {
        match span {
            Some(span) => Span {
                messages: span.messages.saturating_add(1),
                first: span.first.min(time),
                last: span.last.max(time),
            },
            None => Span {
                messages: 1,
                first: time,
                last: time,
            },
        }
    }

    // How many nanoseconds it takes from the first to the last.
    fn duration(self) -> u64
        ensures { result ≡ duration self }
    {
        self.last.saturating_sub(self.first)
    }

    // How many thousandths of messages a second these are, rounded down, if it takes any time. It
    // stops at 2^64 - 1.
    fn rate(self) -> Option<u64>
        ensures { result ≡ rate self }
    {
        let duration = self.duration();
        if duration == 0 {
            return None;
        }
        let thousandths = u128::from(self.messages) * 1_000_000_000_000 / u128::from(duration);
        Some(thousandths.min(u128::from(u64::MAX)) as u64)
    }
}

// Appends how many messages a second these are, if it takes any time, in words.
fn write_rate<D: Draft>(draft: &mut D, rate: Option<u64>)
    ensures { D.gains draft.old (rate_in_words rate) draft.new }
{
    if let Some(rate) = rate {
        draft.push_str(", ");
        write_thousandths(draft, rate);
        draft.push_str(" a second");
    }
}

// Appends the line of a span in words.
fn write_words<D: Draft>(draft: &mut D, span: Span)
    ensures { D.gains draft.old (span_in_words span) draft.new }
{
    write_integer(draft, span.messages);
    draft.push_str(" messages in ");
    write_seconds(draft, span.duration());
    draft.push_str(" seconds");
    write_rate(draft, span.rate());
    draft.push_str("\n");
}

// Appends the same as a member after others, if it takes any time.
fn write_rate_member<D: Draft>(draft: &mut D, rate: Option<u64>)
    ensures { D.gains draft.old (rate_member rate) draft.new }
{
    if let Some(rate) = rate {
        draft.push_str(",\"messages_per_second\":");
        write_thousandths(draft, rate);
    }
}

// Appends the line of a span as an object of JSON.
fn write_object<D: Draft>(draft: &mut D, span: Span)
    ensures { D.gains draft.old (span_as_object span) draft.new }
{
    draft.push_str("{\"seconds\":");
    write_seconds(draft, span.duration());
    draft.push_str(",\"messages\":");
    write_integer(draft, span.messages);
    write_rate_member(draft, span.rate());
    draft.push_str("}\n");
}

/// Appends the line of a span, if there is one.
pub(crate) fn write_span<D: Draft>(draft: &mut D, form: Form, span: Option<Span>)
    ensures { D.gains draft.old (span_text form span) draft.new }
{
    if let Some(span) = span {
        match form {
            Form::Text => write_words(draft, span),
            Form::Json => write_object(draft, span),
        }
    }
}
