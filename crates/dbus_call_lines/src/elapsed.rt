//! How long calls took, in milliseconds.
#![tactic(auto)]

ghost use Rattle.std.specs.Prelude.{◌≡◌};
ghost use Rattle.dbus_call_lines.specs.Durations.{exact_text, milliseconds_text, sign, three_digits, time_between};

use dbus_json::digit_at;
use dbus_show::{Draft, write_integer};

/// The time from a message to another.
#[derive(Clone, Copy, Debug, PartialEq, Eq)]
pub struct Elapsed {
    /// Whether the other is the earlier one.
    pub backwards: bool,
    /// So many nanoseconds are between them.
    pub nanoseconds: u64,
}

/// The time from one time to another, both in nanoseconds, if both are known.
pub fn time_between(from: Option<u64>, to: Option<u64>) -> Option<Elapsed>
    ensures { result ≡ time_between from to }
{
    match (from, to) {
        (Some(from), Some(to)) => {
            if to < from {
                Some(Elapsed {
                    backwards: true,
                    nanoseconds: from - to,
                })
            } else {
                Some(Elapsed {
                    backwards: false,
                    nanoseconds: to - from,
                })
            }
        }
        _ => None,
    }
}

/// Appends it in milliseconds with three digits behind the point, and leaves out what is behind
/// them. It allocates nothing.
pub fn write_milliseconds<D: Draft>(draft: &mut D, elapsed: Elapsed)
    ensures { D.gains draft.old (milliseconds_text elapsed) draft.new }
{
    draft.push_str(sign_of(elapsed));
    write_integer(draft, elapsed.nanoseconds / 1_000_000);
    draft.push_str(".");
    write_three_digits(draft, elapsed.nanoseconds / 1_000);
}

/// Appends it in milliseconds with six digits behind the point, which leave nothing out. It
/// allocates nothing.
pub fn write_exact<D: Draft>(draft: &mut D, elapsed: Elapsed)
    ensures { D.gains draft.old (exact_text elapsed) draft.new }
{
    write_milliseconds(draft, elapsed);
    write_three_digits(draft, elapsed.nanoseconds);
}

// The sign before its digits.
fn sign_of(elapsed: Elapsed) -> &'static str
    ensures { result.now ≡ sign elapsed.backwards }
{
    if elapsed.backwards { "-" } else { "" }
}

// Appends the last three digits of a number.
fn write_three_digits<D: Draft>(draft: &mut D, number: u64)
    ensures { D.gains draft.old (three_digits number) draft.new }
{
    draft.push_code(digit_at(number, 100));
    draft.push_code(digit_at(number, 10));
    draft.push_code(digit_at(number, 1));
}
