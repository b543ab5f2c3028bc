//! Times as text, and as JSON. POSIX.1-2017, Base Definitions, "Seconds Since the Epoch".
#![tactic(auto)]

ghost use Rattle.std.specs.Prelude.{◌≡◌, ℕ, ◌<◌, ◌∷◌, codes};
ghost use Rattle.dbus_value_text.specs.Forms.{led};
ghost use Rattle.dbus_json.specs.Times.{digit_at, fraction_digits, seconds_text, thousandths_digits, thousandths_text, time_members};

use dbus_show::{Draft, write_integer};
use std::str;

/// The digit of a number at the place of this power of ten, in ASCII.
#[inline]
pub fn digit_at(number: u64, power: u64) -> u8
    requires { 0 < power }
    ensures { result ≡ digit_at number power }
{
    b'0' + (number / power % 10) as u8
}

/// The point, and the nine digits behind it.
fn fraction_of(nanoseconds: u64) -> [u8; 10]
    ensures { result ≡ 46 ∷ fraction_digits nanoseconds }
{
    [
        b'.',
        digit_at(nanoseconds, 100_000_000),
        digit_at(nanoseconds, 10_000_000),
        digit_at(nanoseconds, 1_000_000),
        digit_at(nanoseconds, 100_000),
        digit_at(nanoseconds, 10_000),
        digit_at(nanoseconds, 1_000),
        digit_at(nanoseconds, 100),
        digit_at(nanoseconds, 10),
        digit_at(nanoseconds, 1),
    ]
}

/// Appends the point, and the nine digits behind it.
fn write_fraction<D: Draft>(draft: &mut D, nanoseconds: u64)
    ensures { D.gains draft.old (46 ∷ fraction_digits nanoseconds) draft.new }
{
    let fraction = fraction_of(nanoseconds);
    // The point and the digits are ASCII, so that they are text.
    draft.push_str(unsafe { str::from_utf8_unchecked(&fraction) });
}

/// Appends so many nanoseconds in seconds, with nine digits behind the point: of a time the seconds
/// since 1970 began in UTC.
///
/// ```text
/// 1764381228.123456789
/// ```
///
/// POSIX.1-2017, Base Definitions, "Seconds Since the Epoch".
pub fn write_seconds<D: Draft>(draft: &mut D, nanoseconds: u64)
    ensures { D.gains draft.old (seconds_text nanoseconds) draft.new }
{
    write_integer(draft, nanoseconds / 1_000_000_000);
    write_fraction(draft, nanoseconds);
}

/// The point, and the three digits of thousandths behind it.
fn thousandths_of(thousandths: u64) -> [u8; 4]
    ensures { result ≡ 46 ∷ thousandths_digits thousandths }
{
    [
        b'.',
        digit_at(thousandths, 100),
        digit_at(thousandths, 10),
        digit_at(thousandths, 1),
    ]
}

/// Appends a number of thousandths, with three digits behind the point.
///
/// ```text
/// 18.225
/// ```
pub fn write_thousandths<D: Draft>(draft: &mut D, thousandths: u64)
    ensures { D.gains draft.old (thousandths_text thousandths) draft.new }
{
    write_integer(draft, thousandths / 1_000);
    let fraction = thousandths_of(thousandths);
    // The point and the digits are ASCII, so that they are text.
    draft.push_str(unsafe { str::from_utf8_unchecked(&fraction) });
}

/// Appends the time as the member `time` after others, if there is one: a string of the seconds
/// since 1970 began in UTC, with nine digits behind the point. The time is in nanoseconds. It
/// allocates nothing.
pub fn write_time<D: Draft>(draft: &mut D, time: Option<u64>)
    ensures { D.gains draft.old (led (codes ",") (codes ",") (time_members time)) draft.new }
{
    if let Some(nanoseconds) = time {
        draft.push_str(",\"time\":\"");
        write_seconds(draft, nanoseconds);
        draft.push_code(b'"');
    }
}
