//! The columns of a line, and names that fit one. D-Bus Specification, "Valid Names".
#![tactic(auto)]

ghost use Rattle.std.specs.Prelude.{◌≡◌, IfSome, decimal, length, nat_le, replicate};
ghost use Rattle.dbus_list.specs.Columns.{clock, ends, first_short, name_cells, right, short};

use dbus_json::digit_at;
use dbus_show::Draft;
use itoa::Buffer;
use std::str;

/// The most bytes of a name. D-Bus Specification, "Valid Names".
pub(crate) const LONGEST_NAME: usize = 255;

/// How many spaces are appended at once: more than most columns lack.
const MOST_SPACES: usize = 32;

/// So many spaces.
const SPACES: &str = "                                ";

/// Appends so many spaces.
#[inline(always)]
pub(crate) fn write_spaces<D: Draft>(draft: &mut D, count: usize)
    ensures { D.gains draft.old (replicate count 32) draft.new }
{
    let mut left = count;
    while left > MOST_SPACES {
        draft.push_str(SPACES);
        left -= MOST_SPACES;
    }
    draft.push_str(&SPACES[..left]);
}

/// Appends a number at the right of a column of so many cells.
#[inline(always)]
pub(crate) fn write_right<D: Draft>(draft: &mut D, number: u64, cells: usize)
    ensures { D.gains draft.old (right cells (decimal number)) draft.new }
{
    let mut buffer = Buffer::new();
    let text = buffer.format(number);
    write_spaces(draft, cells.saturating_sub(text.len()));
    draft.push_str(text);
}

/// How many cells a name has in a line of so many.
pub(crate) fn name_cells(line: u16) -> usize
    ensures { result ≡ name_cells line }
{
    if line == 0 {
        return LONGEST_NAME;
    }
    usize::from(line / 5).saturating_sub(4).min(30).max(6)
}

/// What follows a dot of a name and has fewer than so many bytes, the longest there is, if its last
/// bytes, so many, have a dot.
fn end_within(name: &str, most: usize) -> Option<&str>
    ensures { IfSome result (λ end. end.now ≡ first_short most name.now (ends name.now)) }
{
    let (_, last) = name.split_at_checked(name.len().saturating_sub(most))?;
    let (_, end) = last.split_once('.')?;
    Some(end)
}

/// What follows a dot of a name and has fewer than so many bytes, the longest there is; or if
/// nothing has, what follows its last dot.
fn short_end(name: &str, most: usize) -> &str
    ensures { result.now ≡ first_short most name.now (ends name.now) }
{
    match end_within(name, most) {
        Some(end) => end,
        None => end_by_dots(name, most),
    }
}

/// The same, dot by dot.
fn end_by_dots(name: &str, most: usize) -> &str
    ensures { result.now ≡ first_short most name.now (ends name.now) }
{
    let mut rest = name;
    while let Some((_, end)) = rest.split_once('.') {
        rest = end;
        if rest.len() < most {
            return rest;
        }
    }
    rest
}

/// Whether a name fits so many cells, with its last element at least.
pub(crate) fn fits(name: &str, most: usize) -> bool
    ensures { result ≡ nat_le (length (short most name.now)) most }
{
    name.len() <= most || short_end(name, most).len() < most
}

/// Appends a name as it fits so many cells: how many it takes.
#[inline(always)]
pub(crate) fn write_short<D: Draft>(draft: &mut D, name: &str, most: usize) -> usize
    ensures written { D.gains draft.old (short most name.now) draft.new }
    ensures size { result ≡ length (short most name.now) }
{
    if name.len() <= most {
        draft.push_str(name);
        return name.len();
    }
    let end = short_end(name, most);
    draft.push_code(b'~');
    draft.push_str(end);
    end.len() + 1
}

/// The time of day in UTC, so many nanoseconds after 1970 began, in ASCII. POSIX.1-2017, Base
/// Definitions, "Seconds Since the Epoch".
fn clock_of(nanoseconds: u64) -> [u8; 12]
    ensures { result ≡ clock nanoseconds }
{
    let hours = nanoseconds / 3_600_000_000_000 % 24;
    let minutes = nanoseconds / 60_000_000_000 % 60;
    let seconds = nanoseconds / 1_000_000_000 % 60;
    let milliseconds = nanoseconds / 1_000_000 % 1_000;
    [
        digit_at(hours, 10),
        digit_at(hours, 1),
        b':',
        digit_at(minutes, 10),
        digit_at(minutes, 1),
        b':',
        digit_at(seconds, 10),
        digit_at(seconds, 1),
        b'.',
        digit_at(milliseconds, 100),
        digit_at(milliseconds, 10),
        digit_at(milliseconds, 1),
    ]
}

/// Appends the time of day in UTC, so many nanoseconds after 1970 began.
pub(crate) fn write_clock<D: Draft>(draft: &mut D, nanoseconds: u64)
    ensures { D.gains draft.old (clock nanoseconds) draft.new }
{
    let text = clock_of(nanoseconds);
    // The digits and what is between them are ASCII, so that they are text.
    draft.push_str(unsafe { str::from_utf8_unchecked(&text) });
}
