//! The limits, the window and the width that the options of a command name.
ghost use Rattle.clap.specs.Words.{found_of, one_of, rows_of};
ghost use Rattle.cli_options.specs.Limiting.{GivesGiven, GivesNumber, GivesNumbers, GivesLineLimit, GivesResync, GivesWidth, GivesWindow, HasLimits, HasResync, HasWindow};
ghost use Rattle.cli_options.specs.Telling.{TellsNamed};

use crate::command_line::is_given;
use crate::resync::Resync;
use crate::usage_fault::{UsageFault, usage};
use crate::window::Window;
use crate::worded::word_named;
use clap::ArgMatches;
use dbus_value_model::{ARRAY_LIMIT, DEPTH_LIMIT, Limits, MESSAGE_LIMIT};
use std::alloc::Global;

// The cells of a line, if no width is given: those of most terminals.
const USUAL_WIDTH: u32 = 80;

// The bytes that a line may have, if no number is given: 1 GiB.
const USUAL_LINE: u32 = 1_073_741_824;

// The bytes of the window in which messages are looked for, if no number is given: 1 MiB.
const USUAL_WINDOW: u32 = 1_048_576;

/// The limits that the options name. `Usage`: one of them is given what it may not be. `Memory`: an
/// allocation failed.
pub(crate) fn limits_named(alloc: Global, inner: &ArgMatches) -> Result<Limits, UsageFault>
    ensures { TellsNamed (HasLimits (rows_of (found_of inner.now))) result }
{
    let Some(limits) = numbers_named(inner) else {
        return Err(usage(alloc, "error: no limits\n"));
    };
    match word_named(alloc, inner, "fds", "--fds <RULE>", "any, below-count")? {
        Some(fds) => Ok(limits.with_fds(fds)),
        None => Ok(limits),
    }
}

// Limits of the numbers that the options name, or nothing if one of them is given no number that it
// may be.
fn numbers_named(inner: &ArgMatches) -> Option<Limits>
    ensures { GivesNumbers (rows_of (found_of inner.now)) result }
{
    let message = number_named(inner, "max-message", MESSAGE_LIMIT)?;
    let array = number_named(inner, "max-array", ARRAY_LIMIT)?;
    let depth = number_named(inner, "max-depth", u32::from(DEPTH_LIMIT))?;
    Limits::new(message, array, u8::try_from(depth).ok()?)
}

// The number that an option is given, or `most` if it is not given. Nothing, if its text is no
// number of 32 bits.
fn number_named(inner: &ArgMatches, name: &str, most: u32) -> Option<u32>
    ensures { GivesNumber (one_of name.now (rows_of (found_of inner.now))) most result }
{
    match given_named(inner, name) {
        Some(given) => Some(given.unwrap_or(most)),
        None => None,
    }
}

/// The number that an option is given, if it is given. Nothing, if its text is no number of 32
/// bits.
pub(crate) fn given_named(inner: &ArgMatches, name: &str) -> Option<Option<u32>>
    ensures { GivesGiven (one_of name.now (rows_of (found_of inner.now))) result }
{
    match inner.try_get_one::<u32>(name) {
        Ok(given) => Some(given),
        Err(_) => None,
    }
}

/// The window that the options name. `Usage`: one of them is given what it may not be. `Memory`: an
/// allocation failed.
pub(crate) fn window_named(alloc: Global, inner: &ArgMatches) -> Result<Window, UsageFault>
    ensures { TellsNamed (HasWindow (rows_of (found_of inner.now))) result }
{
    match window_of(inner) {
        Some(window) => Ok(window),
        None => Err(usage(alloc, "error: no window\n")),
    }
}

// The window that the options name, or nothing if one of them is given no number that it may be.
fn window_of(inner: &ArgMatches) -> Option<Window>
    ensures { GivesWindow (rows_of (found_of inner.now)) result }
{
    let skip = number_named(inner, "skip", 0)?;
    let limit = given_named(inner, "limit")?;
    Some(Window {
        skip,
        limit,
        checks_rest: is_given(inner, "check-rest"),
    })
}

/// Whether, and in which window, messages are looked for again by the options. `Usage`: they are
/// given what they may not be. `Memory`: an allocation failed.
pub(crate) fn resync_named(alloc: Global, inner: &ArgMatches) -> Result<Resync, UsageFault>
    ensures { TellsNamed (HasResync (rows_of (found_of inner.now))) result }
{
    match resync_of(inner) {
        Some(resync) => Ok(resync),
        None => Err(usage(alloc, "error: no window\n")),
    }
}

// The same, or nothing if an option is given no number that it may be.
fn resync_of(inner: &ArgMatches) -> Option<Resync>
    ensures { GivesResync (rows_of (found_of inner.now)) result }
{
    match given_named(inner, "resync-window")? {
        Some(window) => Some(Resync::Within(window)),
        None => {
            if is_given(inner, "resync") {
                Some(Resync::Within(USUAL_WINDOW))
            } else {
                Some(Resync::Off)
            }
        }
    }
}

/// The cells of a line that the options name, 80 if they name none. Nothing, if they are given no
/// number of 16 bits.
pub(crate) fn width_named(inner: &ArgMatches) -> Option<u16>
    ensures { GivesWidth (rows_of (found_of inner.now)) result }
{
    match number_named(inner, "width", USUAL_WIDTH) {
        Some(width) => u16::try_from(width).ok(),
        None => None,
    }
}

/// The bytes that a line may have by the options, 1 GiB if they do not say. Nothing, if they are
/// given no number of 32 bits.
pub(crate) fn line_limit_named(inner: &ArgMatches) -> Option<u32>
    ensures { GivesLineLimit (rows_of (found_of inner.now)) result }
{
    number_named(inner, "max-line", USUAL_LINE)
}
