//! The command line, as `clap` is told it.
ghost use Rattle.std.specs.Prelude.{◌≡◌, [], IfOk};
ghost use Rattle.clap.specs.Words.{App, app_of, new_app, with_rule, with_subcommand};
ghost use Rattle.cli_options.specs.CommandLine.{IsLocal, bare_app, going, limits, options, rule, selecting, window, wire_app, with_flags};

use crate::flag::Flag::*;
use crate::flag::{Flag, argument};
use crate::help::{self, Texts};
use clap::Command;
use std::alloc::{AllocError, Global};

// A command with its texts and these flags.
fn command<'a>(
    alloc: Global,
    name: &'a str,
    texts: Texts,
    flags: &[Flag],
) -> Result<Command<'a>, AllocError>
    ensures { IfOk result (IsLocal (with_flags flags.now (new_app name.entry.now))) }
{
    with_flags(alloc, bare(alloc, name, texts), flags)
}

// It before it has any.
fn bare<'a>(alloc: Global, name: &'a str, texts: Texts) -> Result<Command<'a>, AllocError>
    ensures { IfOk result (IsLocal (new_app name.entry.now)) }
{
    let command = Command::new(alloc, name).override_usage(texts.usage);
    Ok(command.about(texts.about).after_help(texts.more))
}

// The command with these flags too.
fn with_flags<'a>(
    alloc: Global,
    command: Result<Command<'a>, AllocError>,
    flags: &[Flag],
) -> Result<Command<'a>, AllocError>
    ensures { (app : App) → IfOk command.entry (IsLocal app) →
        IfOk result (IsLocal (with_flags flags.now app)) }
{
    let mut told = command?;
    for flag in flags {
        let more = with_flag(alloc, told, *flag)?;
        told = more;
    }
    Ok(told)
}

// With this one.
fn with_flag<'a>(alloc: Global, command: Command<'a>, flag: Flag) -> Result<Command<'a>, AllocError>
    ensures { (app : App) → IsLocal app command.entry →
        IfOk result (IsLocal (with_rule app (rule flag))) }
{
    command.arg(argument(alloc, flag))
}

// With the options that name limits.
fn with_limits<'a>(
    alloc: Global,
    command: Result<Command<'a>, AllocError>,
) -> Result<Command<'a>, AllocError>
    ensures { (app : App) → IfOk command.entry (IsLocal app) →
        IfOk result (IsLocal (with_flags limits app)) }
{
    with_flags(alloc, command, &[MaxMessage, MaxArray, MaxDepth, Fds])
}

// With those of each command over messages, one of the two of `--json` among them.
fn with_options<'a>(
    alloc: Global,
    command: Result<Command<'a>, AllocError>,
    json: Flag,
) -> Result<Command<'a>, AllocError>
    ensures { (app : App) → IfOk command.entry (IsLocal app) →
        IfOk result (IsLocal (with_flags (options json) app)) }
{
    let limited = with_limits(alloc, with_flags(alloc, command, &[json, Explain]));
    with_flags(alloc, limited, &[Handshake])
}

// And with those by which it goes on.
fn with_going<'a>(
    alloc: Global,
    command: Result<Command<'a>, AllocError>,
    json: Flag,
) -> Result<Command<'a>, AllocError>
    ensures { (app : App) → IfOk command.entry (IsLocal app) →
        IfOk result (IsLocal (with_flags (going json) app)) }
{
    let going = with_flags(alloc, command, &[KeepGoing, Resync, ResyncWindow]);
    with_options(alloc, going, json)
}

// With those by which messages are selected, one of the two of rules among them.
fn with_selection<'a>(
    alloc: Global,
    command: Result<Command<'a>, AllocError>,
    rules: Flag,
) -> Result<Command<'a>, AllocError>
    ensures { (app : App) → IfOk command.entry (IsLocal app) →
        IfOk result (IsLocal (with_flags (selecting rules []) app)) }
{
    with_flags(
        alloc,
        command,
        &[rules, Invert, MayMatch, AsBus, Owner, LearnOwners],
    )
}

// And with those of the window.
fn with_window<'a>(
    alloc: Global,
    command: Result<Command<'a>, AllocError>,
) -> Result<Command<'a>, AllocError>
    ensures { (app : App) → IfOk command.entry (IsLocal app) →
        IfOk result (IsLocal (with_flags window app)) }
{
    let windowed = with_flags(alloc, command, &[Skip, Limit, CheckRest]);
    with_going(alloc, windowed, Json)
}

// The program before it has commands, with its version. Its texts call it `dbus-wire`, whatever
// the first word is.
fn bare_command<'a>(alloc: Global) -> Result<Command<'a>, AllocError>
    ensures { IfOk result (λ c. app_of c ≡ bare_app) }
{
    Command::new(alloc, "dbus-wire")
        .version(help::VERSION)
        .about(help::PROGRAM)
        .after_help(help::PROGRAM_MORE)
        .subcommand_required(true)
        .bin_name("dbus-wire")
}

// The program with one more command.
fn with_command<'a>(
    program: Result<Command<'a>, AllocError>,
    command: Result<Command<'a>, AllocError>,
) -> Result<Command<'a>, AllocError>
    ensures { (app sub : App) → IfOk program.entry (λ c. app_of c ≡ app) →
        IfOk command.entry (IsLocal sub) → IfOk result (λ c. app_of c ≡ with_subcommand app sub.top) }
{
    program?.subcommand(command?)
}

/// The whole command line.
pub(crate) fn wire<'a>(alloc: Global) -> Result<Command<'a>, AllocError>
    ensures { IfOk result (λ c. app_of c ≡ wire_app) }
{
    let encode = [OrderOfLines, SafeLines, Explain, LinesKeepGoing, MaxLine];
    let show = command(alloc, "show", help::SHOW, &[Time, Escape]);
    let show = with_window(alloc, with_selection(alloc, show, Rules));
    let json = command(alloc, "json", help::JSON, &[NoTime, SafeIntegers]);
    let json = with_window(alloc, with_selection(alloc, json, Rules));
    let list = command(alloc, "list", help::LIST, &[Width]);
    let list = with_window(alloc, with_selection(alloc, list, Rules));
    let check = command(alloc, "check", help::CHECK, &[]);
    let check = with_going(alloc, check, LinesJson);
    let count = command(alloc, "count", help::COUNT, &[]);
    let count = with_going(alloc, with_selection(alloc, count, Rules), LinesJson);
    let calls = [Members, Unanswered, Errors, Slower];
    let calls = command(alloc, "calls", help::CALLS, &calls);
    let calls = with_going(alloc, calls, LinesJson);
    let swap = command(alloc, "swap", help::SWAP, &[Order, Raw]);
    let swap = with_options(alloc, with_selection(alloc, swap, Rules), Json);
    let filter = with_selection(
        alloc,
        command(alloc, "filter", help::FILTER, &[]),
        NeededRules,
    );
    let filter = with_window(alloc, with_flags(alloc, filter, &[Raw]));
    let encode = with_limits(alloc, command(alloc, "encode", help::ENCODE, &encode));
    let handshake = command(alloc, "handshake", help::HANDSHAKES, &[Side]);
    let showing = with_command(bare_command(alloc), show);
    let spelling = with_command(showing, json);
    let listing = with_command(spelling, list);
    let checking = with_command(listing, check);
    let counting = with_command(checking, count);
    let pairing = with_command(counting, calls);
    let swapping = with_command(pairing, swap);
    let filtering = with_command(swapping, filter);
    let encoding = with_command(filtering, encode);
    with_command(encoding, handshake)
}
