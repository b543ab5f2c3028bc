//! The command that the words of a command line name.
ghost use Rattle.std.specs.Prelude.{◌≡◌, ◌↔◌, true, List, Some, IfOk, IsTrue, MatchOption, map, string_bytes, codes};
ghost use Rattle.clap.specs.Words.{found_of, kind_of, rows_of, subcommand_rows_of};
ghost use Rattle.cli_options.specs.Named.{GivesWanted, HasEncoding, HasFileForm, HasOrder, HasQuestion, HasSettings, IsNamedBy, LearnsOwners, NamesTask, TakesAll, rules_given, words_of};
ghost use Rattle.cli_options.specs.Limiting.{IsGiven};
ghost use Rattle.cli_options.specs.Telling.{TellsNamed};
ghost use Rattle.cli_options.specs.Told.{TellsKind, Tells, TellsFault, TellsOwners, TellsRules, TellsSelection};

use crate::asked::Asked;
use crate::command::{Output, Request, Task};
use crate::file_form::FileForm;
use crate::limits_named::{
    given_named, limits_named, line_limit_named, resync_named, width_named, window_named,
};
use crate::owners::owners_given;
use crate::resync::Resync;
use crate::rules::rules_spelled;
use crate::selection::{Question, Selection};
use crate::settings::Settings;
use crate::usage_fault::{UsageFault, usage};
use crate::wanted_calls::WantedCalls;
use crate::wanted_encoding::WantedEncoding;
use crate::wire::wire;
use crate::worded::word_named;
use clap::ArgMatches;
use clap::error::ErrorKind;
use dbus_match::{Owner, Rule};
use dbus_value_model::Order;
use std::alloc::Global;

/// What the words ask for: the command that they name, and its settings; or of `handshake` the side
/// that `--side` names. The first of the words is the program's name. `--max-message` and
/// `--max-array`, in bytes, `--max-depth`, in open containers, and `--fds`, a rule on indexes of
/// descriptors, name the limits; one that they do not name is that of the specification. The flags
/// `--json`, `--explain`, and `--keep-going` of all commands but `swap`, are set if they are among
/// the words, and `--json` of `count` is its form too. `--raw`, of `filter` and `swap`, is the form
/// in which they write messages. `--json`, `--members`, `--unanswered`, `--errors` and `--slower`,
/// in milliseconds, of `calls` say what it lists. `--time` of `show` and `--no-time` of `json` say
/// whether times are written. `--resync-window`, in bytes, is where messages are looked for behind a
/// refused one; with `--resync` alone that has 1 MiB; and with each of the two `--keep-going` is
/// set. `--handshake` names the side whose handshake comes before the messages. `--skip` and `--limit`, of `show`, `json`, `list` and `filter`, are the numbers of the
/// window; without them it leaves no message out. `--check-rest` of these is set if it is among the
/// words. `--width` of `list` is the number of cells of its lines; without it they have 80. The
/// words that stand alone after `show`, `json`, `list`, `count`, `swap` and `filter` are rules, and
/// `--invert`, `--may-match`, `--as-bus` and `--owner` say more of what they select. Without rules
/// there is the one that matches all messages. Each of them learns owners, but `filter` only if
/// `--learn-owners` is among the words.
/// `encode` takes the options of the limits, `--to` for the order of all messages, `--explain`,
/// `--keep-going` and `--max-line`, in bytes; without it a line may have 1 GiB. `--safe-integers` of `json` and of
/// `encode` is set if it is among the words.
///
/// `Usage`: the words name no command of the program, or have what it does not take, a limit over
/// that of the specification, a number of messages or milliseconds over 4294967295, a width over
/// 65535 and an owner that is no NAME=UNIQUE of two bus names among it. `Rule`: they have a text that
/// spells no rule, and name a command that takes rules; it is the first such text. `Help`, `Version`: they
/// ask for help, or for the version. `Memory`: an allocation failed.
pub fn command_of(alloc: Global, words: &[String]) -> Result<Asked, UsageFault>
    // What is returned is what the words name: a command and its settings, or a side.
    ensures named { IfOk result (IsNamedBy (map string_bytes words.now)) }
    // Help or the version is returned if the words ask for it, a fault of usage if they have one,
    // and a rule if it is refused.
    ensures faults { TellsFault (map string_bytes words.now) result }
{
    let Ok(command) = wire(alloc) else {
        return Err(UsageFault::Memory);
    };
    match command.try_get_matches_from(words) {
        Ok(matches) => command_named(alloc, &matches),
        Err(error) => Err(fault_told(alloc, &error)),
    }
}

// What matches name.
fn command_named(alloc: Global, matches: &ArgMatches) -> Result<Asked, UsageFault>
    ensures { Tells (subcommand_rows_of matches.now) result }
{
    let Some((name, inner)) = matches.subcommand() else {
        return Err(usage(alloc, "error: no command\n"));
    };
    if name == "handshake" {
        return handshake_named(alloc, inner);
    }
    if name == "encode" {
        return encode_named(alloc, inner);
    }
    let settings = settings_named(alloc, inner)?;
    let task = task_named(alloc, name, inner)?;
    let selection = selection_named(alloc, name, inner)?;
    Ok(Asked::Messages(Request {
        task,
        selection,
        settings,
    }))
}

// What `encode` is given.
fn encode_named(alloc: Global, inner: &ArgMatches) -> Result<Asked, UsageFault>
    ensures { Tells (Some (codes "encode", rows_of (found_of inner.now))) result }
{
    match encoding_named(alloc, inner) {
        Ok(wanted) => Ok(Asked::Encode(wanted)),
        Err(fault) => Err(fault),
    }
}

// What `encode` is to write.
fn encoding_named(alloc: Global, inner: &ArgMatches) -> Result<WantedEncoding, UsageFault>
    ensures { TellsNamed (HasEncoding (rows_of (found_of inner.now))) result }
{
    let limits = limits_named(alloc, inner)?;
    let order = order_given(alloc, inner)?;
    let safe_integers = is_given(inner, "safe-integers");
    let explains = is_given(inner, "explain");
    let keeps_going = is_given(inner, "keep-going");
    match line_limit_named(inner) {
        Some(max_line) => Ok(WantedEncoding {
            limits,
            order,
            safe_integers,
            explains,
            keeps_going,
            max_line,
        }),
        None => Err(usage(alloc, "error: no limit on lines\n")),
    }
}

// The order that is given, if one is.
fn order_given(alloc: Global, inner: &ArgMatches) -> Result<Option<Order>, UsageFault>
    ensures { TellsNamed (HasOrder (rows_of (found_of inner.now))) result }
{
    word_named(alloc, inner, "to", "--to <ORDER>", "l, B")
}

// The side that `handshake` is given.
fn handshake_named(alloc: Global, inner: &ArgMatches) -> Result<Asked, UsageFault>
    ensures { Tells (Some (codes "handshake", rows_of (found_of inner.now))) result }
{
    match word_named(alloc, inner, "side", "--side <SIDE>", "client, server") {
        Ok(Some(side)) => Ok(Asked::Handshake(side)),
        Ok(None) => Err(usage(alloc, "error: no side\n")),
        Err(fault) => Err(fault),
    }
}

// What `calls` is given.
fn calls_named(alloc: Global, inner: &ArgMatches) -> Result<Task, UsageFault>
    ensures { TellsNamed (NamesTask (codes "calls") (rows_of (found_of inner.now))) result }
{
    match wanted_named(inner) {
        Some(wanted) => Ok(Task::Calls(wanted)),
        None => Err(usage(alloc, "error: no number of milliseconds\n")),
    }
}

// What `calls` is to list, or nothing if an option is given no number that it may be.
fn wanted_named(inner: &ArgMatches) -> Option<WantedCalls>
    ensures { GivesWanted (rows_of (found_of inner.now)) result }
{
    let slower = given_named(inner, "slower")?;
    Some(WantedCalls {
        by_member: is_given(inner, "members"),
        unanswered: is_given(inner, "unanswered"),
        errors: is_given(inner, "errors"),
        slower,
    })
}

// The settings that the options name.
fn settings_named(alloc: Global, inner: &ArgMatches) -> Result<Settings, UsageFault>
    ensures { TellsNamed (HasSettings (rows_of (found_of inner.now))) result }
{
    let limits = limits_named(alloc, inner)?;
    let handshake = word_named(
        alloc,
        inner,
        "handshake",
        "--handshake <SIDE>",
        "client, server",
    )?;
    let window = window_named(alloc, inner)?;
    let resync = resync_named(alloc, inner)?;
    let as_json = is_given(inner, "json");
    let is_on = !matches!(resync, Resync::Off);
    Ok(Settings {
        limits,
        as_json,
        explains: is_given(inner, "explain"),
        keeps_going: is_on || is_given(inner, "keep-going"),
        resync,
        handshake,
        window,
    })
}

// What the command of this name is to do, with what comes after it.
fn task_named(alloc: Global, name: &str, inner: &ArgMatches) -> Result<Task, UsageFault>
    ensures { TellsNamed (NamesTask name.now (rows_of (found_of inner.now))) result }
{
    if name == "show" {
        let times = is_given(inner, "time");
        let escapes = is_given(inner, "escape");
        return Ok(Task::Write(Output::Text { times, escapes }));
    }
    if name == "json" {
        let times = !is_given(inner, "no-time");
        let safe = is_given(inner, "safe-integers");
        return Ok(Task::Write(Output::JsonLine { times, safe }));
    }
    if name == "check" {
        return Ok(Task::Write(Output::Nothing));
    }
    if name == "swap" {
        return order_named(alloc, inner);
    }
    if name == "filter" {
        return Ok(Task::Write(Output::AsIs(file_form_named(inner))));
    }
    if name == "count" {
        return Ok(Task::Count);
    }
    if name == "list" {
        return lines_named(alloc, inner);
    }
    if name == "calls" {
        return calls_named(alloc, inner);
    }
    Err(usage(alloc, "error: no such command\n"))
}

// What `list` is given.
fn lines_named(alloc: Global, inner: &ArgMatches) -> Result<Task, UsageFault>
    ensures { TellsNamed (NamesTask (codes "list") (rows_of (found_of inner.now))) result }
{
    match width_named(inner) {
        Some(width) => Ok(Task::Lines(width)),
        None => Err(usage(alloc, "error: no width\n")),
    }
}

// The order that `swap` is given.
fn order_named(alloc: Global, inner: &ArgMatches) -> Result<Task, UsageFault>
    ensures { TellsNamed (NamesTask (codes "swap") (rows_of (found_of inner.now))) result }
{
    match order_given(alloc, inner) {
        Ok(Some(order)) => Ok(Task::Write(Output::InOrder(order, file_form_named(inner)))),
        Ok(None) => Err(usage(alloc, "error: no order\n")),
        Err(fault) => Err(fault),
    }
}

// The form in which messages are to be written.
fn file_form_named(inner: &ArgMatches) -> FileForm
    ensures { HasFileForm (rows_of (found_of inner.now)) result }
{
    if is_given(inner, "raw") {
        FileForm::Raw
    } else {
        FileForm::AsRead
    }
}

// The messages that the command of this name is to select, if not all.
fn selection_named(
    alloc: Global,
    name: &str,
    inner: &ArgMatches,
) -> Result<Option<Selection>, UsageFault>
    ensures { TellsSelection name.now (rows_of (found_of inner.now)) result }
{
    let owners = owners_named(alloc, inner)?;
    let rules = rules_named(alloc, inner, is_given(inner, "explain"))?;
    let selection = Selection {
        rules,
        is_inverted: is_given(inner, "invert"),
        question: question_named(inner),
        owners,
        learns: learns_owners(name, inner),
        as_bus: is_given(inner, "as-bus"),
    };
    if takes_all(inner) {
        Ok(None)
    } else {
        Ok(Some(selection))
    }
}

// Whether it selects all messages.
fn takes_all(inner: &ArgMatches) -> bool
    ensures { IsTrue result ↔ TakesAll (rows_of (found_of inner.now)) }
{
    match inner.get_strs("rule") {
        Some(_) => false,
        None => !(is_given(inner, "invert") | is_given(inner, "as-bus")),
    }
}

// Whether the command of this name learns owners.
fn learns_owners(name: &str, inner: &ArgMatches) -> bool
    ensures { (result ≡ true) ↔ LearnsOwners name.now (rows_of (found_of inner.now)) }
{
    name != "filter" || is_given(inner, "learn-owners")
}

// What is asked of each rule.
fn question_named(inner: &ArgMatches) -> Question
    ensures { HasQuestion (rows_of (found_of inner.now)) result }
{
    if is_given(inner, "may-match") {
        Question::MayMatch
    } else {
        Question::Matches
    }
}

// The rules that it is given; without any, the one that matches each message.
fn rules_named(alloc: Global, inner: &ArgMatches, explains: bool) -> Result<Vec<Rule>, UsageFault>
    ensures { TellsRules (rules_given (rows_of (found_of inner.now))) explains result }
{
    match inner.get_strs("rule") {
        Some(texts) => rules_spelled(alloc, texts, explains),
        None => rules_spelled(alloc, &[""], explains),
    }
}

// The owners that `--owner` gives.
fn owners_named(alloc: Global, inner: &ArgMatches) -> Result<Vec<Owner>, UsageFault>
    ensures { TellsOwners (words_of (codes "owner") (rows_of (found_of inner.now))) result }
{
    match inner.get_strs("owner") {
        Some(words) => owners_given(alloc, words),
        None => Ok(Vec::new(alloc)),
    }
}

/// Whether the flag of this name is given.
pub(crate) fn is_given(inner: &ArgMatches, name: &str) -> bool
    ensures { (result ≡ true) ↔ IsGiven name.now (rows_of (found_of inner.now)) }
{
    is_true(inner.get_str(name))
}

// Whether the word is there and is `true`.
fn is_true(word: Option<&str>) -> bool
    ensures { (result ≡ true) ↔ MatchOption word.entry ⊥ (λ w. w.now ≡ codes "true") }
{
    match word {
        Some(word) => word == "true",
        None => false,
    }
}

// What is reported of words that clap rejects: its own text.
fn fault_told(alloc: Global, error: &clap::Error) -> UsageFault
    ensures { TellsKind (kind_of error.now) result }
{
    if error.kind() == ErrorKind::OutOfMemory {
        return UsageFault::Memory;
    }
    let Ok(text) = error.to_string(alloc) else {
        return UsageFault::Memory;
    };
    match error.kind() {
        ErrorKind::DisplayHelp => UsageFault::Help(text),
        ErrorKind::DisplayVersion => UsageFault::Version(text),
        _ => UsageFault::Usage(text),
    }
}
