//! The flags of the commands, one entry each: a variant, and a row of [`argument`].
//!
//! From the comments of the variants, the rows, and what the program prints of them as help,
//! `bench/options.py` makes the synopsis of the manual page and what shells complete.
ghost use Rattle.std.specs.Prelude.{◌≡◌, pos};
ghost use Rattle.clap.specs.declared.builder.value_parser.ValueParser.TheVariants.{Signed};
ghost use Rattle.cli_options.specs.CommandLine.{IsArg, flag_rule, limit_rule, many_rule, needed_rule, rule, text_rule, word_rule};

use clap::builder::ValueParser;
use clap::{Arg, ArgAction};
use dbus_value_model::{ARRAY_LIMIT, DEPTH_LIMIT, MESSAGE_LIMIT};
use std::alloc::Global;

// The most bytes of a line of `encode`: 1 GiB.
const MOST_LINE: u32 = 1_073_741_824;

// The most bytes of the window in which messages are looked for: 1 GiB.
const MOST_WINDOW: u32 = 1_073_741_824;

// The most cells of a line: the greatest number of 16 bits.
const MOST_CELLS: u32 = 65_535;

/// A flag or an option of commands, or their rules, in the order of the synopsis. A name has two
/// variants if its help differs, or if not all of them need it. The comment of a variant is what
/// shells say of it, and then the unit of its value, and the words that this can be.
#[derive(Clone, Copy)]
pub(crate) enum Flag {
    /// The byte order to write: order = l\:little-endian B\:big-endian
    Order,
    /// The byte order to write: order = l\:little-endian B\:big-endian
    OrderOfLines,
    /// The side whose lines they are: side = client server
    Side,
    /// Write the time of each message before it
    Time,
    /// Escape hidden characters
    Escape,
    /// Leave out the times
    NoTime,
    /// Write integers beyond 2^53 - 1 as strings
    SafeIntegers,
    /// Take integers beyond 2^53 - 1 only as strings
    SafeLines,
    /// Cells of a line: cells (0 to 65535)
    Width,
    /// Sum the calls up by their members
    Members,
    /// List the calls without a reply
    Unanswered,
    /// List the calls that an error answered
    Errors,
    /// List the calls replied to later: milliseconds
    Slower,
    /// Select the messages that match no rule
    Invert,
    /// Select those that a rule may match
    MayMatch,
    /// Match as a bus does
    AsBus,
    /// The owner of a well-known name: NAME=UNIQUE
    Owner,
    /// Learn owners from the input
    LearnOwners,
    /// Write raw messages, also of a file
    Raw,
    /// Tell what is refused as JSON
    Json,
    /// Tell what is refused as JSON
    LinesJson,
    /// Explain what is refused
    Explain,
    /// Go on after a refused message
    KeepGoing,
    /// Go on after a refused line
    LinesKeepGoing,
    /// The same, and look for where messages begin again
    Resync,
    /// The same within so many bytes: bytes (0 to 1073741824)
    ResyncWindow,
    /// Most bytes of a line: bytes (0 to 1073741824)
    MaxLine,
    /// Messages to skip first: messages
    Skip,
    /// Most messages to write: messages
    Limit,
    /// Read and check the rest after these
    CheckRest,
    /// Match rules
    Rules,
    /// Match rules
    NeededRules,
    /// The side whose handshake comes before the messages: side = client server
    Handshake,
    /// Most bytes of a message: bytes (0 to 134217728)
    MaxMessage,
    /// Most bytes of the contents of an array: bytes (0 to 67108864)
    MaxArray,
    /// Most containers open at once: containers (0 to 64)
    MaxDepth,
    /// Which indexes of file descriptors a body may have: rule = any below-count
    Fds,
}

/// The argument of a flag, as `clap` is told it.
pub(crate) fn argument<'a>(alloc: Global, flag: Flag) -> Arg<'a>
    ensures { IsArg (rule flag) result }
{
    match flag {
        Flag::Order => needed(alloc, "to", "ORDER").help(
            "The byte order: l is little-endian, B is big-endian",
        ),
        Flag::OrderOfLines => word(alloc, "to", "ORDER").help(
            "The byte order: l is little-endian, B is big-endian",
        ),
        Flag::Side => needed(alloc, "side", "SIDE").help("Whose lines they are: client or server"),
        Flag::Time => set(alloc, "time").help("Writes the time of each message before it"),
        Flag::Escape => set(alloc, "escape").help("Writes hidden characters as \\u{202e}"),
        Flag::NoTime => set(alloc, "no-time").help("Leaves out the times"),
        Flag::SafeIntegers => set(alloc, "safe-integers").help(
            "Writes integers beyond 2^53 - 1 as strings",
        ),
        Flag::SafeLines => set(alloc, "safe-integers").help(
            "Takes integers beyond 2^53 - 1 only as strings",
        ),
        Flag::Width => number(alloc, "width", MOST_CELLS).help(
            "Cells of a line: 80, the default; 0 for no bound; to 65535",
        ),
        Flag::Members => set(alloc, "members").help("Sums the calls up by their members"),
        Flag::Unanswered => set(alloc, "unanswered").help(
            "Lists the calls that want a reply and have none",
        ),
        Flag::Errors => set(alloc, "errors").help("Lists the calls that an error answered"),
        Flag::Slower => number(alloc, "slower", u32::MAX).help(
            "Lists the calls replied to later: 0 to 4294967295 ms",
        ),
        Flag::Invert => set(alloc, "invert").help(
            "Selects the messages that match none of the rules",
        ),
        Flag::MayMatch => set(alloc, "may-match").help("Asks whether rules may match, as a policy"),
        Flag::AsBus => set(alloc, "as-bus").help("Matches as a bus: unicast only by eavesdrop"),
        Flag::Owner => many(alloc, "owner", "NAME=UNIQUE").help(
            "The owner of a name, as org.a.B=:1.7; any number",
        ),
        Flag::LearnOwners => set(alloc, "learn-owners").help(
            "Learns owners from the input, from then on",
        ),
        Flag::Raw => set(alloc, "raw").help("Writes raw messages, also of a pcap or pcapng file"),
        Flag::Json => set(alloc, "json").help("Tells what is refused as JSON"),
        Flag::LinesJson => set(alloc, "json").help("Writes each line as JSON"),
        Flag::Explain => set(alloc, "explain").help("Explains what is refused, in more lines"),
        Flag::KeepGoing => set(alloc, "keep-going").help("Goes on after a refused message"),
        Flag::LinesKeepGoing => set(alloc, "keep-going").help("Goes on after a refused line"),
        Flag::Resync => set(alloc, "resync").help(
            "Keeps going where messages begin again, in 1 MiB",
        ),
        Flag::ResyncWindow => number(alloc, "resync-window", MOST_WINDOW).help(
            "The same in N bytes: 0 to 1073741824",
        ),
        Flag::MaxLine => number(alloc, "max-line", MOST_LINE).help(
            "Most bytes of a line: 0 to 1073741824, the default",
        ),
        Flag::Skip => number(alloc, "skip", u32::MAX).help(
            "Messages to skip first: 0, the default, to 4294967295",
        ),
        Flag::Limit => number(alloc, "limit", u32::MAX).help(
            "Most messages to write after these: 0 to 4294967295",
        ),
        Flag::CheckRest => set(alloc, "check-rest").help(
            "Reads and checks the rest of the input after these",
        ),
        Flag::Rules => rules(alloc, false).help(
            "Match rules, as type='signal',path='/a'; '' matches each message",
        ),
        Flag::NeededRules => rules(alloc, true).help(
            "Match rules, as type='signal',path='/a'; '' matches each message",
        ),
        Flag::Handshake => word(alloc, "handshake", "SIDE").help(
            "Whose handshake comes first: client or server",
        ),
        Flag::MaxMessage => number(alloc, "max-message", MESSAGE_LIMIT).help(
            "Most bytes of a message: 0 to 134217728, the default",
        ),
        Flag::MaxArray => number(alloc, "max-array", ARRAY_LIMIT).help(
            "Most bytes of an array: 0 to 67108864, the default",
        ),
        Flag::MaxDepth => number(alloc, "max-depth", u32::from(DEPTH_LIMIT)).help(
            "Most containers open at once: 0 to 64, the default",
        ),
        Flag::Fds => word(alloc, "fds", "RULE").help(
            "Descriptor indexes: any, the default, or below-count",
        ),
    }
}

// An option with one value.
fn word<'a>(alloc: Global, name: &'a str, value: &'a str) -> Arg<'a>
    ensures { IsArg (word_rule name.entry.now) result }
{
    Arg::new(alloc, name).long(name).value_name(value)
}

// One that must be there.
fn needed<'a>(alloc: Global, name: &'a str, value: &'a str) -> Arg<'a>
    ensures { IsArg (needed_rule name.entry.now) result }
{
    word(alloc, name, value).required(true)
}

// One whose value is a number from 0 up to this one.
fn number<'a>(alloc: Global, name: &'a str, most: u32) -> Arg<'a>
    ensures { IsArg (limit_rule name.entry.now most) result }
{
    word(alloc, name, "N").value_parser(up_to(most))
}

// A number from 0 up to this one.
fn up_to<'a>(most: u32) -> ValueParser<'a>
    ensures { result ≡ Signed (pos 0) (pos most) }
{
    ValueParser::signed(0, i64::from(most))
}

// A flag without a value.
fn set<'a>(alloc: Global, name: &'a str) -> Arg<'a>
    ensures { IsArg (flag_rule name.entry.now) result }
{
    Arg::new(alloc, name).long(name).action(ArgAction::SetTrue)
}

// The rules by which messages are selected, of which one at least may have to be there.
fn rules<'a>(alloc: Global, needed: bool) -> Arg<'a>
    ensures { IsArg (text_rule needed) result }
{
    Arg::new(alloc, "rule")
        .value_name("RULE")
        .required(needed)
        .action(ArgAction::Append)
}

// An option with one value, which may occur again and again.
fn many<'a>(alloc: Global, name: &'a str, value: &'a str) -> Arg<'a>
    ensures { IsArg (many_rule name.entry.now) result }
{
    word(alloc, name, value).action(ArgAction::Append)
}
