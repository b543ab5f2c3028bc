//! Laws of the program. A function's contract is its law; it does nothing when it runs.
#![tactic(auto)]

ghost use Rattle.dbus_tool.specs.Alike.{OneProgram};
ghost use Rattle.dbus_tool.specs.InputBack.{ProgramBack};

use dbus_count::laws::one_table;

/// Two runs of the program by the same words, neither of which failed, that read the same input end
/// with the same status, and their writers got the same bytes. The words name something, with or
/// without a handshake. If a message is refused, or of `count` and `calls`, and of `swap` and
/// `filter` without `--raw`, both inputs are of the same packets: the line of a refusal has the
/// packet of its fault, and the others have times. If what is refused is explained, or told as
/// JSON, both had read as many bytes of each such message when it was, since these are shown, and
/// in JSON its header fields have no DOUBLE. Left out are `json` and `list`, which may write a
/// DOUBLE by other digits; `encode` if a line is refused, which may tell another reason; `show
/// --time`, as the input has other times if its packets are others; and words in which clap finds a
/// fault, since it may report any of several.
pub fn one_program<R, S, W, V, E, F>()
    ensures { OneProgram R S W V E F }
{
    one_table();
}

/// What `dbus-wire json` writes of an input in which it refuses nothing, `dbus-wire encode` writes
/// as that input, byte for byte, and is `Done`, if it does not fail: by words that name both with
/// the same limits, both with safe integers or both without, and with no other option but whether
/// times are written, how long a line may be, and whether `encode` explains and goes on. The input
/// has fewer than 2^64 bytes, and no line is longer than one may be.
pub fn input_back<R, S, W, V, E, F>()
    ensures { ProgramBack R S W V E F }
{}
