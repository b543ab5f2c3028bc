//! Laws of encoded lines. A function's contract is its law; it does nothing when it runs.
#![tactic(auto)]

ghost use Rattle.cli_encode_laws.specs.InputBack.{IsInputBack};
ghost use Rattle.cli_encode_laws.specs.Inverse.{IsEachWritten, IsInverse};
ghost use Rattle.cli_encode_laws.specs.OneEncoding.{OneEncoding};

/// Each line that `json` writes of a valid message, no longer than a line may be, is written as
/// that message, and nothing else becomes of it, if no other byte order is wanted.
pub fn lines_written()
    ensures { IsEachWritten }
{}

/// Lines that `json` writes of valid messages, none longer than a line may be, are encoded to the
/// bytes of these messages, and none is refused, if no other byte order is wanted.
pub fn messages_back()
    ensures { IsInverse }
{}

/// What a run of `json` writes of an input of fewer than 2^64 bytes, in which it refuses nothing,
/// is encoded under the same limits to that input, byte for byte, and the run that encodes it is
/// `Done`: if that does not fail, both have safe integers or both not, no other byte order is
/// wanted, and no line is longer than a line may be.
pub fn input_back<R, S, W, V, E, F>()
    ensures { IsInputBack R S W V E F }
{}

/// Two runs that encode lines in the same way, neither of which failed, and read the same input end
/// with the same status, and their first writers got the same bytes; so did the second ones if no
/// line is refused. Of a line that is, they may tell another reason and column.
pub fn one_encoding<R, S, W, V, E, F>()
    ensures { OneEncoding R S W V E F }
{}
