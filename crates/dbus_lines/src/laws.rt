//! Laws of lines. Each function's contract is one, and it does nothing at run time.
#![tactic(auto)]

ghost use Rattle.dbus_lines.specs.Lines.{EachInput, InPieces, OneList};

/// An input has one list of lines.
pub fn one_list()
    ensures { OneList }
{}

/// Each input has one: any bytes are lines.
pub fn each_input()
    ensures { EachInput }
{}

/// If bytes come in two pieces, the lines of the first, and then those of what it leaves with the
/// second, are the lines of both: however an input is cut into reads, it has the same lines.
pub fn in_pieces()
    ensures { InPieces }
{}
