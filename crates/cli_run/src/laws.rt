//! Laws over what a command writes: what a function here ensures is a fact about the definitions,
//! and it does nothing when it runs.
#![tactic(auto)]

ghost use Rattle.cli_run.specs.Laws.{LooksAtFew, OneCalls, OneCount, OneListing, OneRun, OneSums, OneWithin, OneFront, OneOutput, PlainRuns, SomeLines, SomeOutput, TellsBusNames, WritesFile};

use dbus_count::laws::one_table;
use dbus_stream::{Sink, Source};

/// Of each list of messages, and a fault after them of some packet, or none, a command has an
/// output, whatever the packets of the input are.
#[tactic(auto, using(crate::proofs::Outputs::some_output))]
pub fn some_output()
    ensures { SomeOutput }
{}

/// It has no other, also if the packets are others, unless it writes messages as they are read.
/// Others have `Text` with times and `JsonLine`: times are those of packets, and the latter may write a
/// DOUBLE by any digits that read back as its bits.
pub fn one_output()
    ensures { OneOutput }
{}

/// What is a prefix of one of its outputs is then a prefix of each.
pub fn one_front()
    ensures { OneFront }
{}

/// What `InOrder` and `AsIs` write as they are read, of messages that came in packets, is a pcap
/// file. A capture reads it whole, and gives what they write of these messages raw.
pub fn file_is_read()
    ensures { WritesFile }
{}

/// By settings that ask for no more, a command does what it does under their limits alone.
pub fn plain_run<R: Source, W: Sink, E: Sink>()
    ensures { PlainRuns R.left R.calls R.failures R.packets W.held W.failures E.held E.failures }
{}

/// Two runs of a command by the same settings, neither of which failed, that read the same input
/// end with the same status, and their writers got the same bytes; but `JsonLine` may write a DOUBLE by
/// other digits that read back as its bits, and times are others if the packets are. Both inputs
/// are of the same packets if a message is refused, since its line has the packet of its fault, and
/// of `InOrder` and `AsIs` that write messages as they are read. If what is refused is explained, or
/// told as JSON, both had read as many bytes of each such message when it was, since these are
/// shown, and in JSON its header fields have no DOUBLE.
pub fn one_run<R, S, W, V, E, F>()
    ensures { OneRun R S W V E F }
{}

/// The same of two runs of a command under the same limits alone, but `JsonLine`, and `Text` with
/// times.
pub fn one_within<R, S, W, V, E, F>()
    ensures { OneWithin R S W V E F }
{}

/// The same of two runs that count messages by their names; but if the packets are others, the line
/// of the span may be another.
pub fn one_count<R, S, W, V, E, F>()
    ensures { OneCount R S W V E F }
{
    one_table();
}

/// The same of two runs that list calls, if their inputs are of the same packets.
pub fn one_calls<R, S, W, V, E, F>()
    ensures { OneCalls R S W V E F }
{}

/// The same of two runs that list messages, if their inputs are of the same packets, but that
/// `list` may write a DOUBLE by other digits that read back as its bits: what both wrote are lines
/// of the same messages.
pub fn one_listing<R, S, W, V, E, F>()
    ensures { OneListing R S W V E F }
{}

/// Of each list of messages `list` has lines, of those that are selected.
pub fn some_lines()
    ensures { SomeLines }
{}

/// The same of two runs that sum up calls.
pub fn one_sums<R, S, W, V, E, F>()
    ensures { OneSums R S W V E F }
{}

/// The names by which `calls` knows connections are bus names, whatever the messages hold. So a
/// terminal obeys nothing in its lines (`dbus_call_lines::laws::only_printed`).
pub fn names_are_bus_names()
    ensures { TellsBusNames }
{}

/// To go on behind messages that are refused, a run with a window looks at no more bytes than 16 for
/// each of the parts of its input and for each of the window. That is linear in both.
pub fn looks_at_few()
    ensures { LooksAtFew }
{}
