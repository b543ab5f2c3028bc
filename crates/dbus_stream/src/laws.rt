//! Laws of streams. Each function's contract is one, and it does nothing at run time.
ghost use Rattle.std.specs.Prelude.{◌≡◌, ◌<◌, ◌+◌, ◌-◌, ℕ, List, Option, Some, length, take};
ghost use Rattle.dbus_device.specs.Packets.{Packets};
ghost use Rattle.dbus_device.specs.declared.packet.Packet.{Packet};
ghost use Rattle.dbus_header.specs.MessageOutcomes.{IsPartial, IsRefused};
ghost use Rattle.dbus_value_model.specs.declared.fault.Fault.{Fault};
ghost use Rattle.dbus_value_model.specs.declared.limits.Limits.{Limits};
ghost use Rattle.dbus_stream.specs.CutEnds.{CutOfPrefix, EachCut, NoneTruncated, OneCut, StatedSuffice};
ghost use Rattle.dbus_stream.specs.GoingOn.{GoesByParts, OneResumed, ResyncsByParts};
ghost use Rattle.dbus_stream.specs.Headline.{Headline};
ghost use Rattle.dbus_stream.specs.Packets.{ShowsIn};
ghost use Rattle.dbus_stream.specs.RawReading.{HasPackets, IsNewReader, KeepsPackets, ReadsNothing, ShowsLast, done_of, kept, last_of, read_of, source_of};
ghost use Rattle.dbus_stream.specs.StatedSizes.{LengthsAreSizes, OneSize, SizesTell};
ghost use Rattle.dbus_stream.specs.declared.raw_reader.RawReader.{RawReader};

use dbus_device::Source;
use std::alloc::Allocator;

/// What reading and writing promise of bytes, messages and streams, as README says: bytes are
/// accepted exactly if they begin with a message that the marshalling relation spells within the
/// limits; that message comes out, encoding it in its order gives those bytes back, and in either
/// order decoding an encoding gives the message; however the input is split, the same messages come
/// out, and no byte after a message is consumed; a refusal has the one place and reason of the
/// fault table.
///
/// It holds for all limits, and for every valid message within them.
///
/// It speaks of `decode_within` by `Decodes`, of `encode` by the bytes that it gives, and of a
/// cutter by `Feeds`: `Cutter::take` gets any pieces one after another, and what a call leaves of
/// one is passed again. Each call may be out of memory, and then takes nothing.
pub fn headline<A: Allocator>()
    ensures { (limits : Limits) → Headline limits A }
{}

/// A stream of bytes is cut into messages, a rest and an outcome in one way, under any limits.
pub fn one_cut()
    ensures { OneCut }
{}

/// If a stream is cut in two anywhere, the messages of its first part are the first of its
/// messages, under any limits.
pub fn cut_of_prefix()
    ensures { CutOfPrefix }
{}

/// Each list of bytes is cut, under any limits.
pub fn each_cut()
    ensures { EachCut }
{}

/// Bytes that state how many a message has, and that are neither a message nor refused, are fewer
/// than they state.
#[tactic(auto, using(crate::proofs::MessageEnds::partial_short))]
pub fn stated_suffice()
    ensures { StatedSuffice }
{}

/// Bytes state at most one size of a message, and state it whatever follows; the length that they
/// state if they show no fault is that size; and either they state none whatever follows, or more
/// of them are wanted, or they are all of the message.
pub fn sizes()
    ensures one { OneSize }
    ensures lengths { LengthsAreSizes }
    ensures tell { SizesTell }
{}

/// No fault of bytes is that of an input that ends within a message.
#[tactic(auto, using(crate::proofs::MessageEnds::refused_reason))]
pub fn none_truncated()
    ensures { NoneTruncated }
{}

/// Behind a refused message, messages begin again in one place, by the limits, the window and the
/// effort.
pub fn one_resumed()
    ensures { OneResumed }
{}

/// Behind a refused message, [`RawReader::go_on`] loses what [`dbus_resync::laws`] says of damaged
/// bytes: those before the first whole message in the window; and if it returns `Nowhere`, none
/// begins in it. So does [`RawReader::resync`], if the size that the message states leads nowhere.
///
/// [`RawReader::go_on`]: crate::RawReader::go_on
/// [`RawReader::resync`]: crate::RawReader::resync
pub fn parts_of_damage<R: Source, A: Allocator>()
    ensures goes { GoesByParts R A }
    ensures resyncs { ResyncsByParts R A }
{}

/// The packet of a message is known. A new reader begins with the packets that its source tells of
/// its bytes, and each call keeps to them: those that read by their clauses `packets`, and the
/// others since they read nothing. So if a message is given, [`RawReader::packet`] returns the one
/// that its last byte is of: the call's clause says that this byte came by the last read.
///
/// [`RawReader::packet`]: crate::RawReader::packet
pub fn packets_of_messages<R: Source, A: Allocator>()
    ensures begins { (source : R) (most : ℕ) (limits : Limits) (r : RawReader R A) (all : Packets) →
        IsNewReader source most limits r → R.packets source ≡ Some all →
        HasPackets R.packets R.packet all r }
    ensures unread { (old new : RawReader R A) → ReadsNothing old new →
        KeepsPackets R.packets R.packet old new }
    ensures given { (r : RawReader R A) (all : Packets) → HasPackets R.packets R.packet all r →
        read_of r < done_of r + last_of r → R.packet (source_of r) ≡ all (done_of r - 1) }
{}

/// So is the packet of a fault. If a message is refused, what was kept of it before the last read
/// shows no fault, as the call's clause says, so [`RawReader::packet`] returns the packet of the
/// byte with which its bytes are refused. If the input ends within a message, it returns that of
/// its last byte.
///
/// [`RawReader::packet`]: crate::RawReader::packet
pub fn packets_of_faults<R: Source, A: Allocator>()
    ensures refused { (r : RawReader R A) (all : Packets) (limits : Limits) (fault : Fault) →
        HasPackets R.packets R.packet all r → IsRefused limits (kept r) fault →
        ShowsLast limits (kept r) r →
        ShowsIn all limits (done_of r) (kept r) (R.packet (source_of r)) }
    ensures ended { (r : RawReader R A) (all : Packets) (limits : Limits) →
        HasPackets R.packets R.packet all r → 0 < length (kept r) → IsPartial limits (kept r) →
        ShowsIn all limits (done_of r) (kept r) (R.packet (source_of r)) }
    ensures shown { (all : Packets) (limits : Limits) (offset : ℕ) (bytes : List ℕ)
        (packet : Option Packet) (i : ℕ) (fault : Fault) →
        ShowsIn all limits offset bytes packet → i < length bytes →
        IsRefused limits (take (i + 1) bytes) fault → all (offset + i) ≡ packet }
{}
