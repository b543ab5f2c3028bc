//! Messages from a source, by what takes their bytes.
ghost use Rattle.std.specs.Prelude.{◌≡◌, ◌≤◌, ◌<◌, ◌+◌, ◌*◌, ◌-◌, ◌^◌, ◌++◌, ℕ, [], List, length, slice_range, true, false, None, Some};
ghost use Rattle.dbus_stream.specs.Lasting.{is_lasting};
ghost use Rattle.dbus_stream.specs.Packed.{IsOther, is_packed, number_of};
ghost use Rattle.dbus_stream.specs.Rooms.{put_or};

use crate::buffer::Buffer;
use crate::passed::Passed;
use crate::read_fault::ReadFault;
use crate::refused::{Refused, Size};
use crate::seeking::Behind;
use crate::stream_fault::StreamFault;
use crate::taker::Taker;
use dbus_device::{DeviceFault, Packet, Source};
use dbus_value_model::{Fault, Limits, Reason};
use std::alloc::{AllocError, Allocator, Global};

// How many bytes one read gives at most.
const ROOM: usize = 262_144;

/// Reads messages from a source, one after another, by a buffer inside it, and gives what its taker
/// makes of each: a [`crate::MessageReader`] the message, a [`crate::CheckReader`] its length.
///
/// It keeps the bytes that it read and did not give in a message yet: what its taker holds, which
/// is at most one message, and what is left of the buffer. The limits of its messages, and the
/// number of reads that it makes at most in its life, are those that it was made with.
#[derive(Drop)]
pub struct Reader<R, T, B: Buffer, A: Allocator = Global> {
    source: R,
    // It holds the bytes of the message under way that came by earlier reads.
    pub(crate) taker: T,
    // How many bytes these are.
    pub(crate) held: u64,
    // What the last read gave, or bytes that were put in its place, and which of it is left.
    pub(crate) buffer: B,
    pub(crate) put: Option<Vec<u8, A>>,
    pub(crate) start: usize,
    pub(crate) end: usize,
    pub(crate) done: u64,
    pub(crate) reads: u64,
    pub(crate) most_reads: u64,
    pub(crate) ended: bool,
    // Whether a read gave bytes of a packet.
    pub(crate) packed: bool,
    pub(crate) stopped: Option<ReadFault>,
    ghost in_order: { start ≤ end },
    ghost in_buffer: { end ≤ length (put_or put (B.room.bytes buffer)) },
    ghost small: { B.room.size ≤ 262144 },
    ghost few_reads: { reads ≤ most_reads },
    ghost low_most: { most_reads ≤ 2 ^ 32 },
    ghost lasting: { is_lasting stopped ≡ true },
    ghost counted: { done + held + (end - start) ≤ B.room.size * reads },
}

impl<R: Source, T: Taker, B: Buffer, A: Allocator> Reader<R, T, B, A> {
    ghost use Rattle.dbus_stream.specs.declared.read_fault.ReadFault.{ReadFault};
    ghost use Rattle.dbus_device.specs.Device.{ReadCounts};
    ghost use Rattle.dbus_stream.specs.Reading.{limits_of, source_of, taker_of, room_of, part_of, done_of, read_of, reads_of, most_reads_of, stopped_of, Keeps, IsNewReader};
    ghost use Rattle.dbus_stream.specs.Next.{NextAnswers, KeptAnswers, DeviceCounts, Reads, ReadsNothing};
    ghost use Rattle.dbus_device.specs.Packets.{Packets};
    ghost use Rattle.dbus_stream.specs.Packets.{HasPackets, KeepsPackets};
    ghost use Rattle.dbus_stream.specs.PassingPackets.{AreOfNumber, PastAnswers, ReadsPast};
    ghost use Rattle.dbus_stream.specs.Dropping.{AreInside, HasDropped};
    ghost use Rattle.dbus_stream.specs.Passing.{ReadsToSkip, SkipAnswers};
    ghost use Rattle.dbus_stream.specs.Steps.{TakesAll, Stops, Drops, Fills, Calls};
    ghost use Rattle.dbus_stream.specs.LookingAhead.{DropsKept, HasAhead, IsFar, StandsBefore};

    /// A reader of what the source gives to a taker that holds nothing. It has read nothing yet,
    /// and makes at most `reads` reads in its life, the one that finds the end of the input among
    /// them.
    pub(crate) fn over(source: R, taker: T, buffer: B, reads: u64) -> Self
        requires small { B.room.size ≤ 262144 }
        requires few { reads ≤ 2 ^ 32 }
        requires nothing { T.known.holds taker [] }
        ensures new { IsNewReader T.known source reads (T.known.limits taker) result }
        ensures taker { taker_of result ≡ taker }
    {
        Reader {
            source,
            taker,
            held: 0,
            buffer,
            put: None,
            start: 0,
            end: 0,
            done: 0,
            reads: 0,
            most_reads: reads,
            ended: false,
            packed: false,
            stopped: None,
        }
    }

    /// Gives the source back. Bytes that are kept are lost.
    pub fn into_source(self) -> R
        ensures { result ≡ source_of self }
    {
        self.source
    }

    /// The number of bytes of all the messages that it returned.
    pub fn done(&self) -> u64
        ensures { result ≡ done_of self.now }
    {
        self.done
    }

    /// What its taker makes of the next message, or None at the end of the input. Bytes after the
    /// message are kept. After the end each call returns the same, without reading. A read is made
    /// only if no whole message is kept, so a message is given at the read that ends it. D-Bus
    /// Specification, "Message Protocol".
    ///
    /// `Format`: the bytes begin with no message within the limits; or the input ended within one,
    /// and then the reason is `Truncated`, at their number. `TooManyReads`: as many reads were made
    /// as it may make, none of them found the end, and no whole message is kept. Both stay for
    /// good. `Device`: a read failed in this call. `Memory`: an allocation failed. After these two
    /// all that was read is kept, and the call may be made again.
    pub fn next(&mut self) -> Result<Option<T::Given>, ReadFault>
        // Of what was kept and then read it gives what that begins with.
        ensures read { (w : List ℕ) → Keeps T.known self.old w →
            (r : Reads T.known R.left R.calls w self.old self.new) ×
            (stopped_of self.old ≡ None →
            NextAnswers T.known (w ++ r.bytes) self.old self.new result) }
        ensures failed { DeviceCounts (R.failures (source_of self.old))
            (R.failures (source_of self.new)) result }
        ensures same_reference { R.reference (source_of self.new) ≡
            R.reference (source_of self.old) }
        ensures packets { KeepsPackets R.packets R.packet self.old self.new }
        ensures few { done_of self.new ≤ B.room.size * 2 ^ 32 }
        // A fault of the bytes stays for good, and so does the number of reads.
        ensures stays { (f : ReadFault) → stopped_of self.old ≡ Some f →
            (result ≡ Err f) × (self.new ≡ self.old) }
    {
        if let Some(fault) = self.stopped {
            return Err(fault);
        }
        'reading: loop {
            match self.take_kept() {
                Ok(Some(given)) => return Ok(Some(given)),
                Ok(None) => {}
                Err(fault) => return Err(fault),
            }
            if self.ended {
                if self.held == 0 {
                    return Ok(None);
                }
                let fault = ReadFault::Format(Fault {
                    at: self.held,
                    reason: Reason::Truncated,
                });
                self.stop(fault);
                return Err(fault);
            }
            if self.reads >= self.most_reads {
                self.stop(ReadFault::TooManyReads);
                return Err(ReadFault::TooManyReads);
            }
            match self.fill() {
                Ok(()) => {}
                Err(DeviceFault) => return Err(ReadFault::Device),
            }
        }
    }

    /// What its taker makes of the next message out of what was read already: no read is made.
    /// Bytes after the message are kept. None if what is kept begins with no whole message; then
    /// `next` goes on from there and reads more.
    ///
    /// `Format`: the bytes begin with no message within the limits. It stays for good, and so does
    /// a fault that `next` returns for good. `Memory`: an allocation failed. Then all that was read
    /// is kept, and the call may be made again.
    pub fn next_kept(&mut self) -> Result<Option<T::Given>, ReadFault>
        // It gives what the bytes that are kept begin with.
        ensures kept { (w : List ℕ) → Keeps T.known self.old w → stopped_of self.old ≡ None →
            KeptAnswers T.known w self.old self.new result }
        ensures unread { ReadsNothing T.known self.old self.new }
        ensures failed { DeviceCounts (R.failures (source_of self.old))
            (R.failures (source_of self.new)) result }
        ensures few { done_of self.new ≤ B.room.size * 2 ^ 32 }
        // A fault of the bytes stays for good, and so does the number of reads.
        ensures stays { (f : ReadFault) → stopped_of self.old ≡ Some f →
            (result ≡ Err f) × (self.new ≡ self.old) }
    {
        if let Some(fault) = self.stopped {
            return Err(fault);
        }
        self.take_kept()
    }

    /// Passes over a refused message, of which these bytes were dropped, those among them that its
    /// taker held before it let go of them; then what is left of the buffer and what is read. If it
    /// is passed over, the reader stands before what follows then, without a fault. Else, and after
    /// an error, all that was there is passed over, and a fault stays. A read is made only if more
    /// is wanted.
    ///
    /// `TooManyReads`: as many reads were made as it may make. `Device`: a read failed.
    pub(crate) fn pass_over(
        &mut self,
        limits: Limits,
        refused: &mut Refused,
    ) -> Result<Passed, ReadFault>
        requires counted { refused.old.dropped ≤ done_of self.old + self.old.held }
        requires inside { (gone : List ℕ) → HasDropped refused.old gone → AreInside limits gone }
        ensures passes { (gone : List ℕ) → HasDropped refused.old gone →
            (r : ReadsToSkip T.known limits (gone ++ part_of self.old) R.left R.calls self.old self.new) ×
            SkipAnswers limits gone (gone ++ (part_of self.old ++ r.bytes)) self.old self.new refused.new result }
        ensures nothing { (taker_of self.new ≡ taker_of self.old) × (self.new.held ≡ 0) }
        ensures counted { refused.new.dropped ≤ done_of self.new }
        ensures failed { DeviceCounts (R.failures (source_of self.old))
            (R.failures (source_of self.new)) result }
        ensures same_reference { R.reference (source_of self.new) ≡
            R.reference (source_of self.old) }
        ensures packets { KeepsPackets R.packets R.packet self.old self.new }
        ensures few { done_of self.new ≤ B.room.size * 2 ^ 32 }
    {
        self.done += self.held;
        self.held = 0;
        'reading: loop {
            let kept = self.part().len() as u64;
            let mut there = *refused;
            there.drop_bytes(self.part());
            match there.size(limits) {
                Size::There(size) => {
                    self.skip(size - refused.dropped);
                    *refused = Refused::nothing();
                    self.stopped = None;
                    return Ok(Passed::Over);
                }
                Size::Wanted => {}
                Size::Unstated => {
                    self.skip(kept);
                    *refused = there;
                    return Ok(Passed::Not);
                }
            }
            self.skip(kept);
            *refused = there;
            if self.ended {
                return Ok(Passed::CutOff);
            }
            if self.reads >= self.most_reads {
                return Err(ReadFault::TooManyReads);
            }
            match self.fill() {
                Ok(()) => {}
                Err(DeviceFault) => return Err(ReadFault::Device),
            }
        }
    }

    /// All that was kept counts as done.
    pub(crate) fn drop_kept(&mut self)
        ensures drops { DropsKept self.old self.new }
        ensures unread { ReadsNothing T.known self.old self.new }
    {
        self.done += self.held + (self.end - self.start) as u64;
        self.held = 0;
        self.start = self.end;
    }

    /// Reads on until so many bytes are there, or a message is met, or the input ends. What is read
    /// is put behind the bytes that are there, and counts as done.
    ///
    /// `TooManyReads`: as many reads were made as it may make. `Device`: a read failed. `Memory`:
    /// an allocation failed. What was read is there then.
    pub(crate) fn read_ahead(
        &mut self,
        behind: Behind,
        far: usize,
        ahead: &mut Vec<u8, A>,
    ) -> Result<(), ReadFault>
        requires drained { part_of self.old ≡ [] }
        ensures ahead { HasAhead T.known R.left R.calls behind far ahead.old.items ahead.new.items
            self.old self.new }
        ensures far { IsFar behind far ahead.new.items self.new result }
        ensures failed { DeviceCounts (R.failures (source_of self.old))
            (R.failures (source_of self.new)) result }
        ensures same_reference { R.reference (source_of self.new) ≡
            R.reference (source_of self.old) }
        ensures packets { KeepsPackets R.packets R.packet self.old self.new }
    {
        let mut before = 0;
        'reading: while ahead.len() < far {
            if self.ended {
                return Ok(());
            }
            if behind.is_met(ahead.as_slice(), before) {
                return Ok(());
            }
            before = ahead.len();
            if self.reads >= self.most_reads {
                return Err(ReadFault::TooManyReads);
            }
            if ahead.reserve(ROOM).is_err() {
                return Err(ReadFault::Memory);
            }
            match self.fill() {
                Ok(()) => {}
                Err(DeviceFault) => return Err(ReadFault::Device),
            }
            match ahead.extend_from_slice(self.part()) {
                Ok(()) => {}
                Err(AllocError) => unreachable!(),
            }
            let count = self.part().len() as u64;
            self.skip(count);
        }
        Ok(())
    }

    /// Reads on, up to the first read that gives bytes of a packet of another number, or of none.
    /// What is read before counts as done.
    ///
    /// `CutOff`: the input ended before. `TooManyReads`: as many reads were made as it may make.
    /// `Device`: a read failed. Then all that was read counts as done.
    pub(crate) fn read_past(&mut self, number: u64) -> Result<Passed, ReadFault>
        requires drained { part_of self.old ≡ [] }
        requires held { self.old.held ≡ 0 }
        ensures past { (r : ReadsPast T.known R.left R.calls R.packet number self.old self.new) ×
            PastAnswers T.known R.left R.calls R.packet number self.old self.new r result }
        ensures of_one { (all : Packets) → HasPackets R.packets R.packet all self.old →
            AreOfNumber all number (read_of self.old) (done_of self.new) }
        ensures failed { DeviceCounts (R.failures (source_of self.old))
            (R.failures (source_of self.new)) result }
        ensures same_reference { R.reference (source_of self.new) ≡
            R.reference (source_of self.old) }
        ensures packets { KeepsPackets R.packets R.packet self.old self.new }
    {
        'reading: loop {
            if self.ended {
                return Ok(Passed::CutOff);
            }
            if self.reads >= self.most_reads {
                return Err(ReadFault::TooManyReads);
            }
            match self.fill() {
                Ok(()) => {}
                Err(DeviceFault) => return Err(ReadFault::Device),
            }
            let count = self.part().len() as u64;
            if count > 0 && is_other(number, self.packet()) {
                self.stopped = None;
                return Ok(Passed::Over);
            }
            self.skip(count);
        }
    }

    /// These bytes, which counted as done, are what is left of the buffer.
    pub(crate) fn stand_before(&mut self, bytes: Vec<u8, A>)
        requires counted { length bytes.items ≤ done_of self.old }
        requires drained { part_of self.old ≡ [] }
        ensures { StandsBefore bytes.items self.old self.new }
    {
        let count = bytes.len();
        self.put = Some(bytes);
        self.done -= count as u64;
        self.start = 0;
        self.end = count;
    }

    /// The packet of the bytes that were read last, if they were of one.
    pub(crate) fn packet(&self) -> Option<Packet>
        ensures { result ≡ R.packet (source_of self.now) }
    {
        Source::packet(&self.source)
    }

    /// What is left of the buffer.
    pub(crate) fn part(&self) -> &[u8]
        ensures { result.now ≡ part_of self.now }
    {
        self.bytes(self.start, self.end)
    }

    /// The bytes of the buffer, or those that were put in their place, from `start` up to `end`.
    pub(crate) fn bytes(&self, start: usize, end: usize) -> &[u8]
        requires in_order { start ≤ end }
        requires within { end ≤ length (room_of self.now) }
        ensures { result.now ≡ slice_range (room_of self.now) start end }
    {
        bytes_between(&self.put, &self.buffer, start, end)
    }

    // It returns the fault from then on.
    fn stop(&mut self, fault: ReadFault)
        requires { is_lasting (Some fault) ≡ true }
        ensures stops { Stops fault self.old self.new }
        ensures unread { ReadsNothing T.known self.old self.new }
    {
        self.stopped = Some(fault);
    }

    /// Passes over so many bytes of what is left of the buffer.
    pub(crate) fn skip(&mut self, count: u64)
        requires { count ≤ length (part_of self.old) }
        ensures drops { Drops count self.old self.new }
        ensures unread { ReadsNothing T.known self.old self.new }
    {
        self.start += count as usize;
        self.done += count;
    }

    // What the taker makes of what is left of the buffer. If no message ends there, it takes all of
    // that.
    fn take_kept(&mut self) -> Result<Option<T::Given>, ReadFault>
        requires { stopped_of self.old ≡ None }
        ensures takes { (w : List ℕ) → Keeps T.known self.old w →
            KeptAnswers T.known w self.old self.new result }
        ensures takes_all { TakesAll self.new result }
        ensures unread { ReadsNothing T.known self.old self.new }
        ensures no_device { DeviceCounts (R.failures (source_of self.old))
            (R.failures (source_of self.new)) result }
    {
        let piece = bytes_between(&self.put, &self.buffer, self.start, self.end);
        let mut given = None;
        let count = match self.taker.take_piece(self.held, piece, &mut given) {
            Ok(count) => count,
            Err(StreamFault::Memory) => return Err(ReadFault::Memory),
            Err(StreamFault::Format(fault)) => {
                self.stopped = Some(ReadFault::Format(fault));
                return Err(ReadFault::Format(fault));
            }
        };
        if given.is_none() {
            self.held += piece.len() as u64;
            self.start = self.end;
            return Ok(None);
        }
        self.start += count;
        self.done += self.held + count as u64;
        self.held = 0;
        Ok(given)
    }

    /// One more read, into the buffer, which has nothing left.
    ///
    /// `DeviceFault`: the read failed.
    pub(crate) fn fill(&mut self) -> Result<(), DeviceFault>
        requires drained { part_of self.old ≡ [] }
        requires more { reads_of self.old < most_reads_of self.old }
        ensures fills { Fills R.left self.old self.new result }
        ensures calls { Calls R.calls self.old self.new }
        ensures failed { ReadCounts (R.failures (source_of self.old))
            (R.failures (source_of self.new)) result }
        ensures same_reference { R.reference (source_of self.new) ≡
            R.reference (source_of self.old) }
        ensures packets { KeepsPackets R.packets R.packet self.old self.new }
    {
        self.reads += 1;
        self.start = 0;
        self.end = 0;
        self.put = None;
        let count = self.buffer.read_from(&mut self.source)?;
        self.end = count;
        self.ended = count == 0;
        self.packed = is_packed(self.packed, Source::packet(&self.source));
        Ok(())
    }
}

// Whether a read gave bytes of a packet, after one more, whose bytes are of this one.
fn is_packed(packed: bool, packet: Option<Packet>) -> bool
    ensures { result ≡ is_packed packed packet }
{
    packed || packet.is_some()
}

// Whether bytes are of a packet of another number, or of none.
fn is_other(number: u64, packet: Option<Packet>) -> bool
    ensures other { result ≡ true → IsOther number packet }
    ensures same { result ≡ false → number_of packet ≡ Some number }
{
    match packet {
        Some(packet) => packet.number != number,
        None => true,
    }
}

// Bytes of a buffer, or those that were put in their place, from `start` up to `end`.
fn bytes_between<'a, B: Buffer, A: Allocator>(
    put: &'a Option<Vec<u8, A>>,
    buffer: &'a B,
    start: usize,
    end: usize,
) -> &'a [u8]
    requires in_order { start ≤ end }
    requires within { end ≤ length (put_or put.now (B.room.bytes buffer.now)) }
    ensures { result.now ≡ slice_range (put_or put.now (B.room.bytes buffer.now)) start end }
{
    match put {
        Some(bytes) => &bytes.as_slice()[start..end],
        None => buffer.part(start, end),
    }
}
