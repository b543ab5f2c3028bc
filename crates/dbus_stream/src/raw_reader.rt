//! Raw messages from a source.
ghost use Rattle.std.specs.Prelude.{◌≡◌, ◌≤◌, ◌<◌, ◌-◌, ◌^◌, ◌++◌, [], length, slice_range, true, List, ℕ};
ghost use Rattle.dbus_stream.specs.Gathering.{under_way};
ghost use Rattle.dbus_stream.specs.Lasting.{is_refusal};
ghost use Rattle.dbus_stream.specs.Dropping.{AreInside, HasDropped};
ghost use Rattle.dbus_stream.specs.Rooms.{put_or};

use crate::buffer::Large;
use crate::gatherer::Gatherer;
use crate::read_fault::ReadFault;
use crate::reader::Reader;
use crate::reads::MOST_READS;
use crate::refused::Refused;
use dbus_device::{Packet, Source};
use dbus_validate::Validated;
use dbus_value_model::Limits;
use std::alloc::{Allocator, Global};

/// Reads messages from a source, one after another, by a buffer of 262,144 bytes inside it, and
/// lends or copies their bytes.
///
/// It accepts and rejects what a [`crate::MessageReader`] does, and builds no message. A message
/// that lies whole in the buffer is validated and lent there; any other is checked as it comes, and
/// its bytes are gathered. It keeps the bytes that it read and did not give yet: at most those of
/// one message and one buffer, and those that [`RawReader::go_on`] looked ahead at. The limits of
/// its messages, and the most reads that it makes in its life, are those that it was made with.
#[derive(Drop)]
pub struct RawReader<R, A: Allocator = Global> {
    pub(crate) alloc: A,
    // Its taker holds the bytes of the message under way that came by earlier reads, or those of
    // the one that is lent.
    pub(crate) reader: Reader<R, Gatherer<A>, Large, A>,
    // What was dropped of a refused message, by a call that did not come to its end.
    pub(crate) refused: Refused,
    // How many bytes count as looked at to go on behind others that are no message.
    pub(crate) looked: u64,
    ghost looked_few: { looked ≤ 2 ^ 55 },
    ghost lent_before: { reader.taker.lent ≤ reader.start },
    ghost lent_counted: { reader.taker.lent ≤ reader.done },
    ghost lent_alone: { 0 < reader.taker.lent → reader.taker.held ≡ [] },
    ghost held_counted: { reader.held ≡ length (under_way reader.taker.whole reader.taker.held) },
    ghost dropped_refused: { 0 < refused.dropped → is_refusal reader.stopped ≡ true },
    ghost dropped_alone: { 0 < refused.dropped → under_way reader.taker.whole reader.taker.held ++
        slice_range (put_or reader.put reader.buffer.bytes) reader.start reader.end ≡ [] },
    ghost dropped_counted: { refused.dropped ≤ reader.done },
    ghost dropped_inside: { (gone : List ℕ) → HasDropped refused gone →
        AreInside reader.taker.limits gone },
}

impl<R: Source, A: Allocator + Copy> RawReader<R, A> {
    ghost use Rattle.std.specs.Prelude.{None, Some};
    ghost use Rattle.dbus_value_model.specs.Specification.{specification};
    ghost use Rattle.dbus_stream.specs.declared.read_fault.ReadFault.{ReadFault};
    ghost use Rattle.dbus_stream.specs.Next.{DeviceCounts};
    ghost use Rattle.dbus_stream.specs.RawReading.{kept, lent_of, looked_of, source_of, done_of, stopped_of, IsNewReader, Advances, CopyAnswers, KeepsPackets, KeptAnswers, Reads, ReadsNothing, GivesLent};

    /// A reader as [`RawReader::within`] makes it, of at most 2^32 reads and under the limits of
    /// the specification.
    pub fn new(alloc: A, source: R) -> Self
        ensures { IsNewReader source (2 ^ 32) specification result }
    {
        RawReader::with_reads(alloc, source, MOST_READS)
    }

    /// A reader as [`RawReader::within`] makes it, under the limits of the specification.
    pub fn with_reads(alloc: A, source: R, reads: u64) -> Self
        requires { reads ≤ 2 ^ 32 }
        ensures { IsNewReader source reads specification result }
    {
        RawReader::within(alloc, source, reads, Limits::specification())
    }

    /// A reader of what the source gives, which has read nothing yet. It makes at most `reads`
    /// reads in its life, which are at most 2^32, the one that finds the end of the input among
    /// them, and returns messages that keep these limits. What it keeps outside its buffer, and
    /// each copy, is allocated by `alloc`.
    pub fn within(alloc: A, source: R, reads: u64, limits: Limits) -> Self
        requires { reads ≤ 2 ^ 32 }
        ensures { IsNewReader source reads limits result }
    {
        RawReader {
            alloc,
            reader: Reader::over(
                source,
                Gatherer::within(alloc, limits),
                Large {
                    bytes: [0; 262_144],
                },
                reads,
            ),
            refused: Refused::nothing(),
            looked: 0,
        }
    }

    /// Gives the source back. Bytes that are kept are lost.
    pub fn into_source(self) -> R
        ensures { result ≡ source_of self }
    {
        self.reader.into_source()
    }

    /// The number of bytes of all the messages that it returned, and of all that
    /// [`RawReader::pass_over`], [`RawReader::go_on`], [`RawReader::resync`] and
    /// [`RawReader::next_packet`] dropped.
    pub fn done(&self) -> u64
        ensures { result ≡ done_of self.now }
    {
        self.reader.done
    }

    /// The packet of the bytes that were read last, if the source says that they were of one. It is
    /// that of the last byte of the message that the last call gave; and after `Format` that of the
    /// byte that shows the fault, or of the last byte of an input that ends within a message.
    pub fn packet(&self) -> Option<Packet>
        ensures { result ≡ R.packet (source_of self.now) }
    {
        self.reader.packet()
    }

    /// The bytes of the message that the last call gave, if that was [`RawReader::advance`] or
    /// [`RawReader::advance_kept`]; none if it gave no message.
    pub fn message(&self) -> &[u8]
        ensures { result.now ≡ lent_of self.now }
    {
        if self.reader.taker.is_whole() {
            return self.reader.taker.bytes();
        }
        let start = self.reader.start;
        self.reader.bytes(start - self.reader.taker.lent(), start)
    }

    /// The bytes that were read and not given yet, one slice after the other: those of the message
    /// under way that came by earlier reads, and the others. After `Format` they begin with the
    /// bytes that are no message.
    pub fn kept(&self) -> (&[u8], &[u8])
        ensures { result.0.now ++ result.1.now ≡ kept self.now }
    {
        (self.reader.taker.under_way(), self.reader.part())
    }

    /// Goes on to the next message, and returns what is validated of its bytes, which
    /// [`RawReader::message`] lends then; None at the end of the input. Bytes after the message are
    /// kept. After the end each call returns the same, without reading. A read is made only if no
    /// whole message is kept, so a message is given at the read that ends it. It allocates only for
    /// a message that does not lie whole in the buffer. D-Bus Specification, "Message Protocol".
    ///
    /// `Format`: the bytes begin with no message within the limits; or the input ended within one,
    /// and then the reason is `Truncated`, at their number. `TooManyReads`: as many reads were made
    /// as it may make, none of them found the end, and no whole message is kept. Both stay for
    /// good. `Device`: a read failed in this call. `Memory`: an allocation failed. After these two
    /// all that was read is kept, and the call may be made again.
    ///
    /// ```rust
    /// use dbus_message::message_type;
    /// use dbus_stream::{FromRead, RawReader};
    /// use std::io::Write;
    ///
    /// let mut reader = RawReader::new(alloc, FromRead::new(rt.stdin()));
    /// for _ in 0..u64::MAX {
    ///     let Some(validated) = reader.advance()? else {
    ///         break;
    ///     };
    ///     if validated.kind == message_type::SIGNAL {
    ///         rt.stdout().write_all(reader.message())?;
    ///     }
    /// }
    /// ```
    pub fn advance(&mut self) -> Result<Option<Validated>, ReadFault>
        // Of what was kept and then read it lends the message that that begins with, and validates
        // it.
        ensures read { (r : Reads R.left R.calls self.old self.new) ×
            (stopped_of self.old ≡ None →
            Advances (kept self.old ++ r.bytes) self.old self.new result) }
        ensures failed { DeviceCounts (R.failures (source_of self.old))
            (R.failures (source_of self.new)) result }
        ensures same_reference { R.reference (source_of self.new) ≡
            R.reference (source_of self.old) }
        ensures packets { KeepsPackets R.packets R.packet self.old self.new }
        ensures looked { looked_of self.new ≡ looked_of self.old }
        ensures few { done_of self.new ≤ 2 ^ 50 }
        // A fault of the bytes stays for good, and so does the number of reads.
        ensures stays { (f : ReadFault) → stopped_of self.old ≡ Some f →
            (result ≡ Err f) × (self.new ≡ self.old) }
    {
        if let Some(fault) = self.reader.stopped {
            return Err(fault);
        }
        self.reader.next()
    }

    /// Goes on to the next message out of what was read already: no read is made. Bytes after the
    /// message are kept. None if what is kept begins with no whole message; then `advance` goes on
    /// from there and reads more.
    ///
    /// `Format`: the bytes begin with no message within the limits. It stays for good, and so does
    /// a fault that `advance` returns for good. `Memory`: an allocation failed. Then all that was
    /// read is kept, and the call may be made again.
    pub fn advance_kept(&mut self) -> Result<Option<Validated>, ReadFault>
        // It lends the message that the bytes that are kept begin with, and validates it.
        ensures kept { stopped_of self.old ≡ None → KeptAnswers self.old self.new result }
        ensures unread { ReadsNothing self.old self.new }
        ensures failed { DeviceCounts (R.failures (source_of self.old))
            (R.failures (source_of self.new)) result }
        ensures looked { looked_of self.new ≡ looked_of self.old }
        ensures few { done_of self.new ≤ 2 ^ 50 }
        // A fault of the bytes stays for good, and so does the number of reads.
        ensures stays { (f : ReadFault) → stopped_of self.old ≡ Some f →
            (result ≡ Err f) × (self.new ≡ self.old) }
    {
        if let Some(fault) = self.reader.stopped {
            return Err(fault);
        }
        self.reader.next_kept()
    }

    /// The bytes of the next message, or None at the end of the input: of what
    /// [`RawReader::advance`] lends, a copy, or those that were gathered. Then no message is lent.
    /// Faults are those of `advance`, and `Memory` also if the copy could not be allocated: then
    /// the message is kept, and the same call returns it again.
    pub fn next(&mut self) -> Result<Option<Vec<u8, A>>, ReadFault>
        // Of what was kept and then read it gives the bytes of the message that that begins with.
        ensures read { (r : Reads R.left R.calls self.old self.new) ×
            (stopped_of self.old ≡ None →
            CopyAnswers (kept self.old ++ r.bytes) self.old self.new result) }
        ensures failed { DeviceCounts (R.failures (source_of self.old))
            (R.failures (source_of self.new)) result }
        ensures same_reference { R.reference (source_of self.new) ≡
            R.reference (source_of self.old) }
        ensures packets { KeepsPackets R.packets R.packet self.old self.new }
        ensures looked { looked_of self.new ≡ looked_of self.old }
        ensures few { done_of self.new ≤ 2 ^ 50 }
        // A fault of the bytes stays for good, and so does the number of reads.
        ensures stays { (f : ReadFault) → stopped_of self.old ≡ Some f →
            (result ≡ Err f) × (self.new ≡ self.old) }
    {
        match self.advance() {
            Ok(Some(_validated)) => self.give(),
            Ok(None) => Ok(None),
            Err(fault) => Err(fault),
        }
    }

    // The bytes of the message that is lent. If the memory is not there, the message is kept again.
    fn give(&mut self) -> Result<Option<Vec<u8, A>>, ReadFault>
        requires { stopped_of self.old ≡ None }
        ensures gives { GivesLent self.old self.new result }
        ensures unread { ReadsNothing self.old self.new }
        ensures looked { looked_of self.new ≡ looked_of self.old }
    {
        if self.reader.taker.is_whole() {
            return Ok(Some(self.reader.taker.give()));
        }
        let lent = self.reader.taker.lent();
        let start = self.reader.start;
        let mut bytes = Vec::new(self.alloc);
        let is_copied = bytes
            .extend_from_slice(self.reader.bytes(start - lent, start))
            .is_ok();
        self.reader.taker.begin();
        if is_copied {
            return Ok(Some(bytes));
        }
        self.reader.done -= lent as u64;
        self.reader.start -= lent;
        Err(ReadFault::Memory)
    }
}
