//! Messages from a source, built.
ghost use Rattle.std.specs.Prelude.{◌≡◌, ◌≤◌, ◌^◌, ◌++◌, length, None, Some};

use crate::buffer::Small;
use crate::cutter::Cutter;
use crate::read_fault::ReadFault;
use crate::reader::Reader;
use crate::reads::MOST_READS;
use dbus_device::Source;
use dbus_message_model::Message;
use dbus_value_model::{Limits, Order};
use std::alloc::{Allocator, Global};

/// Reads messages from a source, one after another, by a buffer of 4,096 bytes inside it.
///
/// It keeps the bytes that it read and did not give in a message yet: at most those of one message
/// and one buffer. The limits of its messages, and the number of reads that it makes at most in its
/// life, are those that it was made with.
#[derive(Drop)]
pub struct MessageReader<R, A: Allocator = Global> {
    // Its cutter holds the bytes of the message under way that came by earlier reads.
    reader: Reader<R, Cutter<A>, Small, A>,
    ghost unfaulted: { reader.stopped ≡ None → reader.taker.fault ≡ None },
    ghost held_counted: { reader.stopped ≡ None → reader.held ≡ length reader.taker.held },
}

impl<R: Source, A: Allocator + Copy> MessageReader<R, A> {
    ghost use Rattle.dbus_value_model.specs.Specification.{specification};
    ghost use Rattle.dbus_stream.specs.declared.read_fault.ReadFault.{ReadFault};
    ghost use Rattle.dbus_stream.specs.MessageReaders.{kept, source_of, done_of, stopped_of, IsNewReader, KeepsPackets, Reads, ReadsNothing, NextAnswers, KeptAnswers};
    ghost use Rattle.dbus_stream.specs.Next.{DeviceCounts};

    /// A reader as [`MessageReader::within`] makes it, of at most 2^32 reads and under the limits
    /// of the specification.
    pub fn new(alloc: A, source: R) -> Self
        ensures { IsNewReader source (2 ^ 32) specification result }
    {
        MessageReader::with_reads(alloc, source, MOST_READS)
    }

    /// A reader as [`MessageReader::within`] makes it, under the limits of the specification.
    pub fn with_reads(alloc: A, source: R, reads: u64) -> Self
        requires { reads ≤ 2 ^ 32 }
        ensures { IsNewReader source reads specification result }
    {
        MessageReader::within(alloc, source, reads, Limits::specification())
    }

    /// A reader of what the source gives, which has read nothing yet. It makes at most `reads`
    /// reads in its life, which are at most 2^32, the one that finds the end of the input among
    /// them, and returns messages that keep these limits. What it keeps is allocated by `alloc`.
    pub fn within(alloc: A, source: R, reads: u64, limits: Limits) -> Self
        requires { reads ≤ 2 ^ 32 }
        ensures { IsNewReader source reads limits result }
    {
        MessageReader {
            reader: Reader::over(
                source,
                Cutter::within(alloc, limits),
                Small { bytes: [0; 4_096] },
                reads,
            ),
        }
    }

    /// Gives the source back. Bytes that are kept are lost.
    pub fn into_source(self) -> R
        ensures { result ≡ source_of self }
    {
        self.reader.into_source()
    }

    /// The number of bytes of all the messages that it returned.
    pub fn done(&self) -> u64
        ensures { result ≡ done_of self.now }
    {
        self.reader.done
    }

    /// The next message with its byte order, or None at the end of the input. Bytes after the
    /// message are kept. After the end each call returns the same, without reading. A read is made
    /// only if no whole message is kept, so a message is given at the read that ends it.
    ///
    /// `Format`: the bytes begin with no message within the limits; or the input ended within one,
    /// and then the reason is `Truncated`, at their number. `TooManyReads`: as many reads were made
    /// as it may make, none of them found the end, and no whole message is kept. Both stay for
    /// good. `Device`: a read failed in this call. `Memory`: an allocation failed. After these two
    /// all that was read is kept, and the call may be made again.
    ///
    /// ```rust
    /// use dbus_stream::{FromRead, MessageReader};
    ///
    /// let mut reader = MessageReader::new(alloc, FromRead::new(rt.stdin()));
    /// for _ in 0..u64::MAX {
    ///     let Some((_, message)) = reader.next()? else {
    ///         break;
    ///     };
    ///     println!(rt; "serial {}", message.parts().serial)?;
    /// }
    /// ```
    pub fn next(&mut self) -> Result<Option<(Order, Message<A>)>, ReadFault>
        // Of what was kept and then read it gives what that begins with.
        ensures read { (r : Reads R.left R.calls self.old self.new) ×
            (stopped_of self.old ≡ None →
            NextAnswers (kept self.old ++ r.bytes) self.old self.new result) }
        ensures failed { DeviceCounts (R.failures (source_of self.old))
            (R.failures (source_of self.new)) result }
        ensures same_reference { R.reference (source_of self.new) ≡
            R.reference (source_of self.old) }
        ensures packets { KeepsPackets R.packets R.packet self.old self.new }
        ensures few { done_of self.new ≤ 2 ^ 44 }
        // A fault of the bytes stays for good, and so does the number of reads.
        ensures stays { (f : ReadFault) → stopped_of self.old ≡ Some f →
            (result ≡ Err f) × (self.new ≡ self.old) }
    {
        if let Some(fault) = self.reader.stopped {
            return Err(fault);
        }
        self.reader.next()
    }

    /// The next message with its byte order out of what was read already: no read is made. Bytes
    /// after the message are kept. None if what is kept begins with no whole message; then `next`
    /// goes on from there and reads more.
    ///
    /// `Format`: the bytes begin with no message within the limits. It stays for good, and so does
    /// a fault that `next` returns for good. `Memory`: an allocation failed. Then all that was read
    /// is kept, and the call may be made again.
    pub fn next_kept(&mut self) -> Result<Option<(Order, Message<A>)>, ReadFault>
        // It gives what the bytes that are kept begin with.
        ensures kept { stopped_of self.old ≡ None → KeptAnswers self.old self.new result }
        ensures unread { ReadsNothing self.old self.new }
        ensures failed { DeviceCounts (R.failures (source_of self.old))
            (R.failures (source_of self.new)) result }
        ensures few { done_of self.new ≤ 2 ^ 44 }
        // A fault of the bytes stays for good, and so does the number of reads.
        ensures stays { (f : ReadFault) → stopped_of self.old ≡ Some f →
            (result ≡ Err f) × (self.new ≡ self.old) }
    {
        if let Some(fault) = self.reader.stopped {
            return Err(fault);
        }
        self.reader.next_kept()
    }
}
