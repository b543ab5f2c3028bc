//! How a reader of raw messages goes on behind bytes that are none.
ghost use Rattle.std.specs.Prelude.{◌≡◌, ◌⊎◌, ◌≤◌, ◌<◌, ◌*◌, ◌^◌, ◌++◌, length, true, false, List, ℕ, IfErr, IfOk, IfSome};
ghost use Rattle.dbus_stream.specs.Lasting.{is_refusal, is_truncated};

use crate::effort::{checked, counted, effort_of};
use crate::passed::Passed;
use crate::raw_reader::RawReader;
use crate::read_fault::ReadFault;
use crate::refused::{Refused, Size};
use crate::seeking::{Behind, seek_in};
use dbus_device::Source;
use dbus_resync::Found;
use dbus_value_model::{Fault, Reason};
use std::alloc::{AllocError, Allocator};

impl<R: Source, A: Allocator + Copy> RawReader<R, A> {
    ghost use Rattle.std.specs.Prelude.{None, Some};
    ghost use Rattle.dbus_stream.specs.LookingAhead.{Meets};
    ghost use Rattle.dbus_stream.specs.GoingOn.{effort_in, GoesBy, GoesOn, HasFault, Looks, LooksAtFew, ReadsToGoOn, Resyncs};
    ghost use Rattle.dbus_device.specs.Packets.{Packets};
    ghost use Rattle.dbus_stream.specs.Passing.{Passing, WasDropped};
    ghost use Rattle.dbus_stream.specs.PassingPackets.{AreOfNumber, IsBeforeOther, PassesPacket};
    ghost use Rattle.dbus_stream.specs.Packed.{number_of};
    ghost use Rattle.dbus_stream.specs.Reading.{part_of};
    ghost use Rattle.dbus_stream.specs.StatedSizes.{StatesNone, StatesSize};
    ghost use Rattle.dbus_stream.specs.declared.read_fault.ReadFault.{ReadFault};
    ghost use Rattle.dbus_stream.specs.Next.{DeviceCounts};
    ghost use Rattle.dbus_stream.specs.RawReading.{limits_of, kept, looked_of, source_of, done_of, read_of, is_ended, packed_of, stopped_of, HasPackets, KeepsPackets};

    /// Passes over the message that was refused, by the size that its first 16 bytes state,
    /// whatever else they say: by its order byte and the lengths of its fields and its body. If
    /// fewer than 16 are there, more are read. If it returns `Over`, the fault is gone, and the
    /// next call goes on with what follows the message. Its bytes are dropped as they are read, and
    /// a read is made only if more of them are wanted; [`RawReader::done`] counts them. D-Bus
    /// Specification, "Message Format".
    ///
    /// `Not`, and nothing is changed, if no message was refused (`Truncated` is no such fault), or
    /// if it states no size within the limits, whatever follows: its order byte is neither `l` nor
    /// `B`, or its 16 bytes are there.
    ///
    /// `CutOff`: the input ends within it. `Not` after a read: its first 16 bytes, of which fewer
    /// were there, state no size. `TooManyReads`: as many reads were made as it may make. `Device`: a
    /// read failed. Then all that was kept and read is dropped, and the fault stays:
    /// [`RawReader::advance`] and `next` return it and change nothing. The same call made again
    /// drops the bytes that are left of the message, and no others.
    ///
    /// ```rust
    /// use dbus_stream::{FromRead, Passed, RawReader, ReadFault};
    ///
    /// let mut reader = RawReader::new(alloc, FromRead::new(rt.stdin()));
    /// for _ in 0..u64::MAX {
    ///     match reader.advance() {
    ///         Ok(Some(validated)) => println!(rt; "serial {}", validated.serial)?,
    ///         Ok(None) => break,
    ///         Err(ReadFault::Format(fault)) => {
    ///             println!(rt; "refused at {}: {}", reader.done() + fault.at, fault.reason)?;
    ///             if reader.pass_over()? != Passed::Over {
    ///                 break;
    ///             }
    ///         }
    ///         Err(fault) => return Err(fault.into()),
    ///     }
    /// }
    /// ```
    pub fn pass_over(&mut self) -> Result<Passed, ReadFault>
        // Of what was kept and then read it drops so many bytes as the refused message states, or
        // as are left of it.
        ensures passes { Passing R.left R.calls self.old self.new result }
        ensures failed { DeviceCounts (R.failures (source_of self.old))
            (R.failures (source_of self.new)) result }
        ensures same_reference { R.reference (source_of self.new) ≡
            R.reference (source_of self.old) }
        ensures packets { KeepsPackets R.packets R.packet self.old self.new }
        ensures looked { looked_of self.new ≡ looked_of self.old }
        ensures few { done_of self.new ≤ 2 ^ 50 }
    {
        if !is_refusal(self.reader.stopped) {
            return Ok(Passed::Not);
        }
        if self.states_none() {
            return Ok(Passed::Not);
        }
        self.refused.drop_bytes(self.reader.taker.under_way());
        self.reader.taker.let_go();
        let limits = self.reader.taker.limits();
        self.reader.pass_over(limits, &mut self.refused)
    }

    /// Goes on behind bytes that are no message, or those of an input that ends within one: at the
    /// least offset at which a whole message within the limits begins. It is looked for among the
    /// bytes that were kept and those that follow, as many in all as the window has, by
    /// [`dbus_resync::first_message`]. If fewer are kept, or fewer than 16, more are read, up to
    /// twice as many and one buffer. If a call of [`RawReader::pass_over`] has dropped bytes of the
    /// message, it is looked for behind them. It holds these bytes until they are given. D-Bus
    /// Specification, "Message Format".
    ///
    /// The effort is 16 bytes for each of the window. What calls have looked at before counts, and
    /// what is looked at to find the fault: by as much as that is over 16 bytes for each that
    /// [`RawReader::done`] counts, the effort is less. So the time is linear in the input.
    ///
    /// `At`: the next call gives that message; the bytes before it are dropped, and
    /// [`RawReader::done`] counts them. `Nowhere`: none begins there. `Spent`: nor does one before
    /// the effort is spent. Then all that was kept and read is kept, and the fault stays. So it is
    /// after an error.
    ///
    /// `TooManyReads`: more is wanted, and as many reads were made as it may make. `Device`: a read
    /// failed. `Memory`: an allocation failed; none is made if all that is kept is in the buffer and
    /// nothing is read. `Format`: the fault that it met, since a read gave bytes of a packet, and it
    /// does not note of which packets the bytes are that it holds: [`RawReader::next_packet`] goes
    /// on there.
    ///
    /// ```rust
    /// use dbus_stream::{Found, FromRead, RawReader, ReadFault};
    ///
    /// let mut reader = RawReader::new(alloc, FromRead::new(rt.stdin()));
    /// for _ in 0..u64::MAX {
    ///     match reader.advance() {
    ///         Ok(Some(validated)) => println!(rt; "serial {}", validated.serial)?,
    ///         Ok(None) => break,
    ///         Err(ReadFault::Format(_)) => match reader.go_on(1_048_576)? {
    ///             Found::At(lost) => println!(rt; "{lost} bytes lost")?,
    ///             _ => break,
    ///         },
    ///         Err(fault) => return Err(fault.into()),
    ///     }
    /// }
    /// ```
    pub fn go_on(&mut self, window: u32) -> Result<Found, ReadFault>
        requires { HasFault (stopped_of self.old) }
        // Of what was kept and then read it drops the bytes before the next message.
        ensures goes { (r : ReadsToGoOn false window R.left R.calls self.old self.new) ×
            GoesOn (kept self.old ++ r.bytes) self.old self.new window result }
        ensures failed { DeviceCounts (R.failures (source_of self.old))
            (R.failures (source_of self.new)) result }
        ensures same_reference { R.reference (source_of self.new) ≡
            R.reference (source_of self.old) }
        ensures packets { IfOk result (λ _. KeepsPackets R.packets R.packet self.old self.new) }
        ensures unpacked { IfOk result (λ _. packed_of self.new ≡ false) }
        // What was looked at counts.
        ensures looked { LooksAtFew window self.old → LooksAtFew window self.new }
        ensures unlooked { IfErr result (λ _. looked_of self.new ≡ looked_of self.old) }
        ensures few { done_of self.new ≤ 2 ^ 50 }
    {
        self.seek(window, false)
    }

    /// Goes on as [`RawReader::go_on`] does, but first by the size that the refused message states,
    /// as [`RawReader::pass_over`] reads it: behind so many bytes, if a whole message within the
    /// limits begins there in the window, or the input ends there in the window, or what begins
    /// there states that it goes past the window; and else at the least offset at which a message
    /// begins. So what looks like one inside a refused one is not taken for one. Once that whole
    /// message is there, no more is read. D-Bus Specification, "Message Format".
    ///
    /// ```rust
    /// use dbus_stream::{Found, FromRead, RawReader, ReadFault};
    ///
    /// let mut reader = RawReader::new(alloc, FromRead::new(rt.stdin()));
    /// for _ in 0..u64::MAX {
    ///     match reader.advance() {
    ///         Ok(Some(validated)) => println!(rt; "serial {}", validated.serial)?,
    ///         Ok(None) => break,
    ///         Err(ReadFault::Format(_)) => match reader.resync(1_048_576)? {
    ///             Found::At(lost) => println!(rt; "{lost} bytes lost")?,
    ///             _ => break,
    ///         },
    ///         Err(fault) => return Err(fault.into()),
    ///     }
    /// }
    /// ```
    pub fn resync(&mut self, window: u32) -> Result<Found, ReadFault>
        requires { HasFault (stopped_of self.old) }
        // Of what was kept and then read it drops the bytes before the next message.
        ensures goes { (r : ReadsToGoOn true window R.left R.calls self.old self.new) ×
            Resyncs (kept self.old ++ r.bytes) self.old self.new window result }
        ensures failed { DeviceCounts (R.failures (source_of self.old))
            (R.failures (source_of self.new)) result }
        ensures same_reference { R.reference (source_of self.new) ≡
            R.reference (source_of self.old) }
        ensures packets { IfOk result (λ _. KeepsPackets R.packets R.packet self.old self.new) }
        ensures unpacked { IfOk result (λ _. packed_of self.new ≡ false) }
        // What was looked at counts.
        ensures looked { LooksAtFew window self.old → LooksAtFew window self.new }
        ensures unlooked { IfErr result (λ _. looked_of self.new ≡ looked_of self.old) }
        ensures few { done_of self.new ≤ 2 ^ 50 }
    {
        self.seek(window, true)
    }

    /// Passes over bytes that are no message, or those of an input that ends within one, to the
    /// next packet, where messages begin: all that is kept is dropped, and what is read, up to the
    /// first read that gives bytes of a packet of another number than that of the last read, or of
    /// none. If it returns `Over`, the fault is gone, and the next call goes on with these bytes.
    /// [`RawReader::done`] counts the bytes that are dropped.
    ///
    /// `Not`, and nothing is changed, if the last read was of no packet. `CutOff`: the input ends
    /// before. `TooManyReads`: as many reads were made as it may make. `Device`: a read failed. Then
    /// all that was kept and read is dropped, and the fault stays.
    ///
    /// ```rust
    /// use dbus_stream::{FromRead, Passed, RawReader, ReadFault};
    ///
    /// let mut reader = RawReader::new(alloc, FromRead::new(rt.stdin()));
    /// for _ in 0..u64::MAX {
    ///     match reader.advance() {
    ///         Ok(Some(validated)) => println!(rt; "serial {}", validated.serial)?,
    ///         Ok(None) => break,
    ///         Err(ReadFault::Format(_)) => {
    ///             if reader.next_packet()? != Passed::Over {
    ///                 break;
    ///             }
    ///         }
    ///         Err(fault) => return Err(fault.into()),
    ///     }
    /// }
    /// ```
    pub fn next_packet(&mut self) -> Result<Passed, ReadFault>
        requires { HasFault (stopped_of self.old) }
        ensures passes { PassesPacket R.left R.calls R.packet self.old self.new result }
        // What it read and dropped is of the packet of the last read.
        ensures of_one { (all : Packets) (number : ℕ) → HasPackets R.packets R.packet all self.old →
            number_of (R.packet (source_of self.old)) ≡ Some number →
            AreOfNumber all number (read_of self.old) (done_of self.new) }
        // The byte that is next then is not.
        ensures next_other { (all : Packets) (number : ℕ) →
            HasPackets R.packets R.packet all self.old →
            number_of (R.packet (source_of self.old)) ≡ Some number →
            IsBeforeOther all number (done_of self.new) result }
        ensures failed { DeviceCounts (R.failures (source_of self.old))
            (R.failures (source_of self.new)) result }
        ensures same_reference { R.reference (source_of self.new) ≡
            R.reference (source_of self.old) }
        ensures packets { KeepsPackets R.packets R.packet self.old self.new }
        ensures looked { looked_of self.new ≡ looked_of self.old }
        ensures few { done_of self.new ≤ 2 ^ 50 }
    {
        let Some(packet) = self.packet() else {
            return Ok(Passed::Not);
        };
        self.refused = Refused::nothing();
        self.reader.taker.let_go();
        self.reader.drop_kept();
        self.reader.read_past(packet.number)
    }

    // Goes on where the search finds the next message among the bytes of the window.
    fn seek(&mut self, window: u32, by_size: bool) -> Result<Found, ReadFault>
        requires { HasFault (stopped_of self.old) }
        ensures goes { (r : ReadsToGoOn by_size window R.left R.calls self.old self.new) ×
            GoesBy (kept self.old ++ r.bytes) self.old self.new by_size window result }
        ensures failed { DeviceCounts (R.failures (source_of self.old))
            (R.failures (source_of self.new)) result }
        ensures same_reference { R.reference (source_of self.new) ≡
            R.reference (source_of self.old) }
        ensures packets { IfOk result (λ _. KeepsPackets R.packets R.packet self.old self.new) }
        ensures unpacked { IfOk result (λ _. packed_of self.new ≡ false) }
        // What was looked at counts.
        ensures looked { LooksAtFew window self.old → LooksAtFew window self.new }
        ensures unlooked { IfErr result (λ _. looked_of self.new ≡ looked_of self.old) }
        ensures few { done_of self.new ≤ 2 ^ 50 }
    {
        let Some(ReadFault::Format(met)) = self.reader.stopped else {
            unreachable!()
        };
        let width = window as usize;
        match self.look_ahead(window, by_size) {
            Ok(()) => {}
            Err(fault) => return Err(fault),
        }
        if self.reader.packed {
            return Err(ReadFault::Format(met));
        }
        let limits = self.reader.taker.limits();
        let done = self.reader.done;
        let at = checked(self.reader.stopped);
        let effort = effort_of(window, done, self.looked, at);
        let part = self.reader.part();
        let looked = width.min(part.len());
        let searched = seek_in(&part[..looked], limits, width, effort, by_size);
        self.looked = counted(window, done, self.looked, at, searched.looked as u64);
        match searched.found {
            Found::At(offset) => {
                self.reader.skip(offset as u64);
                self.reader.stopped = None;
                Ok(Found::At(offset))
            }
            Found::Nowhere => Ok(Found::Nowhere),
            Found::Spent => Ok(Found::Spent),
        }
    }

    // All that was kept is in the buffer then; and what is read, if these are fewer bytes than the
    // window has, or than state a size, and no message is met. If it is not, all is kept.
    fn look_ahead(&mut self, window: u32, by_size: bool) -> Result<(), ReadFault>
        ensures looks { (r : ReadsToGoOn by_size window R.left R.calls self.old self.new) ×
            Looks (kept self.old ++ r.bytes) self.old self.new by_size window result }
        ensures failed { DeviceCounts (R.failures (source_of self.old))
            (R.failures (source_of self.new)) result }
        ensures same_reference { R.reference (source_of self.new) ≡
            R.reference (source_of self.old) }
        ensures packets { packed_of self.new ≡ false →
            KeepsPackets R.packets R.packet self.old self.new }
        ensures looked { looked_of self.new ≡ looked_of self.old }
    {
        let many = (window as usize).max(16);
        let limits = self.reader.taker.limits();
        let behind = Behind {
            by_size,
            limits,
            window: window as usize,
        };
        if self.is_there(behind, many) {
            self.refused = Refused::nothing();
            self.reader.taker.let_go();
            return Ok(());
        }
        let mut ahead = match self.copy_kept() {
            Ok(ahead) => ahead,
            Err(AllocError) => return Err(ReadFault::Memory),
        };
        let far = far_enough(many, ahead.len());
        self.refused = Refused::nothing();
        self.reader.taker.let_go();
        self.reader.drop_kept();
        let looked = self.reader.read_ahead(behind, far, &mut ahead);
        self.reader.stand_before(ahead);
        looked
    }

    // Whether all that is kept is in the buffer, and so many bytes, or a message is met there, or
    // the input has ended.
    fn is_there(&self, behind: Behind, many: usize) -> bool
        ensures there { result ≡ true → (self.now.reader.held ≡ 0) ×
            (((many ≤ length (part_of self.now.reader)) ⊎ Meets behind (part_of self.now.reader)) ⊎
            (is_ended self.now ≡ true)) }
        ensures asks { result ≡ false →
            (length (part_of self.now.reader) < length (kept self.now)) ⊎
            ((length (kept self.now) < many) × (is_ended self.now ≡ false) ×
            (Meets behind (kept self.now) → ⊥)) }
    {
        if self.reader.held > 0 {
            return false;
        }
        let part = self.reader.part();
        self.reader.ended || many <= part.len() || behind.is_met(part, 0)
    }

    // The bytes that are kept.
    fn copy_kept(&self) -> Result<Vec<u8, A>, AllocError>
        ensures { IfOk result (λ bytes. bytes.items ≡ kept self.now) }
    {
        let mut bytes = Vec::new(self.alloc);
        bytes.extend_from_slice(self.reader.taker.under_way())?;
        bytes.extend_from_slice(self.reader.part())?;
        Ok(bytes)
    }

    /// The size that the bytes state that are kept, as [`RawReader::pass_over`] reads it: after
    /// `Format`, that of the refused message. None if fewer than 16 are kept, or they state none
    /// within the limits. D-Bus Specification, "Message Format".
    ///
    /// ```rust
    /// use dbus_stream::{FromRead, Passed, RawReader, ReadFault};
    ///
    /// let mut reader = RawReader::new(alloc, FromRead::new(rt.stdin()));
    /// for _ in 0..u64::MAX {
    ///     match reader.advance() {
    ///         Ok(Some(validated)) => println!(rt; "serial {}", validated.serial)?,
    ///         Ok(None) => break,
    ///         Err(ReadFault::Format(_)) => {
    ///             if let Some(size) = reader.stated_size() {
    ///                 println!(rt; "{size} bytes are passed over")?;
    ///             }
    ///             if reader.pass_over()? != Passed::Over {
    ///                 break;
    ///             }
    ///         }
    ///         Err(fault) => return Err(fault.into()),
    ///     }
    /// }
    /// ```
    pub fn stated_size(&self) -> Option<u64>
        ensures states { IfSome result (λ size.
            StatesSize (limits_of self.now) (kept self.now) size) }
        ensures none { result ≡ None → (size : ℕ) →
            StatesSize (limits_of self.now) (kept self.now) size → ⊥ }
    {
        let mut there = Refused::nothing();
        there.drop_bytes(self.reader.taker.under_way());
        there.drop_bytes(self.reader.part());
        there.stated(self.reader.taker.limits())
    }

    // Whether what is there of the refused message states no size, whatever follows.
    fn states_none(&self) -> bool
        ensures { result ≡ true → (gone : List ℕ) → WasDropped self.now gone →
            StatesNone (limits_of self.now) (gone ++ kept self.now) }
    {
        let mut there = self.refused;
        there.drop_bytes(self.reader.taker.under_way());
        there.drop_bytes(self.reader.part());
        matches!(there.size(self.reader.taker.limits()), Size::Unstated)
    }
}

// Whether bytes were met that are no message, and not the end of the input within one.
fn is_refusal(stopped: Option<ReadFault>) -> bool
    ensures { result ≡ is_refusal stopped }
{
    match stopped {
        Some(ReadFault::Format(fault)) => !is_truncated(fault),
        Some(ReadFault::Memory) => false,
        Some(ReadFault::Device) => false,
        Some(ReadFault::TooManyReads) => false,
        None => false,
    }
}

// Whether the input ended within a message.
fn is_truncated(fault: Fault) -> bool
    ensures { result ≡ is_truncated fault.reason }
{
    matches!(fault.reason, Reason::Truncated)
}

// How many bytes are to be there if so many are looked ahead at: twice as many; none, if they are
// there.
fn far_enough(many: usize, there: usize) -> usize
    requires { many ≤ 2 ^ 32 }
    ensures twice { there < many → result ≡ 2 * many }
    ensures enough { many ≤ there → result ≡ 0 }
{
    if there < many { 2 * many } else { 0 }
}
