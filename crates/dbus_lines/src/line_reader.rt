//! Lines from a source.
#![tactic(auto)]

ghost use Rattle.std.specs.Prelude.{◌≡◌, ◌≤◌, ◌<◌, ◌++◌, ℕ, [], List, true, false, Ok, option_map};

use crate::fault::NoLine;
use crate::gathered::Gathered;
use dbus_device::{DeviceFault, Source};
use memchr::memchr;
use std::alloc::{AllocError, Allocator};

// How many bytes one read gives at most.
const ROOM: usize = 65_536;

/// Reads lines from a source, one after another, by a buffer of 65,536 bytes inside it.
///
/// It keeps the bytes that it read and did not give in a line yet, and the line that it gave last.
/// Of a line of more bytes than it may have it keeps none, so its memory is at most twice what a
/// line may have, and the buffer; it is used again for each line.
///
/// ```rust
/// use dbus_device::FromRead;
/// use dbus_lines::LineReader;
///
/// let mut lines = LineReader::new(alloc, FromRead::new(rt.stdin()), 1 << 32, 1 << 30);
/// for number in 1..u64::MAX {
///     if !lines.next()? {
///         break;
///     }
///     match lines.line() {
///         Some(line) => println!(rt; "line {number}: {} bytes", line.len())?,
///         None => println!(rt; "line {number}: too long")?,
///     }
/// }
/// ```
#[derive(Drop)]
pub struct LineReader<R, A: Allocator> {
    source: R,
    // What the last read gave, and which of it is left.
    bytes: [u8; ROOM],
    start: usize,
    end: usize,
    // The line under way, or the one that was given last.
    line: Gathered<A>,
    given: bool,
    reads: u64,
    most_reads: u64,
    ended: bool,
    ghost in_order: { start ≤ end },
    ghost in_room: { end ≤ 65536 },
    ghost few: { reads ≤ most_reads },
}

impl<R: Source, A: Allocator> LineReader<R, A> {
    ghost use Rattle.dbus_device.specs.Device.{ReadCounts};
    ghost use Rattle.dbus_lines.specs.LineReading.{source_of, part_of, line_of, reads_of, most_reads_of, Calls, Counts, FillsOrNot, IsNewReader, Keeps, KeptAnswers, NextAnswers, Reads, ReadsNothing, is_ended};

    /// A reader of what the source gives, which has read nothing yet. It makes at most `reads`
    /// reads in its life, the one that finds the end of the input among them. A line may have
    /// `most` bytes, its line feed not counted.
    pub fn new(alloc: A, source: R, reads: u64, most: usize) -> Self
        ensures { IsNewReader source reads most result }
    {
        LineReader {
            source,
            bytes: [0; ROOM],
            start: 0,
            end: 0,
            line: Gathered::new(alloc, most),
            given: false,
            reads: 0,
            most_reads: reads,
            ended: false,
        }
    }

    /// Gives the source back. Bytes that are kept are lost.
    pub fn into_source(self) -> R
        ensures { result ≡ source_of self }
    {
        self.source
    }

    /// The bytes of the line that it gave last, without its line feed, or None if these are more
    /// than a line may have.
    pub fn line(&self) -> Option<&[u8]>
        ensures { option_map (λ line. line.now) result ≡ line_of self.now }
    {
        self.line.get()
    }

    /// Reads the next line, if there is one: it is false at the end of the input, and then each
    /// call returns the same, without reading. Of the bytes before the end, those that follow the
    /// last line feed are a line too, if there are any. A read is made only if no whole line is
    /// kept, so a line is given at the read that ends it.
    ///
    /// `Memory`: an allocation failed. `Device`: a read failed. `TooManyReads`: as many reads were
    /// made as it may make, none of them found the end, and no whole line is kept. After each all
    /// that was read is kept.
    pub fn next(&mut self) -> Result<bool, NoLine>
        ensures read { (w : List ℕ) → Keeps self.old w →
            (r : Reads R.left R.calls R.failures w self.old self.new) ×
            NextAnswers (w ++ r.bytes) self.new result }
        ensures failed { Counts (R.failures (source_of self.old)) (R.failures (source_of self.new))
            result }
        ensures same_reference { R.reference (source_of self.new) ≡
            R.reference (source_of self.old) }
    {
        self.begin();
        'reading: loop {
            match self.take_kept() {
                Ok(true) => return Ok(true),
                Ok(false) => {}
                Err(AllocError) => return Err(NoLine::Memory),
            }
            if self.ended {
                return Ok(self.give_rest());
            }
            if self.reads >= self.most_reads {
                return Err(NoLine::TooManyReads);
            }
            match self.fill() {
                Ok(()) => {}
                Err(DeviceFault) => return Err(NoLine::Device),
            }
        }
    }

    /// Gives the next line out of what was read already: no read is made. It is false if no whole
    /// line is kept; then `next` goes on from there.
    ///
    /// The error is that an allocation failed. Then all that was read is kept.
    pub fn next_kept(&mut self) -> Result<bool, AllocError>
        ensures kept { (w : List ℕ) → Keeps self.old w → KeptAnswers w self.new result }
        ensures unread { ReadsNothing self.old self.new }
    {
        self.begin();
        self.take_kept()
    }

    // Lets go of the line that it gave last, if it is not gathering another one.
    fn begin(&mut self)
        ensures ungiven { self.new.given ≡ false }
        ensures keeps { (w : List ℕ) → Keeps self.old w → Keeps self.new w }
        ensures unread { ReadsNothing self.old self.new }
    {
        if self.given {
            self.line.clear();
            self.given = false;
        }
    }

    // Adds what is left of the buffer to the line, up to a line feed, and gives the line then. If
    // none is left, nothing is.
    fn take_kept(&mut self) -> Result<bool, AllocError>
        requires { self.old.given ≡ false }
        ensures answers { (w : List ℕ) → Keeps self.old w → KeptAnswers w self.new result }
        ensures drained { result ≡ Ok false → (part_of self.new ≡ []) × (self.new.given ≡ false) }
        ensures unread { ReadsNothing self.old self.new }
    {
        let bytes: &[u8] = &self.bytes;
        let part = &bytes[self.start..self.end];
        match memchr(b'\n', part) {
            Some(count) => {
                self.line.add(&part[..count])?;
                self.start += count + 1;
                self.given = true;
                Ok(true)
            }
            None => {
                self.line.add(part)?;
                self.start = self.end;
                Ok(false)
            }
        }
    }

    // Gives what came after the last line feed of the input, if anything did.
    fn give_rest(&mut self) -> bool
        requires ungiven { self.old.given ≡ false }
        requires drained { part_of self.old ≡ [] }
        requires ended { is_ended self.old ≡ true }
        ensures answers { (w : List ℕ) → Keeps self.old w → NextAnswers w self.new (Ok result) }
        ensures unread { ReadsNothing self.old self.new }
    {
        self.given = !self.line.is_empty();
        self.given
    }

    // One more read, into the buffer, which has nothing left.
    fn fill(&mut self) -> Result<(), DeviceFault>
        requires drained { part_of self.old ≡ [] }
        requires more { reads_of self.old < most_reads_of self.old }
        requires unended { is_ended self.old ≡ false }
        ensures fills { FillsOrNot R.left self.old self.new result }
        ensures calls { Calls R.calls self.old self.new }
        ensures failed { ReadCounts (R.failures (source_of self.old))
            (R.failures (source_of self.new)) result }
        ensures same_reference { R.reference (source_of self.new) ≡
            R.reference (source_of self.old) }
    {
        self.reads += 1;
        self.start = 0;
        self.end = 0;
        let count = self.source.read(&mut self.bytes)?;
        self.end = count;
        self.ended = count == 0;
        Ok(())
    }
}
