//! A source that is read ahead.
ghost use Rattle.std.specs.Prelude.{◌≡◌, ◌≤◌, [], None};
ghost use Rattle.std.specs.Io.KnownBytes.{prepend_known};
ghost use Rattle.std.specs.List.{slice_range};

use dbus_device::{DeviceFault, Packet, Source};

// How many bytes are read ahead at most.
const ROOM: usize = 512;

/// A source that keeps bytes which it read ahead: at most 512, the first ones that it gives. Each
/// call of `read` is one call of the source below it, or bytes that are kept answer it; its count
/// of calls is that of the source below, and those that were answered.
#[derive(Drop)]
pub struct ReadAhead<R> {
    source: R,
    bytes: [u8; ROOM],
    start: usize,
    end: usize,
    // How many calls bytes that are kept answered, since they were read. Each gave a byte.
    answered: usize,
    ghost in_order: { start ≤ end },
    ghost in_room: { end ≤ 512 },
    ghost gave: { answered ≤ start },
}

impl<R: Source> ReadAhead<R> {
    ghost use Rattle.std.specs.Prelude.{◌+◌, ◌++◌, ◌≢◌, ℕ, List, length, take, drop, true};
    ghost use Rattle.dbus_handshake_input.specs.Ahead.{source_of, kept_of, answered_of, idle_unless, HasMore, Rests, Took};
    ghost use Rattle.dbus_device.specs.Device.{ReadCounts};

    /// The source that gives what this one gives. It has read nothing yet.
    pub fn new(source: R) -> Self
        ensures source { source_of result ≡ source }
        ensures kept { kept_of result ≡ [] }
        ensures answered { answered_of result ≡ 0 }
    {
        ReadAhead {
            source,
            bytes: [0; ROOM],
            start: 0,
            end: 0,
            answered: 0,
        }
    }

    // The bytes that are kept.
    pub(crate) fn kept(&self) -> &[u8]
        ensures { result.now ≡ kept_of self.now }
    {
        let bytes: &[u8] = &self.bytes;
        &bytes[self.start..self.end]
    }

    // Reads once if nothing is kept. It is false at the end of the input.
    pub(crate) fn has_more(&mut self) -> Result<bool, DeviceFault>
        ensures more { HasMore R.left self.new result }
        ensures took { Took R.left R.calls R.packets R.packet (idle_unless true result)
            self.old self.new [] }
        ensures failed { ReadCounts (R.failures (source_of self.old))
            (R.failures (source_of self.new)) result }
        ensures same_reference { R.reference (source_of self.new) ≡
            R.reference (source_of self.old) }
    {
        if self.start < self.end {
            return Ok(true);
        }
        self.answered = 0;
        self.start = 0;
        self.end = 0;
        let count = self.source.read(&mut self.bytes)?;
        self.end = count;
        Ok(count > 0)
    }

    // Lets go of the first bytes that are kept.
    pub(crate) fn pass(&mut self, count: usize)
        requires { count ≤ length (kept_of self.old) }
        ensures rest { kept_of self.new ≡ drop count (kept_of self.old) }
        ensures rests { Rests self.old self.new }
    {
        self.start += count;
    }

    // Gives a prefix of the bytes that are kept, as far as the buffer has room.
    fn give(&mut self, buffer: &mut [u8]) -> usize
        ensures bound { result ≤ length buffer.new }
        ensures bytes { kept_of self.old ≡ take result buffer.new ++ kept_of self.new }
        ensures some { result ≡ 0 → kept_of self.old ≢ [] → length buffer.new ≡ 0 }
        ensures rests { Rests self.old self.new }
        ensures moves { self.new.start ≡ self.old.start + result }
    {
        let kept = self.kept();
        let count = kept.len().min(buffer.len());
        buffer[..count].copy_from_slice(&kept[..count]);
        self.start += count;
        count
    }
}

impl<R: Source> Source for ReadAhead<R> {
    ghost use Rattle.std.specs.Prelude.{◌+◌, ◌^◌, ◌%◌, ◌⊎◌, length, IfOk};
    ghost use Rattle.std.specs.Io.KnownBytes.{ReadConsumes};
    ghost use Rattle.dbus_device.specs.Device.{one_more, ReadCounts};
    ghost use Rattle.dbus_device.specs.Packets.{ReadsOfPacket, LeavesPacket};
    ghost use Rattle.dbus_handshake_input.specs.Ahead.{source_of, kept_of, calls_of, packets_of, IsAnswered, IsPassedOn};

    ghost left = { λ s. prepend_known (slice_range s.bytes s.start s.end) (R.left s.source) };

    ghost failures = { λ s. R.failures s.source };

    ghost calls = { λ s. (R.calls s.source + s.answered) % 2 ^ 64 };

    ghost reference = { λ s. None };

    ghost packets = { λ s. packets_of R.packets R.packet s };

    ghost packet = { λ s. R.packet s.source };

    /// The packet of the bytes that were read last, if they were of one: that of the source below,
    /// which gave all bytes that are kept at once, last.
    fn packet(&self) -> Option<Packet>
        ensures { result ≡ R.packet (source_of self.now) }
    {
        self.source.packet()
    }

    fn read(&mut self, buffer: &mut [u8]) -> Result<usize, DeviceFault>
        ensures bound { IfOk result (λ n. n ≤ length buffer.new) }
        ensures bytes { ReadConsumes (prepend_known (kept_of self.old) (R.left (source_of self.old)))
            (prepend_known (kept_of self.new) (R.left (source_of self.new))) result buffer.new }
        ensures failed { ReadCounts (R.failures (source_of self.old))
            (R.failures (source_of self.new)) result }
        ensures called { calls_of R.calls self.new ≡ one_more (calls_of R.calls self.old) }
        ensures of_packet { ReadsOfPacket (packets_of R.packets R.packet self.old)
            (packets_of R.packets R.packet self.new) (R.packet (source_of self.new)) result }
        ensures leaves_packet { LeavesPacket (R.packet (source_of self.old))
            (R.packet (source_of self.new)) result }
        // The source below is called once, or not at all if bytes are given that were kept.
        ensures reaches { IsAnswered self.old self.new (length buffer.new) ⊎
            IsPassedOn R.calls self.old self.new (length buffer.new) }
    {
        if self.start < self.end && !buffer.is_empty() {
            let count = self.give(buffer);
            self.answered += 1;
            return Ok(count);
        }
        self.source.read(buffer)
    }
}
