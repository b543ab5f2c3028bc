//! Room for what one read gives.
ghost use Rattle.std.specs.Prelude.{◌≡◌, ◌≤◌, ◌<◌, List, length, slice_range, IfOk};
ghost use Rattle.std.specs.Io.KnownBytes.{ReadConsumes};
ghost use Rattle.dbus_device.specs.Device.{one_more, ReadCounts};
ghost use Rattle.dbus_device.specs.Packets.{LeavesPacket, ReadsOfPacket};
ghost use Rattle.dbus_stream.specs.Rooms.{Room};

use dbus_device::{DeviceFault, Source};

/// Room for the bytes that one read gives.
pub trait Buffer: Drop {
    // How many bytes a read gives at most, which are at most 262,144, and which bytes are there.
    ghost room: { Room Self };

    /// Reads once, into the room from its start on, of which a byte at least is offered.
    ///
    /// `DeviceFault`: the read failed.
    fn read_from<R: Source>(&mut self, source: &mut R) -> Result<usize, DeviceFault>
        ensures some { 0 < length (room.bytes self.new) }
        ensures bound { IfOk result (λ n. n ≤ room.size) }
        ensures there { IfOk result (λ n. n ≤ length (room.bytes self.new)) }
        ensures bytes { ReadConsumes (R.left source.old) (R.left source.new) result
            (room.bytes self.new) }
        ensures failed { ReadCounts (R.failures source.old) (R.failures source.new) result }
        ensures called { R.calls source.new ≡ one_more (R.calls source.old) }
        ensures of_packet { ReadsOfPacket (R.packets source.old) (R.packets source.new)
            (R.packet source.new) result }
        ensures leaves_packet { LeavesPacket (R.packet source.old) (R.packet source.new) result }
        ensures same_reference { R.reference source.new ≡ R.reference source.old };

    /// The bytes from `start` up to `end`.
    fn part(&self, start: usize, end: usize) -> &[u8]
        requires in_order { start ≤ end }
        requires within { end ≤ length (room.bytes self.now) }
        ensures { result.now ≡ slice_range (room.bytes self.now) start end };
}

/// Room for 4,096 bytes.
#[derive(Drop)]
pub struct Small {
    pub(crate) bytes: [u8; 4_096],
}

impl Buffer for Small {
    ghost room = { record { size = 4096; bytes = λ b. b.bytes } };

    fn read_from<R: Source>(&mut self, source: &mut R) -> Result<usize, DeviceFault> {
        source.read(&mut self.bytes)
    }

    fn part(&self, start: usize, end: usize) -> &[u8] {
        let bytes: &[u8] = &self.bytes;
        &bytes[start..end]
    }
}

/// Room for 262,144 bytes: nearly every message lies whole in what one read gives.
#[derive(Drop)]
pub struct Large {
    pub(crate) bytes: [u8; 262_144],
}

impl Buffer for Large {
    ghost room = { record { size = 262144; bytes = λ b. b.bytes } };

    fn read_from<R: Source>(&mut self, source: &mut R) -> Result<usize, DeviceFault> {
        source.read(&mut self.bytes)
    }

    fn part(&self, start: usize, end: usize) -> &[u8] {
        let bytes: &[u8] = &self.bytes;
        &bytes[start..end]
    }
}
