//! What bytes come from.
ghost use Rattle.std.specs.Prelude.{◌≡◌, ◌≤◌, ℕ, List, length, IfOk, Option, Some};
ghost use Rattle.std.specs.Io.KnownBytes.{ReadConsumes};
ghost use Rattle.std.specs.Borrow.{GName};
ghost use Rattle.dbus_device.specs.Device.{one_more, ReadCounts};
ghost use Rattle.dbus_device.specs.Packets.{Packets, ReadsOfPacket, LeavesPacket};

use crate::device_fault::DeviceFault;
use crate::packet::Packet;

/// A device that bytes are read from, as a file, a socket or a list in memory.
///
/// What memory a device takes is its own matter: if it finds none, its call failed.
pub trait Source {
    ghost use Rattle.dbus_device.specs.declared.packet.Packet.{Packet};

    /// The bytes that are left, if the device reports them.
    ghost left: { Self → Option (List ℕ) };

    /// How often a call failed, modulo 2^64. A device failed in a call during which this changed.
    ghost failures: { Self → ℕ };

    /// How often it was called, modulo 2^64.
    ghost calls: { Self → ℕ };

    /// Which reference it is, if it is one. No call changes it.
    ghost reference: { Self → Option GName };

    /// Of which packet each byte is that is left, if the device reports that.
    ghost packets: { Self → Option Packets };

    /// The packet of the bytes that were read last, if they were of one.
    ghost packet: { Self → Option Packet };

    /// The packet of the bytes that were read last, if they were of one. A read that gave no byte
    /// left it as it was.
    fn packet(&self) -> Option<Packet>
        ensures { result ≡ packet self.now };

    /// Fills a prefix of the buffer with the next bytes, which are all of one packet or of none,
    /// and returns their number. 0 bytes are the end, or the buffer has no room.
    ///
    /// `DeviceFault`: the device failed. No byte is lost, and the call may be made again.
    fn read(&mut self, buffer: &mut [u8]) -> Result<usize, DeviceFault>
        ensures bound { IfOk result (λ n. n ≤ length buffer.new) }
        ensures bytes { ReadConsumes (left self.old) (left self.new) result buffer.new }
        ensures failed { ReadCounts (failures self.old) (failures self.new) result }
        ensures called { calls self.new ≡ one_more (calls self.old) }
        ensures of_packet { ReadsOfPacket (packets self.old) (packets self.new) (packet self.new)
            result }
        ensures leaves_packet { LeavesPacket (packet self.old) (packet self.new) result }
        ensures same_reference { reference self.new ≡ reference self.old };
}

impl<R: Source> Source for &mut R {
    ghost left = { λ r. R.left r.now };

    ghost failures = { λ r. R.failures r.now };

    ghost calls = { λ r. R.calls r.now };

    ghost reference = { λ r. Some r.ghost_name };

    ghost packets = { λ r. R.packets r.now };

    ghost packet = { λ r. R.packet r.now };

    fn packet(&self) -> Option<Packet> {
        Source::packet(&**self)
    }

    fn read(&mut self, buffer: &mut [u8]) -> Result<usize, DeviceFault> {
        Source::read(&mut **self, buffer)
    }
}
