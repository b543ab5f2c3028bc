//! What bytes go to.
ghost use Rattle.std.specs.Prelude.{◌≡◌, ◌≤◌, ℕ, List, length, IfOk, Option, Some};
ghost use Rattle.std.specs.Io.KnownBytes.{WriteAppends};
ghost use Rattle.std.specs.Borrow.{GName};
ghost use Rattle.dbus_device.specs.Device.{WriteCounts};

use crate::device_fault::DeviceFault;

/// A device that bytes are written to, as a file, a socket or a list in memory.
///
/// What memory a device takes is its own matter: if it finds none, its call failed.
pub trait Sink {
    /// The bytes that it holds, if the device reports them.
    ghost held: { Self → Option (List ℕ) };

    /// How often a call failed or took none of one or more bytes, modulo 2^64. A device failed in a
    /// call during which this changed.
    ghost failures: { Self → ℕ };

    /// Which reference it is, if it is one. No call changes it.
    ghost reference: { Self → Option GName };

    /// Takes a prefix of the bytes, and returns their number.
    ///
    /// `DeviceFault`: the device failed. It took none of these bytes, and the call may be made
    /// again.
    fn write(&mut self, bytes: &[u8]) -> Result<usize, DeviceFault>
        ensures bound { IfOk result (λ n. n ≤ length bytes.now) }
        ensures bytes { WriteAppends (held self.old) (held self.new) result bytes.now }
        ensures failed { WriteCounts (failures self.old) (failures self.new) result
            (length bytes.now) }
        ensures same_reference { reference self.new ≡ reference self.old };
}

impl<W: Sink> Sink for &mut W {
    ghost held = { λ w. W.held w.now };

    ghost failures = { λ w. W.failures w.now };

    ghost reference = { λ w. Some w.ghost_name };

    fn write(&mut self, bytes: &[u8]) -> Result<usize, DeviceFault> {
        Sink::write(&mut **self, bytes)
    }
}
