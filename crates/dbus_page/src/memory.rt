//! Bytes in memory as a source.
#![tactic(auto)]

ghost use Rattle.std.specs.Prelude.{◌≡◌, None, Some};
ghost use Rattle.dbus_device.specs.Packets.{no_packets};

use dbus_device::{DeviceFault, Packet, Source};
use std::io::Read;

/// Bytes in memory as a source, which never fails.
#[derive(Drop)]
pub(crate) struct Memory<'a> {
    /// The bytes that are left.
    pub(crate) left: &'a [u8],
    /// The number of calls, modulo 2^64.
    pub(crate) calls: u64,
}

impl Source for Memory<'_> {
    ghost left = { λ s. Some s.left.now };

    ghost failures = { λ s. 0 };

    ghost calls = { λ s. s.calls };

    ghost reference = { λ s. None };

    ghost packets = { λ s. no_packets };

    ghost packet = { λ s. None };

    fn packet(&self) -> Option<Packet> {
        None
    }

    fn read(&mut self, buffer: &mut [u8]) -> Result<usize, DeviceFault> {
        self.calls = self.calls.wrapping_add(1);
        let Ok(count) = self.left.read(buffer) else {
            unreachable!()
        };
        Ok(count)
    }
}
