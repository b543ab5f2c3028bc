//! A reader of std's as a source.
ghost use Rattle.std.specs.Prelude.{◌≡◌, None};
ghost use Rattle.dbus_device.specs.Packets.{no_packets};

use crate::device_fault::DeviceFault;
use crate::packet::Packet;
use crate::source::Source;
use std::io::Read;

/// A reader of std's as a source. Each call of `read` is one call of the reader, so one that was
/// interrupted counts as failed and may be made again.
#[derive(Drop)]
pub struct FromRead<R> {
    reader: R,
    failures: u64,
    calls: u64,
}

impl<R: Read> FromRead<R> {
    ghost use Rattle.dbus_device.specs.Device.{reader_of, read_failures, read_calls};

    /// The source that gives what the reader gives. No call of it was made or failed yet.
    pub fn new(reader: R) -> Self
        ensures reader { reader_of result ≡ reader }
        ensures failures { read_failures result ≡ 0 }
        ensures calls { read_calls result ≡ 0 }
    {
        FromRead {
            reader,
            failures: 0,
            calls: 0,
        }
    }

    /// Gives the reader back.
    pub fn into_inner(self) -> R
        ensures { result ≡ reader_of self }
    {
        self.reader
    }
}

impl<R: Read> Source for FromRead<R> {
    ghost left = { λ s. R.remaining s.reader };

    ghost failures = { λ s. s.failures };

    ghost calls = { λ s. s.calls };

    ghost reference = { λ s. None };

    ghost packets = { λ s. no_packets };

    ghost packet = { λ s. None };

    fn packet(&self) -> Option<Packet> {
        None
    }

    fn read(&mut self, buffer: &mut [u8]) -> Result<usize, DeviceFault> {
        self.calls = self.calls.wrapping_add(1);
        match self.reader.read(buffer) {
            Ok(count) => Ok(count),
            Err(_) => {
                self.failures = self.failures.wrapping_add(1);
                Err(DeviceFault)
            }
        }
    }
}
