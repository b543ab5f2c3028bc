//! A writer of std's as a sink.
ghost use Rattle.std.specs.Prelude.{◌≡◌, None};

use crate::device_fault::DeviceFault;
use crate::sink::Sink;
use std::io::Write;

/// A writer of std's as a sink. Each call of `write` is one call of the writer, and nothing is
/// flushed.
#[derive(Drop)]
pub struct FromWrite<W> {
    writer: W,
    failures: u64,
}

impl<W: Write> FromWrite<W> {
    ghost use Rattle.dbus_device.specs.Device.{writer_of, write_failures};

    /// The sink that hands on to the writer. No call of it failed yet.
    pub fn new(writer: W) -> Self
        ensures writer { writer_of result ≡ writer }
        ensures failures { write_failures result ≡ 0 }
    {
        FromWrite {
            writer,
            failures: 0,
        }
    }

    /// Gives the writer back.
    pub fn into_inner(self) -> W
        ensures { result ≡ writer_of self }
    {
        self.writer
    }
}

impl<W: Write> Sink for FromWrite<W> {
    ghost held = { λ s. W.contents s.writer };

    ghost failures = { λ s. s.failures };

    ghost reference = { λ s. None };

    fn write(&mut self, bytes: &[u8]) -> Result<usize, DeviceFault> {
        match self.writer.write(bytes) {
            Ok(count) => {
                if count == 0 && !bytes.is_empty() {
                    self.failures = self.failures.wrapping_add(1);
                }
                Ok(count)
            }
            Err(_) => {
                self.failures = self.failures.wrapping_add(1);
                Err(DeviceFault)
            }
        }
    }
}
