//! A device in memory, which moves a few bytes a call, and fails once if it has to.
ghost use Rattle.std.specs.Prelude.{None};
ghost use Rattle.dbus_device.specs.Packets.{no_packets};

use case_questions::{Question, Reply};
use dbus_device::{DeviceFault, Packet, Sink, Source};
use std::alloc::Global;
use std::cell::Cell;

/// A source of some bytes, or a sink.
#[derive(Drop)]
pub(crate) struct Device<'a, 'b> {
    left: &'a [u8],
    /// The bytes that it took.
    pub(crate) held: Vec<u8>,
    // How many bytes it moves a call at most.
    size: usize,
    // Which of its calls fails, from 1; 0 for none.
    fails_at: u64,
    /// How many calls were made; and how many of them failed, or took none of their bytes.
    pub(crate) calls: u64,
    pub(crate) failures: u64,
    // How many bytes a sink took, and at each read of this source had taken.
    taken: &'b Cell<u64>,
    /// The latter.
    pub(crate) seen: Reply,
}

impl<'a, 'b> Device<'a, 'b> {
    /// A device that gives these bytes, and behaves as the settings of these names say. Without a
    /// size it is that of `size=`.
    pub(crate) fn new(
        alloc: Global,
        bytes: &'a [u8],
        question: Question<'_>,
        size: &str,
        fails: &str,
        taken: &'b Cell<u64>,
    ) -> Self {
        Device {
            left: bytes,
            held: Vec::new(alloc),
            size: question.count(size, question.count("size", 1)),
            fails_at: question.number(fails).unwrap_or(0),
            calls: 0,
            failures: 0,
            taken,
            seen: Reply::new(alloc),
        }
    }
}

impl Source for Device<'_, '_> {
    ghost left = { λ s. None };

    ghost failures = { λ s. s.failures };

    ghost calls = { λ s. s.calls };

    ghost reference = { λ s. None };

    ghost packets = { λ s. no_packets };

    ghost packet = { λ s. None };

    fn packet(&self) -> Option<Packet> {
        None
    }

    fn read(&mut self, buffer: &mut [u8]) -> Result<usize, DeviceFault> {
        self.calls = self.calls.wrapping_add(1);
        self.seen.number(self.taken.get());
        if self.calls == self.fails_at {
            self.failures = self.failures.wrapping_add(1);
            return Err(DeviceFault);
        }
        let count = self.size.min(self.left.len()).min(buffer.len());
        let (piece, left) = self.left.split_at(count);
        buffer[..count].copy_from_slice(piece);
        self.left = left;
        Ok(count)
    }
}

impl Sink for Device<'_, '_> {
    ghost held = { λ s. None };

    ghost failures = { λ s. s.failures };

    ghost reference = { λ s. None };

    fn write(&mut self, bytes: &[u8]) -> Result<usize, DeviceFault> {
        self.calls = self.calls.wrapping_add(1);
        let (piece, left) = bytes.split_at(self.size.min(bytes.len()));
        if self.calls == self.fails_at || self.held.extend_from_slice(piece).is_err() {
            self.failures = self.failures.wrapping_add(1);
            return Err(DeviceFault);
        }
        if piece.is_empty() && !left.is_empty() {
            self.failures = self.failures.wrapping_add(1);
        }
        self.taken.set(self.held.len() as u64);
        Ok(piece.len())
    }
}
