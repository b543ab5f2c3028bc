//! Readers and writers of std's as devices: a call of the device is one call of what is below, and
//! a failure is told at once.

ghost use Rattle.std.specs.Prelude.{◌≤◌, IfOk};

use dbus_device::{DeviceFault, FromRead, FromWrite, Sink, Source};
use std::io::{self, Read, Write};

// Moves one byte a call. The call of this number fails, counted from 1, and each flush.
#[derive(Drop)]
struct Counted {
    // Which call fails; 0 for none.
    fails_at: u64,
    reads: u64,
    writes: u64,
    flushes: u64,
}

impl Counted {
    fn new(fails_at: u64) -> Self {
        Counted {
            fails_at,
            reads: 0,
            writes: 0,
            flushes: 0,
        }
    }

    // What the call of this number, over so many bytes, answers.
    fn answer(&self, call: u64, size: usize) -> io::Result<usize>
        ensures { IfOk result (λ n. n ≤ size) }
    {
        if call == self.fails_at {
            return Err(io::Error::from(io::ErrorKind::Interrupted));
        }
        Ok(size.min(1))
    }
}

impl Read for Counted {
    fn read(&mut self, buffer: &mut [u8]) -> io::Result<usize> {
        self.reads = self.reads.wrapping_add(1);
        self.answer(self.reads, buffer.len())
    }
}

impl Write for Counted {
    fn write(&mut self, bytes: &[u8]) -> io::Result<usize> {
        self.writes = self.writes.wrapping_add(1);
        self.answer(self.writes, bytes.len())
    }

    fn flush(&mut self) -> io::Result<()> {
        self.flushes = self.flushes.wrapping_add(1);
        Err(io::Error::from(io::ErrorKind::Other))
    }
}

// What each of three calls gives if the one of this number fails.
fn given(fails_at: u64, call: u64) -> Result<usize, DeviceFault> {
    if call == fails_at {
        Err(DeviceFault)
    } else {
        Ok(1)
    }
}

#[test]
fn each_read_is_one_read(rt: HostRuntime) {
    for fails_at in 0..4 {
        let mut source = FromRead::new(Counted::new(fails_at));
        for n in 1..4 {
            let read = source.read(&mut [0; 2]);
            assert!(rt; read == given(fails_at, n), "at {n} of {fails_at}");
        }
        let below = source.into_inner();
        let counts = [below.reads, below.writes, below.flushes];
        assert!(rt; counts == [3, 0, 0], "at {fails_at}");
    }
}

#[test]
fn each_write_is_one_write(rt: HostRuntime) {
    for fails_at in 0..4 {
        let mut sink = FromWrite::new(Counted::new(fails_at));
        for n in 1..4 {
            let written = sink.write(b"ab");
            assert!(rt; written == given(fails_at, n), "at {n} of {fails_at}");
        }
        let below = sink.into_inner();
        let counts = [below.reads, below.writes, below.flushes];
        assert!(rt; counts == [0, 3, 0], "at {fails_at}");
    }
}
