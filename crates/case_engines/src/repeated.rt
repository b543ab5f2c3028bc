//! Streams of bytes that are too many to hold: a message of 2^27 bytes, the most that one may have,
//! one that states a byte more, and a million small ones.

ghost use Rattle.std.specs.Prelude.{◌≡◌, ◌≤◌, length, None};
ghost use Rattle.dbus_device.specs.Packets.{no_packets};

use dbus_device::{DeviceFault, Packet, Source};

/// Bytes, and how often they come.
pub(crate) type Part = (&'static [u8], u64);

// 4,096 bytes of an array.
const BLOCK: &[u8] = &[0; 4096];

// A reply to serial 1. The body is two arrays of BYTE, the first of 2^26 bytes, the most that an
// array may have.
const LONGEST: &[Part] = &[
    (
        b"l\x02\0\x01\xd8\xff\xff\x07\x01\0\0\0\x12\0\0\0\x05\x01u\0\x01\0\0\0\x08\x01g\0\x04ayay\0\0\0\0\0\0\0\0\0\0\x04",
        1,
    ),
    (BLOCK, 1 << 14),
    (b"\xd0\xff\xff\x03", 1),
    (BLOCK, (1 << 14) - 1),
    (&[0; 16], 253),
];

// The same with a byte more in the second array.
const TOO_LONG: &[Part] = &[
    (
        b"l\x02\0\x01\xd9\xff\xff\x07\x01\0\0\0\x12\0\0\0\x05\x01u\0\x01\0\0\0\x08\x01g\0\x04ayay\0\0\0\0\0\0\0\0\0\0\x04",
        1,
    ),
    (BLOCK, 1 << 14),
    (b"\xd1\xff\xff\x03", 1),
    (BLOCK, (1 << 14) - 1),
    (&[0; 16], 253),
    (b"\0", 1),
];

// Replies of 24 bytes to serial 1, of which each read gives the second half of one and the first of
// the next.
const MILLION: &[Part] = &[
    (b"l\x02\0\x01\0\0\0\0\x01\0\0\0", 1),
    (
        b"\x08\0\0\0\x05\x01u\0\x01\0\0\0l\x02\0\x01\0\0\0\0\x01\0\0\0",
        999_999,
    ),
    (b"\x08\0\0\0\x05\x01u\0\x01\0\0\0", 1),
];

/// The streams by the words of questions.
pub(crate) const STREAMS: &[(&str, &[Part])] = &[
    ("longest", LONGEST),
    ("too-long", TOO_LONG),
    ("million", MILLION),
];

/// A source of parts one after the other. Each read gives the bytes of a part once.
#[derive(Drop)]
pub(crate) struct PartsSource {
    parts: &'static [Part],
    // Which part is next, and how often it was given.
    next: usize,
    given: u64,
    calls: u64,
}

impl PartsSource {
    /// A source of these parts.
    pub(crate) fn new(parts: &'static [Part]) -> Self {
        PartsSource {
            parts,
            next: 0,
            given: 0,
            calls: 0,
        }
    }

    // The bytes of the next read, none at the end.
    fn turn(&mut self) -> &'static [u8]
        ensures { self.new.calls ≡ self.old.calls }
    {
        let Some((bytes, times)) = self.parts.get(self.next) else {
            return &[];
        };
        self.given = self.given.saturating_add(1);
        if self.given >= *times {
            self.next = self.next.saturating_add(1);
            self.given = 0;
        }
        bytes
    }
}

// Copies bytes to the start of a buffer that has room for them, and says how many.
fn copy(buffer: &mut [u8], bytes: &[u8]) -> usize
    ensures { result ≤ length buffer.new }
{
    if bytes.len() > buffer.len() {
        return 0;
    }
    buffer[..bytes.len()].copy_from_slice(bytes);
    bytes.len()
}

impl Source for PartsSource {
    ghost left = { λ s. None };

    ghost failures = { λ s. 0 };

    ghost calls = { λ s. s.calls };

    ghost reference = { λ s. None };

    ghost packets = { λ s. no_packets };

    ghost packet = { λ s. None };

    fn packet(&self) -> Option<Packet> {
        None
    }

    fn read(&mut self, buffer: &mut [u8]) -> Result<usize, DeviceFault> {
        self.calls = self.calls.wrapping_add(1);
        Ok(copy(buffer, self.turn()))
    }
}
