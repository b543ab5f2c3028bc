//! The first bytes of a packet, which are looked at before they are handed on.
ghost use Rattle.std.specs.Prelude.{◌≡◌, ◌≤◌, ◌<◌, [], ◌++◌, length, take};

use std::marker::Model;

/// The first bytes of a packet that were not handed on yet: at most 16.
#[derive(Drop)]
pub struct Owed {
    bytes: [u8; 16],
    start: usize,
}

impl Model for Owed {
    ghost use Rattle.std.specs.Prelude.{ℕ, List, ◌≤◌, drop};

    ghost Value = { List ℕ };

    ghost view = { λ s. drop s.start s.bytes };

    ghost invariant = { λ s. s.start ≤ 16 };
}

impl Owed {
    // No bytes.
    pub(crate) fn new() -> Self
        ensures { result ≡ [] }
    {
        Owed {
            bytes: [0; 16],
            start: 16,
        }
    }

    // These bytes.
    pub(crate) fn of(front: &[u8]) -> Self
        requires { length front.now ≡ 16 }
        ensures { result ≡ front.now }
    {
        let mut bytes = [0; 16];
        bytes.copy_from_slice(front);
        Owed { bytes, start: 0 }
    }

    // Hands on the first of them, as far as there is room, and returns how many those are.
    pub(crate) fn give(&mut self, out: &mut [u8]) -> usize
        ensures gave { result ≤ length out.new }
        ensures first { self.old ≡ take result out.new ++ self.new }
        ensures moves { 0 < length self.old → 0 < length out.old → 0 < result }
    {
        let count = copy_front(&self.bytes[self.start..], out);
        self.start += count;
        count
    }

    // How many there are.
    pub(crate) fn len(&self) -> usize
        ensures { result ≡ length self.now }
    {
        16 - self.start
    }
}

// Copies the front of the bytes, as far as there is room, and returns how many those are.
pub(crate) fn copy_front(bytes: &[u8], out: &mut [u8]) -> usize
    ensures took { result ≤ length bytes.now }
    ensures gave { result ≤ length out.new }
    ensures same { take result bytes.now ≡ take result out.new }
    ensures moves { 0 < length bytes.now → 0 < length out.old → 0 < result }
{
    let count = bytes.len().min(out.len());
    out[..count].copy_from_slice(&bytes[..count]);
    count
}
