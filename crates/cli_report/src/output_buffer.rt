//! Room for bytes that are gathered before they are written.
#![tactic(auto, unfolding(crate::specs::Gathering::gathered_bytes))]

ghost use Rattle.std.specs.Prelude.{◌≤◌};

use dbus_show::copy_bytes;

/// What is gathered: up to 16,384 bytes, in the value itself. An `ArrayVec` blanks what it gives
/// up, which costs as much as writing it.
#[derive(Drop)]
pub struct OutputBuffer {
    bytes: [u8; 16_384],
    len: usize,
    ghost fits: { len ≤ 16384 },
}

impl OutputBuffer {
    ghost use Rattle.std.specs.Prelude.{◌≡◌, [], ◌++◌, true, false};
    ghost use Rattle.cli_report.specs.Gathering.{gathered_bytes};

    /// Nothing is gathered.
    pub fn new() -> Self
        ensures { gathered_bytes result ≡ [] }
    {
        OutputBuffer {
            bytes: [0; 16_384],
            len: 0,
        }
    }

    /// Appends the bytes if there is room for them, and says whether there was.
    #[inline]
    pub(crate) fn push(&mut self, bytes: &[u8]) -> bool
        ensures took { result ≡ true →
            gathered_bytes self.new ≡ gathered_bytes self.old ++ bytes.now }
        ensures full { result ≡ false → self.new ≡ self.old }
    {
        if bytes.len() > 16_384 - self.len {
            return false;
        }
        let end = self.len + bytes.len();
        copy_bytes(&mut self.bytes[self.len..end], bytes);
        self.len = end;
        true
    }

    /// Appends the bytes between others if there is room for all, and says whether there was.
    #[inline]
    pub(crate) fn push_between(&mut self, before: &[u8], bytes: &[u8], after: &[u8]) -> bool
        ensures took { result ≡ true → gathered_bytes self.new ≡
            gathered_bytes self.old ++ (before.now ++ (bytes.now ++ after.now)) }
        ensures full { result ≡ false → self.new ≡ self.old }
    {
        let start = self.len;
        let room = 16_384 - start;
        if bytes.len() > room
            || before.len() > room - bytes.len()
            || after.len() > room - bytes.len() - before.len()
        {
            return false;
        }
        let first = start + before.len();
        let last = first + bytes.len();
        let end = last + after.len();
        copy_bytes(&mut self.bytes[start..first], before);
        copy_bytes(&mut self.bytes[first..last], bytes);
        copy_bytes(&mut self.bytes[last..end], after);
        self.len = end;
        true
    }

    /// The bytes.
    pub(crate) fn as_slice(&self) -> &[u8]
        ensures { result.now ≡ gathered_bytes self.now }
    {
        &self.bytes[..self.len]
    }

    /// Nothing is gathered any more.
    pub(crate) fn clear(&mut self)
        ensures { gathered_bytes self.new ≡ [] }
    {
        self.len = 0;
    }
}
