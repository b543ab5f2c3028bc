//! A head of a file, as its bytes come.
ghost use Rattle.std.specs.Prelude.{◌≡◌, ◌≤◌, ◌<◌, ◌+◌, ◌++◌, length, take};

use crate::stage::Stage;
use std::marker::Model;

/// A head that comes next, and the bytes of it that are there: never all of them.
#[derive(Drop)]
pub struct Head {
    stage: Stage,
    bytes: [u8; 24],
    count: usize,
}

impl Model for Head {
    ghost use Rattle.std.specs.Prelude.{◌<◌, take};
    ghost use Rattle.dbus_capture.specs.Stages.{Heading, want};

    ghost Value = { Heading };

    ghost view = { λ h. record { stage = h.stage; bytes = take h.count h.bytes } };

    ghost invariant = { λ h. h.count < want h.stage };
}

impl Head {
    ghost use Rattle.dbus_capture.specs.Stages.{begun, want};

    // A head of this kind, of which no byte is there.
    pub(crate) fn new(stage: Stage) -> Self
        ensures { result ≡ begun stage }
    {
        Head {
            stage,
            bytes: [0; 24],
            count: 0,
        }
    }

    // Which head it is.
    pub(crate) fn stage(&self) -> Stage
        ensures { result ≡ self.now.stage }
    {
        self.stage
    }

    // How many of its bytes are there.
    pub(crate) fn len(&self) -> usize
        ensures { result ≡ length self.now.bytes }
    {
        self.count
    }

    // How many of its bytes are not there.
    pub(crate) fn missing(&self) -> usize
        ensures count { length self.now.bytes + result ≡ want self.now.stage }
        ensures some { 0 < result }
    {
        self.stage.want() - self.count
    }

    // More of its bytes come, but not all that are missing.
    pub(crate) fn push(&mut self, more: &[u8])
        requires { length self.old.bytes + length more.now < want self.old.stage }
        ensures { self.new ≡ record self.old { bytes = self.old.bytes ++ more.now } }
    {
        let end = self.count + more.len();
        self.bytes[self.count..end].copy_from_slice(more);
        self.count = end;
    }

    // The whole head: the bytes that are there, and then these, which are all that are missing;
    // and how many they are.
    pub(crate) fn with(self, more: &[u8]) -> ([u8; 24], usize)
        requires { length self.bytes + length more.now ≡ want self.stage }
        ensures size { result.1 ≡ want self.stage }
        ensures bytes { take result.1 result.0 ≡ self.bytes ++ more.now }
    {
        let mut bytes = self.bytes;
        let end = self.count + more.len();
        bytes[self.count..end].copy_from_slice(more);
        (bytes, end)
    }
}
