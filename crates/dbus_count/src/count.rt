//! How many messages have a name.
ghost use Rattle.std.specs.Prelude.{◌≡◌};
ghost use Rattle.dbus_count.specs.Counting.{with_one};

/// How many messages have a name, and how many bytes these have. Each stops at 2^64 - 1.
#[derive(Clone, Copy, Debug, PartialEq, Eq)]
pub struct Count {
    /// How many messages.
    pub messages: u64,
    /// How many bytes these have.
    pub bytes: u64,
}

impl Count {
    /// One message more, of so many bytes.
    pub(crate) fn with_one(self, size: u64) -> Count
        ensures { result ≡ with_one self size }
    {
        Count {
            messages: self.messages.saturating_add(1),
            bytes: self.bytes.saturating_add(size),
        }
    }
}
