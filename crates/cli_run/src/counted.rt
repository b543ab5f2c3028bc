//! What was read of an input, and why no more.
use dbus_stream::ReadFault;
use dbus_value_model::Fault;

/// Why there is no next message.
#[derive(Clone, Copy, Debug, PartialEq, Eq)]
pub(crate) enum NoMessage {
    /// The reader has a fault.
    Reader(ReadFault),
    /// A write failed, or took none of its bytes.
    Writer,
    /// No more messages are wanted.
    Enough,
}

/// The messages of an input that was read to its end, to a fault, or as far as was wanted.
#[derive(Clone, Copy, Debug, PartialEq, Eq)]
pub(crate) struct Counted {
    /// How many there are, and how many bytes they have.
    pub(crate) count: u64,
    pub(crate) size: u64,
    /// The fault of the bytes after them, whose place counts from their end.
    pub(crate) fault: Option<Fault>,
}
