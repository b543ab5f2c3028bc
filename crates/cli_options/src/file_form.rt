//! The forms of messages that are written.

/// In which form messages are written.
#[derive(Clone, Copy, Debug, PartialEq, Eq)]
pub enum FileForm {
    /// As they are read: those of a pcap or pcapng file as a pcap file, and raw ones one after the
    /// other.
    AsRead,
    /// One after the other.
    Raw,
}
