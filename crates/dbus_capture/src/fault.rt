//! Why a capture cannot be read on, and at which place.

/// The one fault of a file.
#[derive(Clone, Copy, Debug, PartialEq, Eq)]
pub struct CaptureFault {
    /// The place of the fault, in bytes from the start of the file, modulo 2^64.
    pub at: u64,
    /// The reason.
    pub reason: CaptureReason,
}

/// Why a file cannot be read on. The fault comes once the head that has it is whole: the header of
/// a pcap file or of its packet; of a block its first 8 bytes, what it says before its options or
/// its packet, each option of an interface, or its last 4 bytes. The names and the places are this
/// project's own.
#[derive(Clone, Copy, Debug, PartialEq, Eq)]
pub enum CaptureReason {
    /// The first four bytes are no magic number of pcap, or not the type of a section header
    /// block: at 0. It never comes, since an input that begins so is no file.
    Magic,
    /// The version of a pcap file is not 2.4: at byte 4. That of a section of a pcapng file is not
    /// 1.0 or 1.2: at byte 12 of the section.
    Version,
    /// The last four bytes of a pcap file's header are not 231, the link type of D-Bus: at byte 20.
    LinkType,
    /// More bytes of a packet were captured than it had: at its original length. Or, in a pcapng
    /// file, more than its block has for it: at its captured length, as the former is there.
    Lengths,
    /// Not all bytes of a packet were captured: at its captured length. Or, if each packet before
    /// it was one message, it has fewer bytes than its first 16 state, or fewer than 16: at its
    /// first byte. D-Bus Specification, "Message Format".
    PacketCut,
    /// The length of a block is no multiple of four, or less than such a block has: at byte 4 of
    /// the block.
    BlockLength,
    /// The length at the end of a block is not the one at its start: at the former.
    BlockLengths,
    /// The byte-order magic of a section is none: at byte 8 of the section.
    OrderMark,
    /// An option of an interface is longer than what is left of its block; or `if_tsresol`, the
    /// unit of times, has not one byte: at the option's length.
    OptionLength,
    /// A section has more than 64 interfaces: at the last four bytes of the block of the 65th.
    TooManyInterfaces,
    /// A packet is of an interface that the section does not have: at its number, or, in a simple
    /// packet block, which has none, at byte 8 of the block.
    NoInterface,
    /// The input ends within a header, a block or a packet, or within the first four bytes of any:
    /// at its end.
    Truncated,
}
