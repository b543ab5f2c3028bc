//! A packet that bytes came in.

/// A packet of a device that gives its bytes in packets, such as a captured one in a file. "Packet
/// Record" in a pcap file, "Enhanced Packet Block", "Simple Packet Block" and the obsolete "Packet
/// Block" in a pcapng file.
#[derive(Clone, Copy, Debug, PartialEq, Eq)]
pub struct Packet {
    /// The number of the packet among those that were not passed over, from 1 on, modulo 2^64.
    pub number: u64,
    /// The place of its record or its block, in bytes from the start of the file, modulo 2^64.
    pub at: u64,
    /// When it was captured, in nanoseconds since 1970 began in UTC, if the file says so: not in a
    /// simple packet block, nor if the interface counts from another time, or in units that are
    /// not a power of ten, or shorter than a nanosecond, nor past 2^64 - 1.
    pub time: Option<u64>,
    /// The number of its bytes.
    pub length: u32,
}
