//! The headers of a pcap file. "File Header" and "Packet Record" of "PCAP Capture File Format".
ghost use Rattle.std.specs.Prelude.{◌≡◌, ◌<◌, ◌^◌, length};
ghost use Rattle.dbus_capture.specs.PcapFiles.{header_bytes, packet_header_bytes};
ghost use Rattle.dbus_pcap.specs.Written.{packet_of, written_header, written_time};

// The last time that 32 bits of seconds reach, in nanoseconds since 1970: it is in the year 2106.
const LAST_TIME: u64 = 4_294_967_295_999_999_999;

/// What a file begins with: it has numbers in little-endian order, times in nanoseconds, and
/// packets of at most 128 MiB.
pub fn file_header() -> [u8; 24]
    ensures { result ≡ header_bytes written_header }
{
    [
        0x4d, 0x3c, 0xb2, 0xa1, // times in nanoseconds
        2, 0, 4, 0, // version 2.4
        0, 0, 0, 0, 0, 0, 0, 0, // reserved
        0, 0, 0, 8, // at most 2^27 bytes of a packet
        231, 0, 0, 0, // D-Bus
    ]
}

/// What comes before the bytes of a message, which was captured at this time, in nanoseconds since
/// 1970 began in UTC.
///
/// A time that is not known is written as 0, and one that is later than the file can spell, in the
/// year 2106, as the last one that it can.
pub fn packet_header(time: Option<u64>, bytes: &[u8]) -> [u8; 16]
    requires { length bytes.now < 2 ^ 32 }
    ensures { result ≡ packet_header_bytes written_header.order
        (packet_of (record { time = time; bytes = bytes.now })) }
{
    let time = written_time(time);
    let seconds = (time / 1_000_000_000) as u32;
    let fraction = (time % 1_000_000_000) as u32;
    let s = seconds.to_le_bytes();
    let f = fraction.to_le_bytes();
    let n = (bytes.len() as u32).to_le_bytes();
    [
        s[0], s[1], s[2], s[3], f[0], f[1], f[2], f[3], n[0], n[1], n[2], n[3], n[0], n[1], n[2],
        n[3],
    ]
}

// The time that is written.
fn written_time(time: Option<u64>) -> u64
    ensures { result ≡ written_time time }
{
    match time {
        Some(time) => time.min(LAST_TIME),
        None => 0,
    }
}
