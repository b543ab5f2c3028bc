//! The heads of a pcap file. "File Header" and "Packet Record" of "PCAP Capture File Format".
ghost use Rattle.std.specs.Prelude.{◌≡◌, length};
ghost use Rattle.dbus_capture.specs.Heads.{magic, record_time, file_header, file_header_in, record_head};

use crate::byte_order::ByteOrder;
use crate::fault::CaptureReason;
use crate::head::Head;
use crate::packet::PacketHead;
use crate::scan::Scan;
use crate::stage::Stage;

// The order that a magic number says, and whether fractions of seconds are nanoseconds: the number
// as a little-endian machine reads it.
pub(crate) fn magic(number: u32) -> Option<(ByteOrder, bool)>
    ensures { result ≡ magic number }
{
    if number == 0xa1b2_c3d4 {
        Some((ByteOrder::Little, false))
    } else if number == 0xa1b2_3c4d {
        Some((ByteOrder::Little, true))
    } else if number == 0xd4c3_b2a1 {
        Some((ByteOrder::Big, false))
    } else if number == 0x4d3c_b2a1 {
        Some((ByteOrder::Big, true))
    } else {
        None
    }
}

// The nanoseconds since 1970 of a time in seconds and a fraction of one.
fn record_time(nanoseconds: bool, seconds: u32, fraction: u32) -> u64
    ensures { result ≡ record_time nanoseconds seconds fraction }
{
    let second = seconds as u64 * 1_000_000_000;
    if nanoseconds {
        second + fraction as u64
    } else {
        second + fraction as u64 * 1_000
    }
}

impl Scan {
    // Follows a file's header.
    pub(crate) fn file_header(&mut self, head: &[u8])
        requires { length head.now ≡ 24 }
        ensures { self.new ≡ file_header self.old head.now }
    {
        match magic(ByteOrder::Little.u32_at(0, head)) {
            None => self.refuse(0, CaptureReason::Magic),
            Some((order, nanoseconds)) => self.file_header_in(head, order, nanoseconds),
        }
    }

    // The same, in this order.
    fn file_header_in(&mut self, head: &[u8], order: ByteOrder, nanoseconds: bool)
        requires { length head.now ≡ 24 }
        ensures { self.new ≡ file_header_in self.old head.now order nanoseconds }
    {
        if order.u16_at(4, head) != 2 || order.u16_at(6, head) != 4 {
            return self.refuse(4, CaptureReason::Version);
        }
        if order.u32_at(20, head) != 231 {
            return self.refuse(20, CaptureReason::LinkType);
        }
        self.head = Head::new(Stage::Record);
        self.next = self.next.wrapping_add(24);
        self.order = order;
        self.nanoseconds = nanoseconds;
    }

    // Follows a packet's header.
    pub(crate) fn record(&mut self, head: &[u8])
        requires { length head.now ≡ 16 }
        ensures { self.new ≡ record_head self.old head.now }
    {
        let captured = self.order.u32_at(8, head);
        let original = self.order.u32_at(12, head);
        let seconds = self.order.u32_at(0, head);
        let fraction = self.order.u32_at(4, head);
        self.packet_head(PacketHead {
            before: 0,
            size: 16,
            captured_at: 8,
            original_at: 12,
            room: captured,
            time: Some(record_time(self.nanoseconds, seconds, fraction)),
            captured,
            original,
        });
    }
}
