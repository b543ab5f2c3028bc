//! The heads of a pcapng file. "General File Structure" and "Block Definition" of "PCAP Now
//! Generic (pcapng) Capture File Format".
ghost use Rattle.std.specs.Prelude.{◌≡◌, ◌≤◌, ◌<◌, ◌*◌, ◌-◌, ◌^◌, length, slice_get, None};
ghost use Rattle.dbus_capture.specs.Scans.{refused};
ghost use Rattle.dbus_capture.specs.Blocks.{padded, is_length, order_mark, section_in, section_head, block_stage, block_by, block_head, trailer, after_option, interface_head, pass_option, option_in, option_head, resolution_head, interface_trailer, fitting, time_of, block_packet, enhanced_by, enhanced_head, obsolete_head, captured_length, simple_by, simple_head};

use crate::byte_order::ByteOrder;
use crate::fault::CaptureReason;
use crate::head::Head;
use crate::interface::{Interface, Interfaces};
use crate::packet::PacketHead;
use crate::scan::Scan;
use crate::stage::Stage;

// A length, rounded up to a multiple of four.
fn padded(length: u32) -> u64
    ensures { result ≡ padded length }
{
    (length as u64 + 3) / 4 * 4
}

// Whether a block may have this length, if such a block has at least `least` bytes.
fn is_length(least: u32, total: u32) -> bool
    ensures { result ≡ is_length least total }
{
    total % 4 == 0 && total >= least
}

// The order that a byte-order magic says, as a little-endian machine reads it.
fn order_mark(number: u32) -> Option<ByteOrder>
    ensures { result ≡ order_mark number }
{
    if number == 0x1a2b_3c4d {
        Some(ByteOrder::Little)
    } else if number == 0x4d3c_2b1a {
        Some(ByteOrder::Big)
    } else {
        None
    }
}

// Which head comes in a block of this type, if it is read, and how many bytes it has at least.
fn block_stage(kind: u32) -> Option<(Stage, u32)>
    ensures { result ≡ block_stage kind }
{
    if kind == 1 {
        Some((Stage::InterfaceHead, 20))
    } else if kind == 2 {
        Some((Stage::ObsoletePacket, 32))
    } else if kind == 3 {
        Some((Stage::Simple, 16))
    } else if kind == 6 {
        Some((Stage::Enhanced, 32))
    } else {
        None
    }
}

// Which head comes after an option, if so many bytes of the options are left.
fn after_option(rest: u32) -> Stage
    ensures { result ≡ after_option rest }
{
    if rest == 0 {
        Stage::InterfaceTrailer
    } else {
        Stage::OptionHead
    }
}

// How many nanoseconds the unit of an interface's times has.
fn unit(resolution: u8) -> u64
    requires { resolution ≤ 9 }
    ensures { result ≡ 10 ^ (9 - resolution) }
{
    match resolution {
        0 => 1_000_000_000,
        1 => 100_000_000,
        2 => 10_000_000,
        3 => 1_000_000,
        4 => 100_000,
        5 => 10_000,
        6 => 1_000,
        7 => 100,
        8 => 10,
        _ => 1,
    }
}

// The nanoseconds since 1970 of a packet's time in units of its interface, if the file says them
// and they are below 2^64.
fn time_of(interface: Interface, units: u64) -> Option<u64>
    ensures { result ≡ time_of interface units }
{
    if interface.has_offset || interface.resolution > 9 {
        return None;
    }
    units.checked_mul(unit(interface.resolution))
}

// How many bytes of a packet an interface captures.
fn captured_length(snap_length: u32, original: u32) -> u32
    ensures { result ≡ captured_length snap_length original }
{
    if snap_length == 0 || original <= snap_length {
        original
    } else {
        snap_length
    }
}

impl Scan {
    // Follows the first block of a section.
    pub(crate) fn section(&mut self, head: &[u8])
        requires { length head.now ≡ 24 }
        ensures { self.new ≡ section_head self.old head.now }
    {
        if ByteOrder::Little.u32_at(0, head) != 0x0a0d_0d0a {
            return self.refuse(0, CaptureReason::Magic);
        }
        match order_mark(ByteOrder::Little.u32_at(8, head)) {
            None => self.refuse(8, CaptureReason::OrderMark),
            Some(order) => self.section_in(head, order),
        }
    }

    // The same, in this order. The section's length and options are passed over.
    fn section_in(&mut self, head: &[u8], order: ByteOrder)
        requires { length head.now ≡ 24 }
        ensures { self.new ≡ section_in self.old head.now order }
    {
        let minor = order.u16_at(14, head);
        if order.u16_at(12, head) != 1 || (minor != 0 && minor != 2) {
            return self.refuse(12, CaptureReason::Version);
        }
        let total = order.u32_at(4, head);
        if !is_length(28, total) {
            return self.refuse(4, CaptureReason::BlockLength);
        }
        self.head = Head::new(Stage::Trailer);
        self.skip = total as usize - 28;
        self.next = self.next.wrapping_add(total as u64 - 4);
        self.order = order;
        self.total = total;
        self.interfaces = Interfaces::new();
    }

    // Follows the type and the length of a block. A section's first block has its own order, so its
    // length is read with what comes.
    pub(crate) fn block(&mut self, head: &[u8])
        requires { length head.now ≡ 8 }
        ensures { self.new ≡ block_head self.old head.now }
    {
        let kind = self.order.u32_at(0, head);
        if kind == 0x0a0d_0d0a {
            let mut section = Head::new(Stage::Section);
            section.push(head);
            self.head = section;
            return;
        }
        self.block_by(self.order.u32_at(4, head), block_stage(kind));
    }

    // The same, by the length and by which head comes. A block of another type is passed over.
    fn block_by(&mut self, total: u32, stage: Option<(Stage, u32)>)
        ensures { self.new ≡ block_by self.old total stage }
    {
        match stage {
            None => {
                if !is_length(12, total) {
                    return self.refuse(4, CaptureReason::BlockLength);
                }
                self.head = Head::new(Stage::Trailer);
                self.skip = total as usize - 12;
                self.next = self.next.wrapping_add(total as u64 - 4);
                self.total = total;
            }
            Some((stage, least)) => {
                if !is_length(least, total) {
                    return self.refuse(4, CaptureReason::BlockLength);
                }
                self.head = Head::new(stage);
                self.next = self.next.wrapping_add(8);
                self.total = total;
                self.rest = total.saturating_sub(20);
            }
        }
    }

    // Follows the length at the end of a block.
    pub(crate) fn trailer(&mut self, head: &[u8])
        requires { length head.now ≡ 4 }
        ensures { self.new ≡ trailer self.old head.now }
    {
        if self.order.u32_at(0, head) != self.total {
            return self.refuse(0, CaptureReason::BlockLengths);
        }
        self.head = Head::new(Stage::Block);
        self.next = self.next.wrapping_add(4);
    }

    // Follows what a block says of an interface.
    pub(crate) fn interface_head(&mut self, head: &[u8])
        requires { length head.now ≡ 8 }
        ensures { self.new ≡ interface_head self.old head.now }
    {
        self.head = Head::new(after_option(self.rest));
        self.next = self.next.wrapping_add(8);
        self.interface = Interface {
            link_type: self.order.u16_at(0, head),
            snap_length: self.order.u32_at(4, head),
            resolution: 6,
            has_offset: false,
        };
    }

    // Follows the code and the length of an option of an interface.
    pub(crate) fn option_head(&mut self, head: &[u8])
        requires { length head.now ≡ 4 }
        ensures { self.new ≡ option_head self.old head.now }
    {
        let code = self.order.u16_at(0, head);
        let size = self.order.u16_at(2, head);
        self.option_in(code, size);
    }

    // The same, by these: 0 ends the options, 9 is `if_tsresol`, and 14 `if_tsoffset`.
    fn option_in(&mut self, code: u16, size: u16)
        ensures { self.new ≡ option_in self.old code size }
    {
        let left = self.rest.saturating_sub(4);
        if code == 0 {
            self.head = Head::new(Stage::InterfaceTrailer);
            self.skip = left as usize;
            self.next = self.next.wrapping_add(self.rest as u64);
            self.rest = 0;
            return;
        }
        if (left as u64) < padded(size as u32) {
            return self.refuse(2, CaptureReason::OptionLength);
        }
        if code == 9 {
            if size != 1 {
                return self.refuse(2, CaptureReason::OptionLength);
            }
            self.head = Head::new(Stage::Resolution);
            self.next = self.next.wrapping_add(4);
            self.rest = self.rest.saturating_sub(8);
            return;
        }
        if code == 14 {
            self.interface.has_offset = true;
        }
        self.pass_option(padded(size as u32) as u32);
    }

    // Passes over an option with its padding.
    fn pass_option(&mut self, size: u32)
        requires { size ≤ 65536 }
        ensures { self.new ≡ pass_option self.old size self.old.interface }
    {
        let rest = self.rest.saturating_sub(4).saturating_sub(size);
        self.head = Head::new(after_option(rest));
        self.skip = size as usize;
        self.next = self.next.wrapping_add(4 + size as u64);
        self.rest = rest;
    }

    // Follows the value of `if_tsresol`.
    pub(crate) fn resolution(&mut self, head: &[u8])
        requires { length head.now ≡ 4 }
        ensures { self.new ≡ resolution_head self.old head.now }
    {
        self.head = Head::new(after_option(self.rest));
        self.next = self.next.wrapping_add(4);
        self.interface.resolution = head[0];
    }

    // Follows the length at the end of the block of an interface.
    pub(crate) fn interface_trailer(&mut self, head: &[u8])
        requires { length head.now ≡ 4 }
        ensures { self.new ≡ interface_trailer self.old head.now }
    {
        if self.order.u32_at(0, head) != self.total {
            return self.refuse(0, CaptureReason::BlockLengths);
        }
        if self.interfaces.is_full() {
            return self.refuse(0, CaptureReason::TooManyInterfaces);
        }
        self.head = Head::new(Stage::Block);
        self.next = self.next.wrapping_add(4);
        let interface = self.interface;
        self.interfaces.push(interface);
    }

    // Follows what an enhanced packet block says of its packet.
    pub(crate) fn enhanced(&mut self, head: &[u8])
        requires { length head.now ≡ 20 }
        ensures { self.new ≡ enhanced_head self.old head.now }
    {
        let number = self.order.u32_at(0, head);
        let interface = self.interfaces.get(number);
        self.enhanced_by(head, interface);
    }

    // Follows what an obsolete packet block says of its packet: the same at the same places, but
    // the interface's number, which has two bytes, and two more are a count of drops.
    pub(crate) fn obsolete_packet(&mut self, head: &[u8])
        requires { length head.now ≡ 20 }
        ensures { self.new ≡ obsolete_head self.old head.now }
    {
        let number = self.order.u16_at(0, head);
        let interface = self.interfaces.get(number as u32);
        self.enhanced_by(head, interface);
    }

    // The same, by the packet's interface.
    fn enhanced_by(&mut self, head: &[u8], interface: Option<Interface>)
        requires { length head.now ≡ 20 }
        ensures { self.new ≡ enhanced_by self.old head.now interface }
    {
        let Some(interface) = interface else {
            return self.refuse(0, CaptureReason::NoInterface);
        };
        let high = self.order.u32_at(4, head) as u64;
        let low = self.order.u32_at(8, head) as u64;
        let packet = PacketHead {
            before: 8,
            size: 20,
            captured_at: 12,
            original_at: 12,
            room: self.total.saturating_sub(32),
            time: time_of(interface, high * 0x1_0000_0000 + low),
            captured: self.order.u32_at(12, head),
            original: self.order.u32_at(16, head),
        };
        self.block_packet(interface.link_type, packet);
    }

    // Follows what a simple packet block says of its packet, which is of the first interface.
    pub(crate) fn simple(&mut self, head: &[u8])
        requires { length head.now ≡ 4 }
        ensures { self.new ≡ simple_head self.old head.now }
    {
        let interface = self.interfaces.get(0);
        self.simple_by(head, interface);
    }

    // The same, by the packet's interface.
    fn simple_by(&mut self, head: &[u8], interface: Option<Interface>)
        requires { length head.now ≡ 4 }
        ensures { self.new ≡ simple_by self.old head.now interface }
    {
        let Some(interface) = interface else {
            return self.refuse(0, CaptureReason::NoInterface);
        };
        let original = self.order.u32_at(0, head);
        let packet = PacketHead {
            before: 8,
            size: 4,
            captured_at: 0,
            original_at: 0,
            room: self.total.saturating_sub(16),
            time: None,
            captured: captured_length(interface.snap_length, original),
            original,
        };
        self.block_packet(interface.link_type, packet);
    }

    // Follows what a block says of its packet. One of another link type is passed over.
    fn block_packet(&mut self, link_type: u16, packet: PacketHead)
        requires size { packet.size ≤ 20 }
        ensures { self.new ≡ block_packet self.old link_type packet }
    {
        if (packet.room as u64) < padded(packet.captured) {
            return self.refuse(packet.captured_at, CaptureReason::Lengths);
        }
        self.head = Head::new(Stage::Trailer);
        if link_type == 231 {
            self.packet_head(packet);
        } else {
            self.pass_packet(packet.size, packet.room as usize);
        }
    }
}
