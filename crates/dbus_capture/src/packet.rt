//! The packets of a file, whose heads say alike what comes: in a pcap file, and in a block of a
//! pcapng file.
ghost use Rattle.std.specs.Prelude.{◌≡◌, ◌≤◌, ◌<◌, ◌^◌, if◌then◌else◌, [], length};
ghost use Rattle.dbus_capture.specs.Scans.{refused};
ghost use Rattle.dbus_capture.specs.Heads.{packet_of, give_packet, front_packet, pass_packet, cut_packet, packet_head, front_out, front_head};
ghost use Rattle.dbus_capture.specs.Stages.{want};
ghost use Rattle.dbus_capture.specs.CutPackets.{stated, stated_in};

use crate::byte_order::ByteOrder;
use crate::fault::{CaptureFault, CaptureReason};
use crate::head::Head;
use crate::scan::Scan;
use dbus_device::Packet;

/// What a head says of its packet.
#[derive(Clone, Copy)]
pub struct PacketHead {
    // How many bytes of the packet's block come before the head.
    pub(crate) before: u32,
    // How many bytes the head has, and at which places of it a wrong length is refused: the
    // captured one, and one that is more than the packet had.
    pub(crate) size: u32,
    pub(crate) captured_at: u32,
    pub(crate) original_at: u32,
    // How many bytes come for the packet, with what is passed over behind it.
    pub(crate) room: u32,
    pub(crate) time: Option<u64>,
    pub(crate) captured: u32,
    pub(crate) original: u32,
}

// The size that a message states in its first 16 bytes, or 0 if no message within the limits has it.
fn stated(front: &[u8]) -> u64
    requires { length front.now ≡ 16 }
    ensures { result ≡ stated front.now }
{
    match front[0] {
        b'l' => stated_in(ByteOrder::Little, front),
        b'B' => stated_in(ByteOrder::Big, front),
        _ => 0,
    }
}

// The same, in this order.
fn stated_in(order: ByteOrder, front: &[u8]) -> u64
    requires { length front.now ≡ 16 }
    ensures { result ≡ stated_in order front.now }
{
    let fields = order.u32_at(12, front) as u64;
    let size = 16 + (fields + 7) / 8 * 8 + order.u32_at(4, front) as u64;
    if fields <= 67_108_864 && size <= 134_217_728 {
        size
    } else {
        0
    }
}

impl Scan {
    // Follows what a head says of its packet, if that is of D-Bus.
    pub(crate) fn packet_head(&mut self, packet: PacketHead)
        requires size { packet.size ≤ 20 }
        requires within { packet.captured ≤ packet.room }
        ensures { self.new ≡ packet_head self.old packet }
    {
        let room = packet.room as usize;
        if packet.original < packet.captured {
            self.refuse(packet.original_at, CaptureReason::Lengths);
        } else if packet.captured < packet.original {
            self.cut_packet(packet.size, room, packet.captured_at);
        } else if !self.alone || packet.captured == 0 {
            self.give_packet(packet);
        } else if packet.captured < 16 {
            self.cut_packet(packet.size, room, packet.size);
        } else {
            self.front_packet(packet);
        }
    }

    // Passes over a packet.
    pub(crate) fn pass_packet(&mut self, size: u32, room: usize)
        requires size { size ≤ 20 }
        requires room { room < 2 ^ 40 }
        ensures { self.new ≡ pass_packet self.old size room }
    {
        self.skip = room;
        self.next = self.next.wrapping_add(size as u64 + room as u64);
        self.passed_over = self.passed_over.wrapping_add(1);
    }

    // Passes over a packet that was cut, or refuses it at a place of the head.
    fn cut_packet(&mut self, size: u32, room: usize, place: u32)
        requires size { size ≤ 20 }
        requires room { room < 2 ^ 40 }
        ensures { self.new ≡ cut_packet self.old size room place }
    {
        if self.passes_cut {
            self.pass_packet(size, room);
            self.cut = self.cut.wrapping_add(1);
        } else {
            self.refuse(place, CaptureReason::PacketCut);
        }
    }

    // What is reported of a packet that begins.
    fn packet_of(&self, packet: PacketHead) -> Packet
        ensures { result ≡ packet_of self.now packet }
    {
        Packet {
            number: self.packets.wrapping_add(1),
            at: self.next.wrapping_sub(packet.before as u64),
            time: packet.time,
            length: packet.captured,
        }
    }

    // Hands on the bytes of a packet, and passes over the rest.
    fn give_packet(&mut self, packet: PacketHead)
        requires size { packet.size ≤ 20 }
        requires within { packet.captured ≤ packet.room }
        ensures { self.new ≡ give_packet self.old packet }
    {
        self.packet = Some(self.packet_of(packet));
        self.give = packet.captured as usize;
        self.skip = packet.room as usize - packet.captured as usize;
        self.packets = self.packets.wrapping_add(1);
        self.next = self
            .next
            .wrapping_add(packet.size as u64 + packet.room as u64);
    }

    // Looks at the first bytes of a packet before it is handed on.
    fn front_packet(&mut self, packet: PacketHead)
        requires size { packet.size ≤ 20 }
        requires within { packet.captured ≤ packet.room }
        ensures { self.new ≡ front_packet self.old packet }
    {
        self.packet = Some(self.packet_of(packet));
        self.head = Head::new(self.head.stage().front_before());
        self.rest = packet.captured;
        self.behind = packet.room - packet.captured;
        self.next = self.next.wrapping_add(packet.size as u64);
    }

    // Whether this head is the first bytes of a packet, and it is handed on: it has as many bytes as
    // they state.
    pub(crate) fn hands_front(&self, head: &[u8]) -> bool
        requires { length head.now ≡ want self.now.head.stage }
        ensures { front_out self.now head.now ≡ (if result then head.now else []) }
    {
        self.head.stage().is_front() && self.rest as u64 >= stated(head)
    }

    // Follows the first bytes of a packet.
    pub(crate) fn front(&mut self, front: &[u8])
        requires { length front.now ≡ 16 }
        ensures { self.new ≡ front_head self.old front.now }
    {
        let stated = stated(front);
        self.head = Head::new(self.head.stage().after_front());
        let left = self.rest.saturating_sub(16) as usize;
        let behind = self.behind as usize;
        if (self.rest as u64) < stated {
            return self.cut_packet(16, left + behind, 0);
        }
        self.give = left;
        self.skip = behind;
        self.next = self
            .next
            .wrapping_add(self.rest as u64 + self.behind as u64);
        self.packets = self.packets.wrapping_add(1);
        self.alone = self.rest as u64 == stated;
    }

    // Refuses the file at a place of the head. No byte of it is handed on from now on.
    pub(crate) fn refuse(&mut self, place: u32, reason: CaptureReason)
        ensures { self.new ≡ refused self.old place reason }
    {
        self.fault = Some(CaptureFault {
            at: self.next.wrapping_add(place as u64),
            reason,
        });
    }
}
