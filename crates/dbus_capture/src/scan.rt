//! A file, as its bytes come in pieces.
ghost use Rattle.std.specs.Prelude.{◌≡◌, ◌≤◌, ◌<◌, [], ◌++◌, length, take};

use crate::byte_order::ByteOrder;
use crate::fault::{CaptureFault, CaptureReason};
use crate::head::Head;
use crate::interface::{Interface, Interfaces};
use crate::owed::{Owed, copy_front};
use crate::stage::Stage;
use dbus_device::Packet;
use std::mem;

/// What is kept between the bytes of a file that were taken and those that come.
#[derive(Drop)]
pub struct Scan {
    // The head that comes after the bytes that are counted below, with those of it that are there.
    pub(crate) head: Head,
    // How many bytes of the packet come next, and how many then that are passed over.
    pub(crate) give: usize,
    pub(crate) skip: usize,
    // The place of that head.
    pub(crate) next: u64,
    pub(crate) order: ByteOrder,
    pub(crate) nanoseconds: bool,
    // The length of the block, and how many bytes of its options are left; or, before the first
    // bytes of a packet, how many it has, and how many are passed over behind it.
    pub(crate) total: u32,
    pub(crate) rest: u32,
    pub(crate) behind: u32,
    // Whether each packet so far was one message.
    pub(crate) alone: bool,
    // The interface that the block describes, and those of the section that came before.
    pub(crate) interface: Interface,
    pub(crate) interfaces: Interfaces,
    // Whether packets of which not all bytes were captured are passed over.
    pub(crate) passes_cut: bool,
    // How many packets began, how many were passed over, and how many of these since they were cut.
    pub(crate) packets: u64,
    pub(crate) passed_over: u64,
    pub(crate) cut: u64,
    // The packet that began last.
    pub(crate) packet: Option<Packet>,
    pub(crate) fault: Option<CaptureFault>,
}

impl Scan {
    ghost use Rattle.std.specs.Prelude.{None, false};
    ghost use Rattle.dbus_capture.specs.Scans.{fresh, refused};
    ghost use Rattle.dbus_capture.specs.Stages.{is_raw, want};
    ghost use Rattle.dbus_capture.specs.Steps.{LeadsWithin, ended, may_end, turn_of};
    ghost use Rattle.dbus_capture.specs.Heads.{front_out};
    ghost use Rattle.dbus_capture.specs.Blocks.{decoded};

    // A file of which no byte was taken.
    pub(crate) fn new(passes_cut: bool, stage: Stage) -> Self
        ensures { result ≡ fresh passes_cut stage }
    {
        Scan {
            head: Head::new(stage),
            give: 0,
            skip: 0,
            next: 0,
            order: ByteOrder::Little,
            nanoseconds: false,
            total: 0,
            rest: 0,
            behind: 0,
            alone: true,
            interface: Interface {
                link_type: 0,
                snap_length: 0,
                resolution: 6,
                has_offset: false,
            },
            interfaces: Interfaces::new(),
            passes_cut,
            packets: 0,
            passed_over: 0,
            cut: 0,
            packet: None,
            fault: None,
        }
    }

    // Takes bytes of the piece and hands on those of a packet, or owes them: how many it took, and
    // how many it handed on.
    pub(crate) fn take(&mut self, piece: &[u8], out: &mut [u8], owed: &mut Owed) -> (usize, usize)
        requires { owed.old ≡ [] }
        ensures took { result.0 ≤ length piece.now }
        ensures gave { result.1 ≤ length out.new }
        ensures leads { LeadsWithin self.old (take result.0 piece.now)
            (take result.1 out.new ++ owed.new) self.new }
        ensures moves { 0 < length piece.now → 0 < length out.old → 0 < result.0 }
    {
        if self.fault.is_some() {
            return (piece.len(), 0);
        }
        if self.head.stage().is_raw() {
            let count = copy_front(piece, out);
            return (count, count);
        }
        if self.give > 0 {
            let count = self.give_some(piece, out);
            return (count, count);
        }
        if self.skip > 0 {
            return (self.skip_some(piece), 0);
        }
        (self.gather(piece, owed), 0)
    }

    // Hands on bytes of the packet under way.
    fn give_some(&mut self, piece: &[u8], out: &mut [u8]) -> usize
        requires unfaulted { self.old.fault ≡ None }
        requires some { 0 < self.old.give }
        requires filed { is_raw self.old.head.stage ≡ false }
        ensures took { result ≤ length piece.now }
        ensures gave { result ≤ length out.new }
        ensures leads { LeadsWithin self.old (take result piece.now) (take result out.new) self.new }
        ensures moves { 0 < length piece.now → 0 < length out.old → 0 < result }
    {
        let most = self.give.min(piece.len());
        let count = copy_front(&piece[..most], out);
        self.give -= count;
        count
    }

    // Passes over bytes.
    fn skip_some(&mut self, piece: &[u8]) -> usize
        requires unfaulted { self.old.fault ≡ None }
        requires filed { is_raw self.old.head.stage ≡ false }
        requires some { 0 < self.old.skip }
        requires given { self.old.give ≡ 0 }
        ensures took { result ≤ length piece.now }
        ensures leads { LeadsWithin self.old (take result piece.now) [] self.new }
        ensures moves { 0 < length piece.now → 0 < result }
    {
        let count = self.skip.min(piece.len());
        self.skip -= count;
        count
    }

    // Gathers bytes of a head, and follows what it says once it is whole.
    fn gather(&mut self, piece: &[u8], owed: &mut Owed) -> usize
        requires none { owed.old ≡ [] }
        requires unfaulted { self.old.fault ≡ None }
        requires filed { is_raw self.old.head.stage ≡ false }
        requires given { self.old.give ≡ 0 }
        requires skipped { self.old.skip ≡ 0 }
        ensures took { result ≤ length piece.now }
        ensures leads { LeadsWithin self.old (take result piece.now) owed.new self.new }
        ensures moves { 0 < length piece.now → 0 < result }
    {
        let missing = self.head.missing();
        if piece.len() < missing {
            self.head.push(piece);
            return piece.len();
        }
        if self.head.len() == 0 {
            self.follow(&piece[..missing], owed);
            return missing;
        }
        let stage = self.head.stage();
        let (bytes, size) = mem::replace(&mut self.head, Head::new(stage)).with(&piece[..missing]);
        self.follow(&bytes[..size], owed);
        missing
    }

    // Follows what a whole head says, and owes it if it is the first bytes of a packet.
    fn follow(&mut self, head: &[u8], owed: &mut Owed)
        requires whole { length head.now ≡ want self.old.head.stage }
        requires none { owed.old ≡ [] }
        ensures follows { self.new ≡ decoded self.old head.now }
        ensures owes { owed.new ≡ front_out self.old head.now }
    {
        if self.hands_front(head) {
            *owed = Owed::of(head);
        }
        self.decode(head);
    }

    // Follows what a whole head says.
    #[tactic(auto, unfolding(crate::specs::Blocks::decoded))]
    pub(crate) fn decode(&mut self, head: &[u8])
        requires { length head.now ≡ want self.old.head.stage }
        ensures { self.new ≡ decoded self.old head.now }
    {
        match self.head.stage() {
            Stage::Raw => {}
            Stage::FileHeader => self.file_header(head),
            Stage::Record => self.record(head),
            Stage::Section => self.section(head),
            Stage::Block => self.block(head),
            Stage::InterfaceHead => self.interface_head(head),
            Stage::OptionHead => self.option_head(head),
            Stage::Resolution => self.resolution(head),
            Stage::InterfaceTrailer => self.interface_trailer(head),
            Stage::Enhanced => self.enhanced(head),
            Stage::ObsoletePacket => self.obsolete_packet(head),
            Stage::Simple => self.simple(head),
            Stage::RecordFront | Stage::BlockFront => self.front(head),
            Stage::Trailer => self.trailer(head),
        }
    }

    // Whether the file may end here: between two packets or blocks.
    fn may_end(&self) -> bool
        requires { self.now.fault ≡ None }
        ensures { result ≡ may_end (turn_of self.now) self.now.head.stage self.now.head.bytes }
    {
        match self.head.stage() {
            Stage::Raw => true,
            Stage::Record | Stage::Block => self.give == 0
                && self.skip == 0
                && self.head.len() == 0,
            _ => false,
        }
    }

    // Ends the input, which is a fault within a head, a packet or a block.
    pub(crate) fn end(&mut self)
        ensures { self.new ≡ ended self.old }
    {
        if self.fault.is_some() || self.may_end() {
            return;
        }
        let left = (self.give as u64).wrapping_add(self.skip as u64);
        let at = self
            .next
            .wrapping_add(self.head.len() as u64)
            .wrapping_sub(left);
        self.fault = Some(CaptureFault {
            at,
            reason: CaptureReason::Truncated,
        });
    }
}
