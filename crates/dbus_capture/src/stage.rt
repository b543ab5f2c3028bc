//! Which head of a file comes next.
ghost use Rattle.std.specs.Prelude.{◌≡◌, length};
ghost use Rattle.dbus_capture.specs.Stages.{want, is_raw, is_front, front_before, after_front};
ghost use Rattle.dbus_capture.specs.Beginnings.{stage_by, first_stage};

use crate::byte_order::ByteOrder;
use crate::pcap::magic;

/// Which head comes next in a file, after the bytes of the packet under way and those that are
/// passed over.
#[derive(Clone, Copy)]
pub enum Stage {
    // No head: bytes with no file around them.
    Raw,
    // The header of a pcap file. "File Header".
    FileHeader,
    // The header of a packet of a pcap file. "Packet Record".
    Record,
    // The first block of a section of a pcapng file, up to its options. "Section Header Block".
    Section,
    // The type and the length of a block. "General Block Structure".
    Block,
    // What a block says of an interface, up to its options. "Interface Description Block".
    InterfaceHead,
    // The code and the length of an option of an interface. "Options".
    OptionHead,
    // The value of the option `if_tsresol`, which says in which unit times are.
    Resolution,
    // The length at the end of the block of an interface.
    InterfaceTrailer,
    // What an enhanced packet block says of its packet. "Enhanced Packet Block".
    Enhanced,
    // What an obsolete packet block says of its packet. "Packet Block".
    ObsoletePacket,
    // What a simple packet block says of its packet. "Simple Packet Block".
    Simple,
    // The first bytes of a packet of a pcap file, of which a message states its size.
    RecordFront,
    // Those of a packet in a block.
    BlockFront,
    // The length at the end of another block.
    Trailer,
}

impl Stage {
    // How many bytes the head has, which are gathered before they are looked at.
    pub(crate) fn want(self) -> usize
        ensures { result ≡ want self }
    {
        match self {
            Stage::Raw | Stage::FileHeader | Stage::Section => 24,
            Stage::Record | Stage::RecordFront | Stage::BlockFront => 16,
            Stage::Block | Stage::InterfaceHead => 8,
            Stage::Enhanced | Stage::ObsoletePacket => 20,
            _ => 4,
        }
    }

    // Whether these are the first bytes of a packet, which are looked at before they are handed on.
    pub(crate) fn is_front(self) -> bool
        ensures { result ≡ is_front self }
    {
        matches!(self, Stage::RecordFront | Stage::BlockFront)
    }

    // The first bytes of the packet behind which this head comes.
    pub(crate) fn front_before(self) -> Stage
        ensures { result ≡ front_before self }
    {
        match self {
            Stage::Record => Stage::RecordFront,
            _ => Stage::BlockFront,
        }
    }

    // The head behind the packet of these first bytes.
    pub(crate) fn after_front(self) -> Stage
        ensures { result ≡ after_front self }
    {
        match self {
            Stage::RecordFront => Stage::Record,
            _ => Stage::Trailer,
        }
    }

    // Whether no file is around the messages.
    pub(crate) fn is_raw(self) -> bool
        ensures { result ≡ is_raw self }
    {
        matches!(self, Stage::Raw)
    }
}

// Which head comes first, by the first four bytes as a little-endian machine reads them.
fn stage_by(number: u32) -> Stage
    ensures { result ≡ stage_by number }
{
    if magic(number).is_some() {
        Stage::FileHeader
    } else if number == 0x0a0d_0d0a {
        Stage::Section
    } else {
        Stage::Raw
    }
}

// Which head comes first in an input that begins with these bytes, or that they are all of.
pub(crate) fn first_stage(bytes: &[u8]) -> Stage
    ensures { result ≡ first_stage bytes.now }
{
    if bytes.len() < 4 {
        Stage::Raw
    } else {
        stage_by(ByteOrder::Little.u32_at(0, bytes))
    }
}
