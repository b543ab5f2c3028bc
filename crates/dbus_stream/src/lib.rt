//! Streams of D-Bus messages: bytes that come in pieces, or from a device, cut into messages; and
//! messages written to a device. D-Bus Specification, "Message Protocol".
//!
//! [`Cutter`] takes pieces of any length and gives the messages. Three readers have that loop
//! inside: [`MessageReader`] gives messages, [`RawReader`] the bytes of each, and [`CheckReader`]
//! only its length, without memory. They read from a [`Source`], which [`FromRead`] makes of a
//! reader of std's. [`write_message`] writes one to a [`Sink`].
//!
//! However the input is split, the messages are the same, and no byte after a message is consumed:
//! `laws` states it. Examples are at [`Cutter::take`] and [`MessageReader::next`];
//! `crates/examples` uses a cutter behind a socket.
#![tactic(auto)]

mod buffer;
mod check_reader;
mod cutter;
mod effort;
mod gatherer;
mod going_on;
pub mod laws;
mod lengths;
mod message_reader;
mod passed;
mod raw_reader;
mod read_fault;
mod reader;
mod reads;
mod refused;
mod seeking;
mod stream_fault;
mod taker;
mod write_fault;
mod writing;

pub use buffer::{Buffer, Large, Small};
pub use check_reader::CheckReader;
pub use cutter::Cutter;
pub use dbus_device::{
    DeviceFault, FromRead, FromWrite, Packet, Sink, Source, WrittenOnly, write_all,
};
pub use dbus_resync::Found;
pub use gatherer::Gatherer;
pub use lengths::Lengths;
pub use message_reader::MessageReader;
pub use passed::Passed;
pub use raw_reader::RawReader;
pub use read_fault::ReadFault;
pub use reader::Reader;
pub use reads::MOST_READS;
pub use stream_fault::StreamFault;
pub use taker::Taker;
pub use write_fault::WriteFault;
pub use writing::write_message;
