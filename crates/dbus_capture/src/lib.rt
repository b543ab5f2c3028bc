//! Captures of D-Bus messages in files, pcap and pcapng, read from a source.
//!
//! A [`Capture`] reads such a file from a source, and is itself a source: of the bytes of the
//! file's D-Bus packets, one after another, as `dbus_stream` reads them. Messages with no file
//! around them, and a handshake, pass through it unchanged: the first four bytes say which it is.
//! No read gives bytes of two packets, so [`Source::packet`] says where and when what was read last
//! was captured. A file that cannot be read has one fault ([`Capture::fault`]), at one place and
//! for one reason, and what is read ends there.
//!
//! The formats are those of two IETF drafts, "PCAP Capture File Format" and "PCAP Now Generic
//! (pcapng) Capture File Format", whose sections comments name by their titles. The packets of
//! D-Bus have link type 231, LINKTYPE_DBUS: each is one message, from its byte-order flag on. As
//! long as each is, by the size that its first 16 bytes state, one that has fewer bytes is as one of
//! which not all bytes were captured; behind one that is not, messages may run over packets. All
//! places are in bytes from the start of the file.
//!
//! [`laws`] says of whole files what is read of them. An example is at [`Capture`].
//!
//! [`Source::packet`]: dbus_device::Source::packet
#![tactic(auto)]

mod blocks;
mod byte_order;
mod capture;
mod fault;
mod fault_text;
mod head;
mod input;
mod interface;
pub mod laws;
mod owed;
mod packet;
mod pcap;
mod scan;
mod stage;

pub use capture::Capture;
pub use fault::{CaptureFault, CaptureReason};
