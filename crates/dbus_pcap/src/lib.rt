//! Pcap files of D-Bus messages, written in pieces.
//!
//! A file is [`file_header`] and then, of each message, [`packet_header`] and its bytes. So a
//! writer needs no more memory than these 24 and 16 bytes. `dbus_capture` reads such a file, and
//! [`laws`] says that it reads what was written: the same messages and times.
//!
//! The format is that of the IETF draft "PCAP Capture File Format". The packets of D-Bus have link
//! type 231, LINKTYPE_DBUS: each is one message, from its byte-order flag on.
#![tactic(auto)]

mod headers;
pub mod laws;

pub use headers::{file_header, packet_header};
