//! Devices that bytes come from and go to, such as a file, a socket or a list in memory.
//!
//! A [`Source`] is read from and a [`Sink`] is written to. Each counts its calls and its failures,
//! so that contracts can say what a device did. A source whose bytes come in packets, as those of a
//! captured file, also tells which [`Packet`] the bytes are of that were read last. [`FromRead`] and
//! [`FromWrite`] make devices of readers and writers of std's, and [`write_all`] writes all bytes.
//! The readers of `dbus_stream` use them, and an example is there at `MessageReader::next`. No
//! section of the D-Bus Specification speaks of them.
#![tactic(auto)]

mod device_fault;
mod from_read;
mod from_write;
mod packet;
mod sink;
mod source;
mod writing;

pub use device_fault::DeviceFault;
pub use from_read::FromRead;
pub use from_write::FromWrite;
pub use packet::Packet;
pub use sink::Sink;
pub use source::Source;
pub use writing::{WrittenOnly, write_all};
