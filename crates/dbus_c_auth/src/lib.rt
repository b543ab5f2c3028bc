//! Both ends of the authentication handshake as C keeps them: what they send is written to room of
//! the caller's. D-Bus Specification, "Authentication Protocol".
#![tactic(auto)]

mod client_side;
mod guid_text;
mod handshake;
mod mechanisms;
mod server_side;
mod step;

pub use client_side::ClientSide;
pub use guid_text::{GUID_ROOM, guid_of, write_guid};
pub use handshake::Handshake;
pub use mechanisms::{AS_REPORTED, AS_USER, Mechanisms};
pub use server_side::ServerSide;
pub use step::{REPLY_ROOM, Step, TakeFault};
