//! The D-Bus authentication handshake: its lines, the state machines of both sides, and the two
//! ends that run them over bytes as they come.
//!
//! Before the first message, client and server say who the client is, in lines of ASCII ended by CR
//! LF. [`read_client`], [`read_server`], [`client_text`] and [`server_text`] are the lines, and
//! [`LineCutter`] cuts them out of bytes that come in pieces; the crate `dbus_auth_lines` has them
//! all. [`Server`] and [`Client`] are the state machines, which know no bytes. [`ServerEnd`] and
//! [`ClientEnd`] are a machine over bytes: what a connection's owner holds until messages begin.
//! They take nothing after the end of the handshake, so what they leave is the first message.
//!
//! # What a caller owes
//!
//! **The user that [`Server::new`] gets has to be the one that the transport reports**, as
//! `SO_PEERCRED` does for a Unix socket, and not the one that the caller expects. `AUTH EXTERNAL`
//! with an empty identity means "the user that you see", and the server lets it in. So a server
//! made with a user that it did not learn from the transport lets anybody in as that user. A server
//! whose transport reports no user is made with `None`, and then offers no EXTERNAL.
//!
//! **A server for anybody gives its ends [`Bounds`],** 6 and 6: without them an end answers for as
//! long as its peer asks.
//!
//! # This profile
//!
//! EXTERNAL and ANONYMOUS are the mechanisms. A line has at most 16,384 bytes with its CR LF. Unless
//! told otherwise by [`Server::with_descriptors`], a server answers NEGOTIATE_UNIX_FD by ERROR; and
//! a client sends it only if told to by [`Client::with_descriptors`]. [`ServerEnd::agreed`] and
//! [`ClientEnd::agreed`] say what came of it. How descriptors then come with messages is up to the
//! transport.
//!
//! All is from the D-Bus Specification, section "Authentication Protocol".
#![tactic(auto)]

mod bounds;
mod client;
mod client_end;
mod copies;
mod end;
mod end_step;
pub mod laws;
mod server;
mod server_end;
mod states;

pub use bounds::Bounds;
pub use client::{Client, ClientAct, Mechanism};
pub use client_end::ClientEnd;
pub use dbus_auth_lines::{
    ClientLine, Guid, LineCutter, LineFault, ServerLine, TextFault, client_text, read_client,
    read_server, server_text,
};
pub use end_step::{EndStep, Status};
pub use server::{Server, ServerAct};
pub use server_end::ServerEnd;
pub use states::{ClientState, ServerState};
