//! The lines of the handshake, as both sides send them.
//! D-Bus Specification, "Authentication Protocol", "Protocol Overview".

use std::alloc::{Allocator, Global};

/// The GUID by which a server names the address that it listens on. In a line it is 32 hexadecimal
/// digits. D-Bus Specification, "OK Command".
#[derive(Clone, Copy, PartialEq, Eq, Debug, Drop)]
pub struct Guid(pub [u8; 16]);

/// A line that a client sends.
#[derive(Debug, Drop)]
#[derive_where(PartialEq, Eq)]
pub enum ClientLine<A: Allocator = Global> {
    /// `AUTH` alone, which asks for the server's mechanisms.
    Auth,
    /// `AUTH` with a mechanism and its initial response. No response is the empty one.
    AuthBy {
        /// The mechanism's name.
        mech: Vec<u8, A>,
        /// The response, read from its hexadecimal digits.
        response: Vec<u8, A>,
    },
    /// `CANCEL`, which gives the mechanism up.
    Cancel,
    /// `BEGIN`, the last line: messages follow.
    Begin,
    /// `DATA` and its bytes, which may be none.
    DataOf(Vec<u8, A>),
    /// `ERROR` and its text, which may be empty.
    Error(Vec<u8, A>),
    /// `NEGOTIATE_UNIX_FD`, which asks to pass descriptors.
    Negotiate,
    /// Any other line.
    Other,
}

/// A line that a server sends.
#[derive(Debug, Drop)]
#[derive_where(PartialEq, Eq)]
pub enum ServerLine<A: Allocator = Global> {
    /// `REJECTED` and the mechanisms that the server offers.
    Rejected(Vec<Vec<u8, A>, A>),
    /// `OK` and the server's GUID.
    Accepted(Guid),
    /// `DATA` and its bytes, which may be none.
    DataOf(Vec<u8, A>),
    /// `ERROR` and its text, which may be empty.
    Error(Vec<u8, A>),
    /// `AGREE_UNIX_FD`, which agrees to pass descriptors.
    Agree,
    /// Any other line.
    Other,
}
