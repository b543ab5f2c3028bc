//! What the calls of an end return.

use std::alloc::{Allocator, Global};

/// The status of an end of a connection.
#[derive(Clone, Copy, PartialEq, Eq, Debug, Drop)]
pub enum Status {
    /// The handshake goes on.
    Talking,
    /// The handshake succeeded: the bytes that are not taken are messages.
    Begun,
    /// The handshake failed: close the connection.
    Closed,
}

/// What one call of an end did with its piece of bytes.
#[derive(Debug, Drop)]
#[derive_where(PartialEq, Eq)]
pub struct EndStep<A: Allocator = Global> {
    /// The number of bytes of the piece that were taken. Pass the others again.
    pub taken: usize,
    /// The bytes to send to the peer, which may be none.
    pub send: Vec<u8, A>,
    /// The end's status now.
    pub status: Status,
}
