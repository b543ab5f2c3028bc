//! An end of a handshake, a server's or a client's.
#![tactic(auto)]

ghost use Rattle.std.specs.Prelude.{◌≡◌, option_map};
ghost use Rattle.dbus_c_auth.specs.Handshakes.{TakesIn, agreed_in, bounded, guid_in};

use crate::client_side::ClientSide;
use crate::server_side::ServerSide;
use crate::step::{Step, TakeFault};
use dbus_auth::{Bounds, Guid};

/// An end of a handshake.
#[derive(Drop)]
pub enum Handshake {
    /// A server's.
    Server(ServerSide),
    /// A client's.
    Client(ClientSide),
}

impl Handshake {
    /// Hands the end a piece, as [`ServerSide::take`] and [`ClientSide::take`] do, and writes what
    /// it sends to the start of the room.
    ///
    /// Returns `Room` if there is less room than [`crate::REPLY_ROOM`], and `Memory` if an
    /// allocation failed. Nothing is changed then.
    pub fn take(&mut self, piece: &[u8], reply: &mut [u8]) -> Result<Step, TakeFault>
        ensures { TakesIn self.old self.new piece.now reply.old reply.new result }
    {
        match self {
            Handshake::Server(server) => server.take(piece, reply),
            Handshake::Client(client) => client.take(piece, reply),
        }
    }

    /// Bounds what the end sends from here on, as [`ServerSide::set_bounds`] and
    /// [`ClientSide::set_bounds`] do.
    pub fn set_bounds(&mut self, bounds: Bounds)
        ensures { self.new ≡ bounded bounds self.old }
    {
        match self {
            Handshake::Server(server) => server.set_bounds(bounds),
            Handshake::Client(client) => client.set_bounds(bounds),
        }
    }

    /// The server's GUID, of a client that it has accepted.
    pub fn guid(&self) -> Option<Guid>
        ensures { option_map (λ g. g.0) result ≡ guid_in self.now }
    {
        match self {
            Handshake::Server(_) => None,
            Handshake::Client(client) => client.guid(),
        }
    }

    /// Whether both ends agreed to pass descriptors.
    pub fn agreed(&self) -> bool
        ensures { result ≡ agreed_in self.now }
    {
        match self {
            Handshake::Server(server) => server.agreed(),
            Handshake::Client(client) => client.agreed(),
        }
    }
}
