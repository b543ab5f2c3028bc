//! An end of a handshake that a handle keeps.
#![tactic(auto)]

use crate::handle::WireHandle;
use crate::kept::Kept;
use dbus_auth::{Bounds, Guid};
use dbus_c_auth::{ClientSide, Handshake, Mechanisms, ServerSide, Step, TakeFault, guid_of};
use std::alloc::{AllocError, Global};

impl WireHandle {
    ghost use Rattle.std.specs.Prelude.{◌≡◌, None, MatchResult, is_some, option_map};
    ghost use Rattle.dbus_c_auth.specs.Handshakes.{agreed_in, client_made, server_made};
    ghost use Rattle.dbus_c_handle.specs.Checkers.{Goes, IsBounded, TellsGuid, handshake_of, kept_as};

    /// Keeps the end of a new server, of the GUID that the text spells, which offers these
    /// mechanisms. Whether the text spells one; if not, the handle keeps nothing. An error if
    /// memory runs out: then it keeps nothing either. What it kept before is not freed, since C may
    /// pass a handle that was never set.
    pub fn make_server(
        &mut self,
        alloc: Global,
        guid: &[u8],
        mechanisms: &Mechanisms,
    ) -> Result<bool, AllocError>
        ensures { MatchResult result
            (λ made.
            (made ≡ is_some (server_made guid.now mechanisms.now)) ×
            (self.new.state ≡ kept_as (server_made guid.now mechanisms.now)))
            (λ _. self.new.state ≡ None) }
    {
        *self = WireHandle::none();
        match guid_of(guid) {
            None => Ok(false),
            Some(guid) => {
                let server = Handshake::Server(ServerSide::new(alloc, guid, mechanisms));
                *self = WireHandle::of(Box::new(alloc, Kept::Handshake(server))?);
                Ok(true)
            }
        }
    }

    /// Keeps the end of a new client that asks for these mechanisms, with this trace of ANONYMOUS.
    /// Whether the trace has at most 255 bytes; if not, the handle keeps nothing. An error if
    /// memory runs out: then it keeps nothing either. What it kept before is not freed.
    pub fn make_client(
        &mut self,
        alloc: Global,
        mechanisms: &Mechanisms,
        trace: &[u8],
    ) -> Result<bool, AllocError>
        ensures { MatchResult result
            (λ made.
            (made ≡ is_some (client_made mechanisms.now trace.now)) ×
            (self.new.state ≡ kept_as (client_made mechanisms.now trace.now)))
            (λ _. self.new.state ≡ None) }
    {
        *self = WireHandle::none();
        match ClientSide::new(alloc, mechanisms, trace)? {
            None => Ok(false),
            Some(client) => {
                let client = Handshake::Client(client);
                *self = WireHandle::of(Box::new(alloc, Kept::Handshake(client))?);
                Ok(true)
            }
        }
    }

    /// Passes the end a piece, and writes what it sends to the room, as [`Handshake::take`] does;
    /// `None` if the handle keeps no end, and then it stays as it is.
    pub fn go_on(&mut self, piece: &[u8], reply: &mut [u8]) -> Option<Result<Step, TakeFault>>
        ensures { Goes (handshake_of self.old.state) self.old.state self.new.state piece.now reply.old reply.new result }
    {
        match self.kept()? {
            Kept::Handshake(handshake) => Some(handshake.take(piece, reply)),
            _ => None,
        }
    }

    /// Bounds what the end sends from here on, as [`Handshake::set_bounds`] does. Whether the
    /// handle keeps an end; if not, it stays as it is.
    pub fn set_bounds(&mut self, bounds: Bounds) -> bool
        ensures { IsBounded bounds (handshake_of self.old.state) self.old.state self.new.state result }
    {
        let Some(kept) = self.kept() else {
            return false;
        };
        match kept {
            Kept::Handshake(handshake) => {
                handshake.set_bounds(bounds);
                true
            }
            _ => false,
        }
    }

    /// The server's GUID, of a client that it has accepted; `None` if the handle keeps no end.
    pub fn guid(&mut self) -> Option<Option<Guid>>
        ensures same { self.new.state ≡ self.old.state }
        ensures guid { TellsGuid (handshake_of self.old.state) result }
    {
        Some(self.kept()?.handshake()?.guid())
    }

    /// Whether both ends agreed to pass descriptors; `None` if the handle keeps no end.
    pub fn agreed(&mut self) -> Option<bool>
        ensures same { self.new.state ≡ self.old.state }
        ensures agreed { result ≡ option_map agreed_in (handshake_of self.old.state) }
    {
        Some(self.kept()?.handshake()?.agreed())
    }
}

impl Kept {
    ghost use Rattle.std.specs.Prelude.{◌≡◌, Some, None, MatchOption};
    ghost use Rattle.dbus_c_handle.specs.Checkers.{handshake_of};

    // The end of a handshake; `None` if something else is kept.
    fn handshake(&self) -> Option<&Handshake>
        ensures { MatchOption result (handshake_of (Some self.now) ≡ None) (λ end. handshake_of (Some self.now) ≡ Some end.now) }
    {
        match self {
            Kept::Handshake(handshake) => Some(handshake),
            _ => None,
        }
    }
}
