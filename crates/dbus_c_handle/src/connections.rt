//! One side of a connection that a handle keeps.
#![tactic(auto)]

use crate::handle::WireHandle;
use crate::kept::Kept;
use dbus_c_auth::Handshake;
use dbus_c_connection::{KeptConnection, KeptStep, NoCall};
use dbus_connection::Settings;
use std::alloc::{AllocError, Global};

impl WireHandle {
    ghost use Rattle.std.specs.Prelude.{◌≡◌, None, MatchResult, option_map};
    ghost use Rattle.dbus_c_connection.specs.Kept.{Calls, GivesUp, IsSame, KeepsOne, Numbers, Takes};
    ghost use Rattle.dbus_c_handle.specs.Checkers.{handshake_of};
    ghost use Rattle.dbus_c_handle.specs.Connections.{Changes, Connects, SendsFrom, connection_of, start_of};

    /// Keeps the connection of the end that another handle keeps, which keeps nothing from then on.
    /// Whether there was one, and no client's that has started; if not, this handle keeps nothing.
    /// An error if memory runs out: then it keeps nothing either. What it kept before is not freed.
    pub fn make_connection(
        &mut self,
        alloc: Global,
        handshake: &mut WireHandle,
        settings: Settings,
    ) -> Result<bool, AllocError>
        ensures taken { handshake.new.state ≡ None }
        ensures made { MatchResult result
            (λ made. Connects (start_of (handshake_of handshake.old.state)) settings self.new.state made)
            (λ _. self.new.state ≡ None) }
    {
        *self = WireHandle::none();
        let Some(end) = handshake.take_end(alloc) else {
            return Ok(false);
        };
        match KeptConnection::new(alloc, end, settings)? {
            None => Ok(false),
            Some(connection) => {
                *self = WireHandle::of(Box::new(alloc, Kept::Connection(connection))?);
                Ok(true)
            }
        }
    }

    // The end that the handle kept. From then on it keeps nothing.
    fn take_end(&mut self, alloc: Global) -> Option<Handshake>
        ensures nothing { self.new.state ≡ None }
        ensures end { result ≡ handshake_of self.old.state }
    {
        match Box::into_inner(self.take_box(alloc)?) {
            Kept::Handshake(end) => Some(end),
            _ => None,
        }
    }

    /// Hands the connection what came, as [`KeptConnection::take`] takes it; `None` if the handle
    /// keeps no connection, and then it stays as it is.
    pub fn take_bytes(&mut self, bytes: &[u8]) -> Option<Result<KeptStep, AllocError>>
        ensures { Changes (λ k n r. MatchResult r (Takes k n bytes.now) (λ _. IsSame k n))
            (connection_of self.old.state) self.old.state self.new.state result }
    {
        match self.kept()? {
            Kept::Connection(connection) => Some(connection.take(bytes)),
            _ => None,
        }
    }

    /// Keeps that a descriptor came, as [`KeptConnection::keep_descriptor`] does; `None` if the handle
    /// keeps no connection, and then it stays as it is.
    pub fn keep_descriptor(&mut self, at_hand: u64) -> Option<bool>
        ensures { Changes (λ k n r. KeepsOne k n at_hand r)
            (connection_of self.old.state) self.old.state self.new.state result }
    {
        match self.kept()? {
            Kept::Connection(connection) => Some(connection.keep_descriptor(at_hand)),
            _ => None,
        }
    }

    /// Writes what the connection has to send to the room, as [`KeptConnection::send`] does; `None`
    /// if the handle keeps no connection, and then nothing is changed.
    pub fn send(&mut self, room: &mut [u8]) -> Option<usize>
        ensures { SendsFrom (connection_of self.old.state) self.old.state self.new.state room.old room.new result }
    {
        match self.kept()? {
            Kept::Connection(connection) => Some(connection.send(room)),
            _ => None,
        }
    }

    /// The serial of a message that waits for no reply, as [`KeptConnection::serial`] returns it;
    /// `None` if the handle keeps no connection, and then it stays as it is.
    pub fn serial(&mut self) -> Option<u32>
        ensures { Changes Numbers (connection_of self.old.state) self.old.state self.new.state result }
    {
        match self.kept()? {
            Kept::Connection(connection) => Some(connection.serial()),
            _ => None,
        }
    }

    /// The serial of a call that waits for its reply, as [`KeptConnection::call`] returns it;
    /// `None` if the handle keeps no connection, and then it stays as it is.
    pub fn call(
        &mut self,
        alloc: Global,
        destination: Option<&str>,
        call: u64,
    ) -> Option<Result<u32, NoCall>>
        ensures { Changes (λ k n r. Calls k n (option_map (λ d. d.now) destination.entry) call r)
            (connection_of self.old.state) self.old.state self.new.state result }
    {
        match self.kept()? {
            Kept::Connection(connection) => Some(connection.call(alloc, destination, call)),
            _ => None,
        }
    }

    /// Gives up the call of this serial, as [`KeptConnection::give_up`] does; `None` if the handle
    /// keeps no connection, and then it stays as it is.
    pub fn give_up(&mut self, serial: u32) -> Option<Option<u64>>
        ensures { Changes (λ k n r. GivesUp k n serial r)
            (connection_of self.old.state) self.old.state self.new.state result }
    {
        match self.kept()? {
            Kept::Connection(connection) => Some(connection.give_up(serial)),
            _ => None,
        }
    }
}
