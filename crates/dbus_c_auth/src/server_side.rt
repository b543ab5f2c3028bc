//! A server's end that writes what it sends to room of its caller's.
#![tactic(auto)]

ghost use Rattle.std.specs.Prelude.{◌≡◌, ◌<◌, ◌≤◌, ℕ, IfOk, IfErr, OnErr, length};
ghost use Rattle.dbus_auth.specs.Bounded.{within};
ghost use Rattle.dbus_auth.specs.EndViews.{server_end_state};
ghost use Rattle.dbus_auth.specs.Ends.{server_takes};
ghost use Rattle.dbus_c_auth.specs.Handshakes.{server_of, Did, IsFault};

use crate::mechanisms::Mechanisms;
use crate::step::{REPLY_ROOM, Step, TakeFault, step_in};
use dbus_auth::{Bounds, Guid, Server, ServerEnd};
use std::alloc::Global;
use std::marker::Model;

/// A server's end, which offers some mechanisms.
#[derive(Drop)]
pub struct ServerSide {
    end: ServerEnd,
}

impl Model for ServerSide {
    ghost use Rattle.std.specs.Coded.{codes};
    ghost use Rattle.dbus_auth.specs.Ends.{ServerEndState};
    ghost use Rattle.dbus_auth.specs.Machines.{IsServer};
    ghost use Rattle.dbus_auth.specs.EndViews.{server_end_state};
    ghost use Rattle.dbus_auth.specs.contracts.bounds.Bounds as bounds;
    ghost use Rattle.dbus_auth.specs.contracts.states.ServerState as state;
    ghost use Rattle.dbus_auth.specs.contracts.end_step.Status as status;

    ghost Value = { ServerEndState };

    ghost coded = { Prim.hlevel (codes, bounds.the_row.coded, state.the_row.coded, status.the_row.coded) };

    ghost view = { λ s. server_end_state s.end };

    ghost invariant = { λ s. IsServer (server_end_state s.end).machine };
}

impl ServerSide {
    /// The end of a server of this GUID that offers these mechanisms. It allocates nothing yet.
    pub fn new(alloc: Global, guid: Guid, mechanisms: &Mechanisms) -> Self
        ensures { result ≡ server_of guid.0 mechanisms.now }
    {
        let server = Server::new(
            guid,
            mechanisms.user_reported(),
            mechanisms.is_anonymous(),
        ).with_descriptors(mechanisms.passes_descriptors());
        ServerSide {
            end: ServerEnd::new(alloc, server),
        }
    }

    /// The end, with nothing around it.
    pub fn into_end(self) -> ServerEnd
        ensures { server_end_state result ≡ self }
    {
        self.end
    }

    /// Bounds what the end sends from here on, as [`ServerEnd::set_bounds`] does.
    pub fn set_bounds(&mut self, bounds: Bounds)
        ensures { self.new ≡ within bounds self.old }
    {
        self.end.set_bounds(bounds);
    }

    /// Whether both ends agreed to pass descriptors, as [`ServerEnd::agreed`] says.
    pub fn agreed(&self) -> bool
        ensures { result ≡ self.now.machine.agreed }
    {
        self.end.agreed()
    }

    /// Takes at most one line of the piece, as [`ServerEnd::take`] does, and writes what it sends
    /// to the start of the room.
    ///
    /// Returns `Room` if there is less room than [`REPLY_ROOM`], and `Memory` if an allocation
    /// failed. Nothing is changed then.
    #[tactic(auto)]
    pub fn take(&mut self, piece: &[u8], reply: &mut [u8]) -> Result<Step, TakeFault>
        ensures did { IfOk result (λ s.
            Did s self.new reply.old reply.new (server_takes self.old piece.now) (λ e. e.status)) }
        ensures fault { IfErr result (λ f. IsFault f (length reply.old)) }
        ensures same { OnErr result ((self.new ≡ self.old) × (reply.new ≡ reply.old)) }
    {
        if reply.len() < REPLY_ROOM {
            return Err(TakeFault::Room);
        }
        let step = self.end.take(piece)?;
        Ok(step_in(&step, reply))
    }
}
