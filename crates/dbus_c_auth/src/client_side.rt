//! A client's end that writes what it sends to room of its caller's.
#![tactic(auto)]

ghost use Rattle.std.specs.Prelude.{◌≡◌, ◌<◌, ◌≤◌, ℕ, IfOk, IfErr, OnErr, length, MatchOption, true, false, option_map, if◌then◌else◌};
ghost use Rattle.dbus_auth.specs.Bounded.{within};
ghost use Rattle.dbus_auth.specs.EndStepViews.{DidStep};
ghost use Rattle.dbus_auth.specs.EndViews.{client_end_state};
ghost use Rattle.dbus_auth.specs.Machines.{is_empty};
ghost use Rattle.dbus_auth.specs.declared.end_step.Status.TheVariants as status;
ghost use Rattle.dbus_c_auth.specs.declared.step.TheConstants.{REPLY_ROOM};
ghost use Rattle.dbus_c_auth.specs.Handshakes.{client_of, Did, IsFault, client_goes_on};

use crate::mechanisms::Mechanisms;
use crate::step::{REPLY_ROOM, Step, TakeFault, step_in};
use dbus_auth::{Bounds, Client, ClientEnd, EndStep, Guid, Status};
use std::alloc::{AllocError, Global};
use std::marker::Model;

/// A client's end, which asks for some mechanisms. Its first call starts it.
#[derive(Drop)]
pub struct ClientSide {
    end: ClientEnd,
    started: bool,
}

impl Model for ClientSide {
    ghost use Rattle.std.specs.Coded.{codes};
    ghost use Rattle.std.specs.List.{AllByRecursion};
    ghost use Rattle.std.specs.Prelude.{◌≡◌};
    ghost use Rattle.dbus_auth.specs.EndViews.{client_end_state};
    ghost use Rattle.dbus_auth.specs.Ends.{ClientEndState};
    ghost use Rattle.dbus_auth.specs.Machines.{IsMechanism};
    ghost use Rattle.dbus_auth.specs.contracts.bounds.Bounds as bounds;
    ghost use Rattle.dbus_auth.specs.contracts.states.ClientState as state;
    ghost use Rattle.dbus_auth.specs.contracts.end_step.Status as status;
    ghost use Rattle.dbus_c_auth.specs.Mechanisms.{coded_mechanism};

    ghost Value = { ClientEndState };

    ghost coded = { Prim.hlevel (codes, coded_mechanism, bounds.the_row.coded, state.the_row.coded, status.the_row.coded) };

    ghost view = { λ c. client_end_state c.end };

    ghost invariant = { λ c. AllByRecursion IsMechanism (client_end_state c.end).machine.left ×
        (c.started ≡ (client_end_state c.end).started) };
}

impl ClientSide {
    /// The end of a client that has not started, and asks for these mechanisms, with this trace of
    /// ANONYMOUS.
    ///
    /// Returns `None` if the trace has over 255 bytes, and `AllocError` if an allocation failed.
    pub fn new(
        alloc: Global,
        mechanisms: &Mechanisms,
        trace: &[u8],
    ) -> Result<Option<Self>, AllocError>
        ensures { IfOk result (λ made. made ≡ client_of mechanisms.now trace.now) }
    {
        if trace.len() > 255 {
            return Ok(None);
        }
        match Client::new(mechanisms.asked_for(alloc, trace)?) {
            Err(_) => Ok(None),
            Ok(client) => Ok(Some(ClientSide {
                end: ClientEnd::new(
                    alloc,
                    client.with_descriptors(mechanisms.passes_descriptors()),
                ),
                started: false,
            })),
        }
    }

    /// The first call starts the end, as [`ClientEnd::start`] does, and takes nothing. Each further
    /// one takes at most one line of the piece, as [`ClientEnd::take`] does. What the end sends is
    /// written to the start of the room.
    ///
    /// Returns `Room` if there is less room than [`REPLY_ROOM`], and `Memory` if an allocation
    /// failed. Nothing is changed then.
    pub fn take(&mut self, piece: &[u8], reply: &mut [u8]) -> Result<Step, TakeFault>
        ensures did { IfOk result (λ s.
            Did s self.new reply.old reply.new (client_goes_on self.old piece.now) (λ e. e.status)) }
        ensures fault { IfErr result (λ f. IsFault f (length reply.old)) }
        ensures same { OnErr result ((self.new ≡ self.old) × (reply.new ≡ reply.old)) }
    {
        if reply.len() < REPLY_ROOM {
            return Err(TakeFault::Room);
        }
        let step = self.go_on(piece)?;
        Ok(step_in(&step, reply))
    }

    /// Bounds what the end sends from here on, as [`ClientEnd::set_bounds`] does.
    pub fn set_bounds(&mut self, bounds: Bounds)
        ensures { self.new ≡ within bounds self.old }
    {
        self.end.set_bounds(bounds);
    }

    /// The GUID of the server, once it has accepted the client.
    pub fn guid(&self) -> Option<Guid>
        ensures { option_map (λ g. g.0) result ≡ self.now.machine.guid }
    {
        self.end.guid()
    }

    /// Whether both ends agreed to pass descriptors, as [`ClientEnd::agreed`] says.
    pub fn agreed(&self) -> bool
        ensures { result ≡ self.now.machine.agreed }
    {
        self.end.agreed()
    }

    /// The end, if it has not started.
    pub fn into_unstarted(self) -> Option<ClientEnd>
        ensures { MatchOption result (self.started ≡ true) (λ end. (client_end_state end ≡ self) ×
            ((client_end_state end).started ≡ false) × (self.started ≡ false)) }
    {
        let ClientSide { end, started } = self;
        if started { None } else { Some(end) }
    }

    /// Starts the end, or hands it the piece.
    fn go_on(&mut self, piece: &[u8]) -> Result<EndStep, AllocError>
        ensures step { IfOk result (λ s.
            DidStep s self.new (client_goes_on self.old piece.now)) }
        ensures short { IfOk result (λ s. length s.send.items ≤ REPLY_ROOM) }
        ensures err { OnErr result (self.new ≡ self.old) }
    {
        if self.started {
            return self.end.take(piece);
        }
        let send = self.end.start()?;
        self.started = true;
        let status = started_as(&send);
        Ok(EndStep {
            taken: 0,
            send,
            status,
        })
    }
}

/// The status of an end that sent this at its start: without a mechanism it sends nothing.
fn started_as(send: &[u8]) -> Status
    ensures { result ≡ (if is_empty send.now then status.Closed else status.Talking) }
{
    if send.is_empty() {
        Status::Closed
    } else {
        Status::Talking
    }
}
