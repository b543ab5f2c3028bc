//! Copies of what a call of an end or of a state machine answers, and of mechanisms.
#![tactic(auto)]

ghost use Rattle.std.specs.Prelude.{◌≡◌};
ghost use Rattle.dbus_auth.specs.EndStepViews.{end_answer};
ghost use Rattle.dbus_auth.specs.ClientViews.{client_action, client_mechanism};
ghost use Rattle.dbus_auth.specs.ServerViews.{server_action};

use crate::client::{ClientAct, Mechanism};
use crate::end_step::EndStep;
use crate::server::ServerAct;
use std::alloc::{AllocError, Allocator};

impl<A: Allocator + Clone> Clone for EndStep<A> {
    ghost is_clone = { λ step copy. end_answer copy ≡ end_answer step };

    /// A step that says the same, its bytes in memory of its own from the same allocator.
    ///
    /// Returns `AllocError` if an allocation failed, and nothing of the copy is left then.
    fn clone(&self) -> Result<EndStep<A>, AllocError> {
        Ok(EndStep {
            taken: self.taken,
            send: self.send.clone()?,
            status: self.status,
        })
    }
}

impl<A: Allocator + Clone> Clone for Mechanism<A> {
    ghost is_clone = { λ mechanism copy. client_mechanism copy ≡ client_mechanism mechanism };

    /// A mechanism that says the same, its trace in memory of its own from the same allocator.
    ///
    /// Returns `AllocError` if an allocation failed, and nothing of the copy is left then.
    fn clone(&self) -> Result<Mechanism<A>, AllocError> {
        match self {
            Mechanism::External(user) => Ok(Mechanism::External(*user)),
            Mechanism::Anonymous(trace) => Ok(Mechanism::Anonymous(trace.clone()?)),
        }
    }
}

impl<A: Allocator + Clone> Clone for ClientAct<A> {
    ghost is_clone = { λ act copy. client_action copy ≡ client_action act };

    /// An act that does the same, its line in memory of its own from the same allocator.
    ///
    /// Returns `AllocError` if an allocation failed, and nothing of the copy is left then.
    fn clone(&self) -> Result<ClientAct<A>, AllocError> {
        match self {
            ClientAct::Send(line) => Ok(ClientAct::Send(line.clone()?)),
            ClientAct::Begin => Ok(ClientAct::Begin),
            ClientAct::Disconnect => Ok(ClientAct::Disconnect),
        }
    }
}

impl<A: Allocator + Clone> Clone for ServerAct<A> {
    ghost is_clone = { λ act copy. server_action copy ≡ server_action act };

    /// An act that does the same, its line in memory of its own from the same allocator.
    ///
    /// Returns `AllocError` if an allocation failed, and nothing of the copy is left then.
    fn clone(&self) -> Result<ServerAct<A>, AllocError> {
        match self {
            ServerAct::Send(line) => Ok(ServerAct::Send(line.clone()?)),
            ServerAct::Begin => Ok(ServerAct::Begin),
            ServerAct::Disconnect => Ok(ServerAct::Disconnect),
        }
    }
}
