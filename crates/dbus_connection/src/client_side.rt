//! A client's end that starts by itself.
#![tactic(auto)]

ghost use Rattle.std.specs.Prelude.{◌≡◌, false, IfOk, OnErr, option_map, if◌then◌else◌};
ghost use Rattle.dbus_auth.specs.EndStepViews.{DidStep};
ghost use Rattle.dbus_auth.specs.EndViews.{client_end_state};
ghost use Rattle.dbus_auth.specs.Machines.{is_empty};
ghost use Rattle.dbus_auth.specs.declared.end_step.Status.TheVariants as status;
ghost use Rattle.dbus_connection.specs.Answers.{client_goes_on};

use dbus_auth::{ClientEnd, EndStep, Guid, Status};
use std::alloc::AllocError;

/// A client's end. Its first call starts it.
#[derive(Drop)]
pub(crate) struct ClientSide {
    end: ClientEnd,
    started: bool,
    ghost same: { started ≡ (client_end_state end).started },
}

impl ClientSide {
    /// An end that has not started.
    pub(crate) fn new(end: ClientEnd) -> Self
        requires { (client_end_state end).started ≡ false }
        ensures { client_end_state result.end ≡ client_end_state end }
    {
        ClientSide {
            end,
            started: false,
        }
    }

    /// The first call starts the end, as [`ClientEnd::start`] does, and takes nothing. Each further
    /// one takes what [`ClientEnd::take`] does.
    ///
    /// Returns `AllocError` if an allocation failed. The end is unchanged then.
    pub(crate) fn go_on(&mut self, bytes: &[u8]) -> Result<EndStep, AllocError>
        ensures step { IfOk result (λ s.
            DidStep s (client_end_state self.new.end)
            (client_goes_on (client_end_state self.old.end) bytes.now)) }
        ensures err { OnErr result (client_end_state self.new.end ≡ client_end_state self.old.end) }
    {
        if self.started {
            return self.end.take(bytes);
        }
        let send = self.end.start()?;
        self.started = true;
        let status = started_as(&send);
        Ok(EndStep {
            taken: 0,
            send,
            status,
        })
    }

    /// The GUID of the server, once it has accepted the client.
    pub(crate) fn guid(&self) -> Option<Guid>
        ensures { option_map (λ g. g.0) result ≡ (client_end_state self.now.end).machine.guid }
    {
        self.end.guid()
    }

    /// Whether both ends agreed to pass descriptors.
    pub(crate) fn agreed(&self) -> bool
        ensures { result ≡ (client_end_state self.now.end).machine.agreed }
    {
        self.end.agreed()
    }
}

/// The status of an end that sent this at its start: without a mechanism it sends nothing.
fn started_as(send: &[u8]) -> Status
    ensures { result ≡ (if is_empty send.now then status.Closed else status.Talking) }
{
    if send.is_empty() {
        Status::Closed
    } else {
        Status::Talking
    }
}
