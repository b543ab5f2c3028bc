//! Where a connection stands.
#![tactic(auto)]

ghost use Rattle.std.specs.Prelude.{◌≡◌, IfOk, OnErr, option_map};
ghost use Rattle.dbus_connection.specs.Answers.{Answers, gone_on};
ghost use Rattle.dbus_connection.specs.Shown.{answer, phase_stand, told};
ghost use Rattle.dbus_connection.specs.Standing.{is_open, stands_by, told_by};

use crate::client_side::ClientSide;
use crate::event::{Begun, Event, Step};
use crate::reading::read_past;
use crate::settings::Settings;
use dbus_auth::{EndStep, Guid, ServerEnd, Status};
use std::alloc::AllocError;

/// Where a connection stands.
#[derive(Drop)]
pub(crate) enum Phase {
    /// In the handshake, as a client.
    Client(ClientSide),
    /// In the handshake, as a server.
    Server(ServerEnd),
    /// Past the handshake, where so many bytes are skipped, of a message that is passed over.
    Messages(u64),
    /// It was refused, or the handshake failed.
    Closed,
}

impl Phase {
    /// Takes what bytes begin with, and goes on.
    ///
    /// `AllocError`: an allocation failed. Then nothing is changed.
    pub(crate) fn take<'a>(
        &mut self,
        bytes: &'a [u8],
        settings: Settings,
    ) -> Result<Step<'a>, AllocError>
        ensures answers { IfOk result (λ s.
            Answers settings (phase_stand self.old) bytes.now (answer s)) }
        ensures stands { IfOk result (λ s. phase_stand self.new ≡
            stands_by (gone_on (phase_stand self.old) bytes.now) (told s.event)) }
        ensures unchanged { OnErr result (phase_stand self.new ≡ phase_stand self.old) }
    {
        match self.answer(bytes, settings) {
            Ok(step) => {
                self.go_by(&step.event);
                Ok(step)
            }
            Err(failed) => Err(failed),
        }
    }

    // What the bytes begin with is taken, and what that is.
    fn answer<'a>(&mut self, bytes: &'a [u8], settings: Settings) -> Result<Step<'a>, AllocError>
        ensures answers { IfOk result (λ s.
            Answers settings (phase_stand self.old) bytes.now (answer s)) }
        ensures stands { IfOk result (λ _.
            phase_stand self.new ≡ gone_on (phase_stand self.old) bytes.now) }
        ensures unchanged { OnErr result (phase_stand self.new ≡ phase_stand self.old) }
    {
        match self {
            Phase::Client(side) => {
                let step = side.go_on(bytes)?;
                Ok(told_of(step, side.guid(), side.agreed()))
            }
            Phase::Server(end) => {
                let step = end.take(bytes)?;
                Ok(told_of(step, None, end.agreed()))
            }
            Phase::Messages(skip) => Ok(read_past(skip, bytes, settings)),
            Phase::Closed => Ok(Step {
                taken: 0,
                event: Event::Over,
            }),
        }
    }

    /// Whether messages may be sent.
    pub(crate) fn is_open(&self) -> bool
        ensures { result ≡ is_open (phase_stand self.now) }
    {
        matches!(self, Phase::Messages(_))
    }

    // Where it stands once this came.
    fn go_by(&mut self, event: &Event<'_>)
        ensures { phase_stand self.new ≡ stands_by (phase_stand self.old) (told event.now) }
    {
        match event {
            Event::Begun(_) => *self = Phase::Messages(0),
            Event::Passed(passed) => *self = Phase::Messages(passed.length),
            Event::Refused(_) | Event::Failed => *self = Phase::Closed,
            _ => {}
        }
    }
}

// What an end did, told.
fn told_of<'a>(step: EndStep, guid: Option<Guid>, agreed: bool) -> Step<'a>
    ensures taken { result.taken ≡ step.taken }
    ensures told { told result.event ≡
        told_by step.status step.send.items (option_map (λ g. g.0) guid) agreed }
{
    let EndStep {
        taken,
        send,
        status,
    } = step;
    let event = match status {
        Status::Talking => {
            if send.is_empty() {
                Event::Wants(1)
            } else {
                Event::Send(send)
            }
        }
        Status::Begun => Event::Begun(Begun { send, guid, agreed }),
        Status::Closed => Event::Failed,
    };
    Step { taken, event }
}
