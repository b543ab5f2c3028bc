//! One side of a connection that is kept from call to call.
#![tactic(auto)]

use crate::kept_step::{KeptStep, What};
use dbus_c_auth::Handshake;
use dbus_calls::EventView;
use dbus_connection::{Asked, Begun, Connection, Event, Incoming, Settings, Step};
use dbus_descriptors::{Came, Descriptors, NotTaken};
use dbus_pending::NotWaiting;
use dbus_replies::reply_of;
use std::alloc::{AllocError, Global};

/// How many descriptors may wait for their messages: as many as Linux passes at once.
pub const MOST_DESCRIPTORS: usize = 253;

/// Why a call does not wait.
#[derive(Clone, Copy, Drop)]
pub enum NoCall {
    /// As many calls wait for a reply as may.
    Full,
    /// An allocation failed.
    Memory,
}

impl From<AllocError> for NoCall {
    ghost use Rattle.std.specs.Prelude.{◌≡◌};
    ghost use Rattle.dbus_c_connection.specs.declared.kept_connection.NoCall.TheVariants.{Memory};

    ghost from_gives = { λ _ e. e ≡ Memory };

    fn from(_: AllocError) -> Self {
        NoCall::Memory
    }
}

/// One side of a connection, with what it has to send, a number for each call that waits, and where
/// the descriptors came that no message has. These themselves its caller keeps, in order.
#[derive(Drop)]
pub struct KeptConnection {
    connection: Connection<u64>,
    unsent: Vec<u8>,
    descriptors: Descriptors<()>,
    own: Vec<()>,
}

impl KeptConnection {
    ghost use Rattle.std.specs.Prelude.{◌≡◌, [], IfOk, MatchResult, option_map};
    ghost use Rattle.dbus_connection.specs.Shown.{told};
    ghost use Rattle.dbus_c_connection.specs.Kept.{Calls, GivesUp, IsMade, IsSame, IsSide, IsWhat, KeepsOne, Numbers, Sends, Takes, calls, sent_by, told_message, unsent, unstarted};

    /// The side of an end. `None` of a client's that has started. `AllocError`: the allocation failed
    /// of room for [`MOST_DESCRIPTORS`].
    pub fn new(
        alloc: Global,
        end: Handshake,
        settings: Settings,
    ) -> Result<Option<Self>, AllocError>
        ensures { IfOk result (λ made. IsMade (unstarted end) settings made) }
    {
        let connection = match end {
            Handshake::Client(side) => {
                let Some(end) = side.into_unstarted() else {
                    return Ok(None);
                };
                Connection::client(alloc, end, settings)
            }
            Handshake::Server(side) => Connection::server(alloc, side.into_end(), settings),
        };
        Ok(Some(KeptConnection {
            connection,
            unsent: Vec::new(alloc),
            descriptors: Descriptors::new(alloc, MOST_DESCRIPTORS)?,
            own: Vec::new(alloc),
        }))
    }

    /// Keeps that a descriptor came with a read, before which so many bytes were at hand that are not
    /// taken, as [`Descriptors::keep`] does: tell each before the bytes of its read are handed in.
    /// Whether it is kept; if not, close it, and no message has any from then on.
    pub fn keep_descriptor(&mut self, at_hand: u64) -> bool
        ensures { KeepsOne self.old self.new at_hand result }
    {
        let place = self.connection.taken().saturating_add(at_hand);
        let came = Came {
            place,
            descriptor: (),
        };
        self.descriptors.keep(came).is_ok()
    }

    /// Takes what the bytes begin with, as [`Connection::take_with`] does, and takes the call that a
    /// message answers, as [`reply_of`] does. Nothing is taken while there are bytes to send.
    ///
    /// `AllocError`: an allocation failed. Then nothing is changed: hand in the same bytes again.
    pub fn take(&mut self, bytes: &[u8]) -> Result<KeptStep, AllocError>
        ensures { MatchResult result (λ came. Takes self.old self.new bytes.now came) (λ _. IsSame self.old self.new) }
    {
        if !self.unsent.is_empty() {
            return Ok(KeptStep {
                taken: 0,
                what: What::Unsent,
            });
        }
        self.own.clear();
        match self
            .connection
            .take_with(bytes, &mut self.descriptors, &mut self.own)
        {
            Ok(Step { taken, event }) => {
                let what = self.keep(event);
                Ok(KeptStep { taken, what })
            }
            Err(NotTaken::Memory) => Err(AllocError),
            Err(NotTaken::TooFew | NotTaken::Over) => Ok(KeptStep {
                taken: 0,
                what: What::TooFew,
            }),
        }
    }

    // What is told of what came. The bytes to send are kept.
    fn keep(&mut self, event: Event<'_>) -> What
        requires { unsent self.old ≡ [] }
        ensures what { IsWhat (calls self.old) (calls self.new) (told event.entry) result }
        ensures unsent { unsent self.new ≡ sent_by (told event.entry) }
        ensures side { IsSide self.old self.new }
    {
        match event {
            Event::Wants(count) => What::Wants(count),
            Event::Send(send) => {
                self.unsent = send;
                What::Unsent
            }
            Event::Begun(begun) => {
                let Begun { send, guid, agreed } = begun;
                self.unsent = send;
                What::Begun { guid, agreed }
            }
            Event::Message(message) => self.message(&message),
            Event::Passed(passed) => What::Passed(passed),
            Event::Refused(fault) => What::Refused(fault),
            Event::Failed => What::Failed,
            Event::Over => What::Over,
        }
    }

    /// Writes the bytes to send to the start of the room, and keeps them no longer. Returns how many
    /// they are. If that is more than the room has, nothing is changed.
    pub fn send(&mut self, room: &mut [u8]) -> usize
        ensures { Sends self.old self.new room.old room.new result }
    {
        let count = self.unsent.len();
        if count <= room.len() {
            room[..count].copy_from_slice(&self.unsent);
            self.unsent.clear();
        }
        count
    }

    /// The serial of a message that is sent now and waits for no reply.
    pub fn serial(&mut self) -> u32
        ensures { Numbers self.old self.new result }
    {
        self.connection.pending.serial()
    }

    /// The serial of a call that is sent now, to this name if it has one, and waits from now on.
    ///
    /// `Full`, `Memory`: see [`NoCall`]. Then nothing is changed.
    pub fn call(
        &mut self,
        alloc: Global,
        destination: Option<&str>,
        call: u64,
    ) -> Result<u32, NoCall>
        ensures { Calls self.old self.new (option_map (λ d. d.now) destination.entry) call result }
    {
        let destination = match destination {
            Some(name) => Some(String::from_str(alloc, name)?),
            None => None,
        };
        match self.connection.pending.call(Asked { destination, call }) {
            Ok(serial) => Ok(serial),
            Err(NotWaiting::Full(_)) => Err(NoCall::Full),
            Err(NotWaiting::Memory(_)) => Err(NoCall::Memory),
        }
    }

    /// The call of this serial, if it waits: it waits no longer.
    pub fn give_up(&mut self, serial: u32) -> Option<u64>
        ensures { GivesUp self.old self.new serial result }
    {
        match self.connection.pending.take(serial) {
            Some(asked) => Some(asked.call),
            None => None,
        }
    }

    // What is told of a message. The call that it answers waits no longer.
    fn message(&mut self, message: &Incoming<'_>) -> What
        ensures what { IsWhat (calls self.old) (calls self.new) (told_message message.now) result }
        ensures unsent { unsent self.new ≡ unsent self.old }
        ensures side { IsSide self.old self.new }
    {
        let event = EventView::of(&message.view);
        let call = match reply_of(&mut self.connection.pending, &event) {
            Some(asked) => Some(asked.call),
            None => None,
        };
        What::Message {
            length: message.view.bytes().len(),
            fds: message.fds,
            call,
        }
    }
}
