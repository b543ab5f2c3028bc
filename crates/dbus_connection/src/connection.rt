//! One side of a connection.
#![tactic(auto)]

ghost use Rattle.std.specs.Prelude.{◌≡◌, ◌≢◌, ◌∷◌, ◌+◌, ◌-◌, ◌^◌, min, true, false, IfOk, IfErr, OnErr, OnOk};

use crate::client_side::ClientSide;
use crate::event::Step;
use crate::handing::hand_out;
use crate::phase::Phase;
use crate::sending::{Asked, Outgoing, Unsent, destination_of};
use crate::settings::Settings;
use dbus_auth::{ClientEnd, ServerEnd};
use dbus_build::BuildFault;
use dbus_compose::MessageBuilder;
use dbus_descriptors::{Descriptors, NotTaken};
use dbus_encode::encode;
use dbus_message_model::Message;
use dbus_pending::{NotWaiting, Pending};
use dbus_value_model::Order;
use dbus_view::MessageView;
use std::alloc::{AllocError, Global};

/// One side of a connection, without input and output: the handshake, and then messages. Hand it
/// the bytes that come, and send those that it gives. D-Bus Specification, "Authentication
/// Protocol" and "Message Protocol".
///
/// It keeps an end of the handshake until messages begin, and no byte of a message: keep the bytes
/// that a call does not take, and hand them in again, with those that come after them. So a message
/// is seen in place. Of what is sent it keeps the last serial, and each call that waits.
///
/// ```rust
/// use dbus_auth::{Client, ClientEnd, Mechanism};
/// use dbus_calls::EventView;
/// use dbus_connection::{Connection, Event, Settings, Step};
/// use dbus_message::{Compose, Message};
/// use dbus_replies::reply_of;
/// use dbus_value::Limits;
/// use std::io::Write;
///
/// if let Ok(client) = Client::new(vec![in alloc; Mechanism::External(Some(1000))]?) {
///     let end = ClientEnd::new(alloc, client);
///     let limits = Limits::specification();
///     let settings = Settings { limits, longest: 1 << 20, calls: 128 };
///     let mut connection = Connection::client(alloc, end, settings);
///     // What came and was not taken, which may end anywhere: here a line, and a message.
///     let mut input = Vec::from_slice(alloc, b"OK 0123456789abcdef0123456789abcdef\r\n")?;
///     input.extend_from_slice(bytes)?;
///     for _ in 0..4 {
///         let Step { taken, event } = connection.take(&input)?;
///         match event {
///             Event::Wants(count) => println!(rt; "read until there are {count}")?,
///             Event::Send(send) => rt.stdout().write_all(&send)?,
///             Event::Begun(begun) => {
///                 rt.stdout().write_all(&begun.send)?;
///                 let ping = Message::call(alloc, "/", "Ping").destination("org.example.Lab");
///                 rt.stdout().write_all(&connection.call(ping, "Ping")?.bytes)?;
///             }
///             Event::Message(message) => {
///                 let message = EventView::of(&message.view);
///                 match reply_of(&mut connection.pending, &message) {
///                     Some(asked) => println!(rt; "{} is answered", asked.call)?,
///                     None => println!(rt; "serial {}", message.view().serial())?,
///                 }
///             }
///             Event::Passed(passed) => println!(rt; "{} bytes are too many", passed.length)?,
///             Event::Refused(fault) => println!(rt; "refused: {fault}")?,
///             Event::Failed | Event::Over => println!(rt; "close the connection")?,
///         }
///         input.drain(..taken);
///     }
/// }
/// ```
#[derive(Drop)]
pub struct Connection<T> {
    alloc: Global,
    phase: Phase,
    settings: Settings,
    taken: u64,
    /// The serials of what is sent, and the calls that wait for a reply. `reply_of` of
    /// `dbus_replies` takes the one that a message answers, [`Pending::take`] one that is given up.
    pub pending: Pending<Asked<T>>,
}

impl<T: Drop> Connection<T> {
    ghost use Rattle.dbus_auth.specs.EndViews.{client_end_state, server_end_state};
    ghost use Rattle.dbus_compose.specs.Drafts.{IsDraft, begun, drafted, name_field, reply_fields};
    ghost use Rattle.dbus_message_model.specs.MessageViews.{message_tree};
    ghost use Rattle.dbus_message_model.specs.Messages.{MessageTree};
    ghost use Rattle.dbus_message_model.specs.declared.field_code.TheConstants.{ERROR_NAME};
    ghost use Rattle.dbus_message_model.specs.declared.flag.TheConstants.{NO_REPLY_EXPECTED};
    ghost use Rattle.dbus_message_model.specs.declared.message_type.TheConstants.{ERROR, METHOD_RETURN};
    ghost use Rattle.dbus_value_model.specs.declared.order.Order.{Order};
    ghost use Rattle.dbus_view.specs.Views.{Views};
    ghost use Rattle.dbus_pending.specs.Waiting.{Stays, last};
    ghost use Rattle.dbus_descriptors.specs.Kept.{kept};
    ghost use Rattle.dbus_connection.specs.Answers.{Answers, gone_on};
    ghost use Rattle.dbus_connection.specs.Handing.{Hands, IsUnhanded};
    ghost use Rattle.dbus_connection.specs.Sending.{IsNextOf, IsSent, IsUnsent, Waits};
    ghost use Rattle.dbus_connection.specs.declared.sending.Unsent.TheVariants.{Full};
    ghost use Rattle.dbus_connection.specs.Shown.{IsAsBefore, IsNew, answer, phase_stand, settings_of, stand, taken_of, told};
    ghost use Rattle.dbus_connection.specs.Standing.{Client, Server, is_open, stands_by};

    /// The side of a client, by its end, which has not started. It allocates nothing.
    pub fn client(alloc: Global, end: ClientEnd, settings: Settings) -> Self
        requires { (client_end_state end).started ≡ false }
        ensures { IsNew (Client (client_end_state end)) settings result }
    {
        Connection::at(alloc, Phase::Client(ClientSide::new(end)), settings)
    }

    /// The side of a server, by its end. It allocates nothing.
    pub fn server(alloc: Global, end: ServerEnd, settings: Settings) -> Self
        ensures { IsNew (Server (server_end_state end)) settings result }
    {
        Connection::at(alloc, Phase::Server(end), settings)
    }

    // A connection that stands there, before anything was taken or sent.
    fn at(alloc: Global, phase: Phase, settings: Settings) -> Self
        ensures { IsNew (phase_stand phase) settings result }
    {
        Connection {
            alloc,
            phase,
            settings,
            taken: 0,
            pending: Pending::new(alloc, settings.calls),
        }
    }

    /// Takes what the bytes begin with, which are those that were not taken before and what came
    /// after them; and tells what came of it, one [`Event`](crate::Event) a call.
    ///
    /// In the handshake it takes at most one line, as the end does, and the first call of a client
    /// takes nothing. Past it, it takes one message once all of it is at hand. Before that it looks
    /// at the first 16 bytes alone, so a call takes no longer if many bytes wait. Of a message that
    /// is passed over it takes the bytes that are at hand.
    ///
    /// `AllocError`: an allocation failed. Then nothing is changed: hand in the same bytes again.
    pub fn take<'a>(&mut self, bytes: &'a [u8]) -> Result<Step<'a>, AllocError>
        ensures answers { IfOk result (λ s.
            Answers (settings_of self.old) (stand self.old) bytes.now (answer s)) }
        ensures stands { IfOk result (λ s. stand self.new ≡
            stands_by (gone_on (stand self.old) bytes.now) (told s.event)) }
        ensures taken { IfOk result (λ s.
            taken_of self.new ≡ min (2 ^ 64 - 1) (taken_of self.old + s.taken)) }
        ensures unchanged { OnErr result ((stand self.new ≡ stand self.old) ×
            (taken_of self.new ≡ taken_of self.old)) }
        ensures settings { settings_of self.new ≡ settings_of self.old }
        ensures pending { self.new.pending ≡ self.old.pending }
    {
        match self.phase.take(bytes, self.settings) {
            Ok(step) => {
                self.taken = self.taken.saturating_add(step.taken as u64);
                Ok(step)
            }
            Err(failed) => Err(failed),
        }
    }

    /// Takes what the bytes begin with, as [`Connection::take`] does, and appends a message's own
    /// descriptors to others. Keep those that came with a read before its bytes are handed in, by
    /// [`Descriptors::keep`]: their place is [`Connection::taken`] and the number of bytes that were
    /// there before the read and are not taken.
    ///
    /// Of a message that is passed over nobody knows how many are its own: those that came before
    /// its end are nobody's, as [`Descriptors::pass`] says. So are all if the ends of the handshake
    /// did not agree to pass any. D-Bus Specification, "Header Fields" (UNIX_FDS) and
    /// "NEGOTIATE_UNIX_FD Command".
    ///
    /// `TooFew`, `Over`: a message lacks descriptors at its end. It is taken, and the connection is
    /// closed. `Memory`: an allocation failed. Then nothing is changed: hand in the same bytes again.
    pub fn take_with<'a, D: Drop>(
        &mut self,
        bytes: &'a [u8],
        descriptors: &mut Descriptors<D>,
        others: &mut Vec<D>,
    ) -> Result<Step<'a>, NotTaken>
        ensures answers { IfOk result (λ s.
            Answers (settings_of self.old) (stand self.old) bytes.now (answer s)) }
        ensures stands { IfOk result (λ s. stand self.new ≡
            stands_by (gone_on (stand self.old) bytes.now) (told s.event)) }
        ensures taken { IfOk result (λ s.
            taken_of self.new ≡ min (2 ^ 64 - 1) (taken_of self.old + s.taken)) }
        ensures handed { IfOk result (λ s. Hands (taken_of self.new) (told s.event)
            (kept descriptors.old) (kept descriptors.new) others.old.items others.new.items) }
        ensures refused { IfErr result (λ why. IsUnhanded self.old self.new bytes.now
            (kept descriptors.old) (kept descriptors.new) why) }
        ensures others { OnErr result (others.new.items ≡ others.old.items) }
        ensures settings { settings_of self.new ≡ settings_of self.old }
        ensures pending { self.new.pending ≡ self.old.pending }
    {
        // The room for all that wait: once bytes are taken nothing may fail for want of it.
        if others.reserve(descriptors.waiting()).is_err() {
            return Err(NotTaken::Memory);
        }
        let Ok(step) = self.take(bytes) else {
            return Err(NotTaken::Memory);
        };
        match hand_out(&step.event, self.taken, descriptors, others) {
            Ok(()) => Ok(step),
            Err(why) => {
                self.phase = Phase::Closed;
                Err(why)
            }
        }
    }

    /// How many bytes were taken, those of the handshake among them: after a message, where that
    /// ends, as `dbus_descriptors` wants it. It stays at 2^64 - 1.
    pub fn taken(&self) -> u64
        ensures { result ≡ taken_of self.now }
    {
        self.taken
    }

    /// The bytes of the draft's message, which waits for no reply: a signal, a reply, an error, or a
    /// call that wants none. Its serial is the next one, in place of the draft's. D-Bus
    /// Specification, "Message Format".
    ///
    /// Errors are those of [`Unsent`], but `Full`. Then nothing is changed.
    pub fn send(&mut self, draft: MessageBuilder) -> Result<Outgoing, Unsent>
        ensures sent { IfOk result (λ sent. IsSent self.old.pending (drafted draft) sent) }
        ensures last { IfOk result (λ sent. last self.new.pending ≡ sent.serial) }
        ensures waiting { Stays self.old.pending self.new.pending }
        ensures refused { IfErr result (λ e. (e ≢ Full) ×
            IsUnsent self.old.pending (drafted draft) (stand self.old) e) }
        ensures unchanged { OnErr result (last self.new.pending ≡ last self.old.pending) }
        ensures same { IsAsBefore self.old self.new }
    {
        let message = self.message_of(draft)?;
        let bytes = encode(self.alloc, &message, Order::Little)?;
        let serial = self.pending.serial();
        Ok(Outgoing { serial, bytes })
    }

    /// The bytes of the draft's message as [`Connection::send`] returns them, of a call, which waits
    /// for its reply from now on, with what its caller wants to know again.
    ///
    /// A draft that wants no reply waits until [`Pending::take`] takes it, since no message answers
    /// it. Errors are those of [`Unsent`]. Then nothing is changed.
    pub fn call(&mut self, draft: MessageBuilder, call: T) -> Result<Outgoing, Unsent>
        ensures sent { IfOk result (λ sent. IsSent self.old.pending (drafted draft) sent) }
        ensures waits { IfOk result (λ sent.
            Waits self.old.pending self.new.pending (drafted draft) sent.serial call) }
        ensures refused { IfErr result (λ e.
            IsUnsent self.old.pending (drafted draft) (stand self.old) e) }
        ensures unchanged { OnErr result ((last self.new.pending ≡ last self.old.pending) ×
            Stays self.old.pending self.new.pending) }
        ensures same { IsAsBefore self.old self.new }
    {
        let message = self.message_of(draft)?;
        let bytes = encode(self.alloc, &message, Order::Little)?;
        let destination = destination_of(self.alloc, &message)?;
        match self.pending.call(Asked { destination, call }) {
            Ok(serial) => Ok(Outgoing { serial, bytes }),
            Err(NotWaiting::Full(_)) => Err(Unsent::Full),
            Err(NotWaiting::Memory(_)) => Err(Unsent::Unmade(BuildFault::Memory)),
        }
    }

    /// The draft of the reply to a call that came: its REPLY_SERIAL is the call's serial, and its
    /// DESTINATION the call's SENDER, if it has one. Give it values, and hand it to
    /// [`Connection::send`]. D-Bus Specification, "Header Fields".
    pub fn reply(&self, call: &MessageView<'_>) -> MessageBuilder
        ensures { (order : Order) (m : MessageTree) → Views call.now order m → IsDraft
            (begun METHOD_RETURN NO_REPLY_EXPECTED (reply_fields m))
            (drafted result) }
    {
        MessageBuilder::reply(self.alloc, call.serial(), call.sender())
    }

    /// The draft of the reply to a call that failed, with the error of this name; otherwise as
    /// [`Connection::reply`] says.
    pub fn error(&self, call: &MessageView<'_>, name: &str) -> MessageBuilder
        ensures { (order : Order) (m : MessageTree) → Views call.now order m → IsDraft
            (begun ERROR NO_REPLY_EXPECTED (name_field ERROR_NAME name.now ∷ reply_fields m))
            (drafted result) }
    {
        MessageBuilder::error(self.alloc, call.serial(), call.sender(), name)
    }

    // The draft's message, with the next serial.
    fn message_of(&self, draft: MessageBuilder) -> Result<Message, Unsent>
        ensures made { IfOk result (λ m.
            IsNextOf self.now.pending (drafted draft) (message_tree m)) }
        ensures stands { OnOk result (is_open (stand self.now) ≡ true) }
        ensures refused { IfErr result (λ e. (e ≢ Full) ×
            IsUnsent self.now.pending (drafted draft) (stand self.now) e) }
    {
        if !self.phase.is_open() {
            return Err(Unsent::NotOpen);
        }
        let serial = self.pending.next_serial();
        Ok(draft.serial(serial).build()?)
    }
}
