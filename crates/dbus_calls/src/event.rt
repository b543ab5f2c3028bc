//! What a message is to the calls that wait for a reply.
#![tactic(auto)]

ghost use Rattle.std.specs.Prelude.{◌≡◌, option_map};
ghost use Rattle.dbus_value_model.specs.declared.order.Order.{Order};
ghost use Rattle.dbus_message_model.specs.Messages.{MessageTree};
ghost use Rattle.dbus_view.specs.Views.{Views};
ghost use Rattle.dbus_calls.specs.Changes.{change_seen};
ghost use Rattle.dbus_calls.specs.Events.{caller_of, change_in, event_of, event_seen, replied_to, reply_serial_of, sender_of, wants_reply};
ghost use Rattle.dbus_calls.specs.OwnerChanges.{change_of};

use crate::answering::is_unique;
use crate::changes::{OwnerChange, owner_change};
use dbus_message_model::flag::NO_REPLY_EXPECTED;
use dbus_message_model::message_type::{ERROR, METHOD_CALL, METHOD_RETURN};
use dbus_view::MessageView;

/// A call.
#[derive(Clone, Copy)]
pub struct CallSeen<'a> {
    /// Its SENDER, or no text if it has none.
    pub caller: &'a str,
    /// Its serial.
    pub serial: u32,
    /// Whether its flag NO_REPLY_EXPECTED is not set.
    pub wants_reply: bool,
}

/// A METHOD_RETURN or an ERROR.
#[derive(Clone, Copy)]
pub struct ReplySeen<'a> {
    /// Its DESTINATION, or no text if it has none.
    pub caller: &'a str,
    /// Its REPLY_SERIAL.
    pub serial: u32,
    /// Its SENDER.
    pub sender: Option<&'a str>,
}

/// What a message is to the calls that wait for a reply.
#[derive(Clone, Copy)]
pub enum Event<'a> {
    /// A call.
    Call(CallSeen<'a>),
    /// A reply to a call.
    Reply(ReplySeen<'a>),
    /// The bus says that nobody has this unique name any more: its connection is gone.
    Departure(&'a str),
    /// Any other message, and what the bus says by it of the owner of a name, if it says that.
    Other(Option<OwnerChange<'a>>),
}

impl<'a> Event<'a> {
    /// What the bus says of the owner of a name, if it says that.
    pub fn change(&self) -> Option<OwnerChange<'a>>
        ensures { option_map change_seen result ≡ change_in self.now }
    {
        match self {
            Event::Departure(name) => Some(OwnerChange::Free(name)),
            Event::Other(change) => *change,
            _ => None,
        }
    }
}

/// What the message of the view is to the calls that wait for a reply, and what it says of the owner
/// of a name. It allocates nothing. D-Bus Specification, "Message Types", "Header Fields" and
/// "Message Bus Messages" ("org.freedesktop.DBus.NameOwnerChanged").
pub(crate) fn event_of<'a>(view: &MessageView<'a>) -> Event<'a>
    ensures event { (order : Order) (m : MessageTree) → Views view.now order m → event_seen result ≡ event_of m }
    ensures change { (order : Order) (m : MessageTree) → Views view.now order m → change_in result ≡ change_of m }
{
    match view.kind() {
        METHOD_CALL => Event::Call(call_seen(view)),
        METHOD_RETURN | ERROR => Event::Reply(reply_seen(view)),
        _ => match owner_change(view) {
            Some(OwnerChange::Free(name)) if is_unique(name) => Event::Departure(name),
            change => Event::Other(change),
        },
    }
}

// What is seen of a call.
fn call_seen<'a>(view: &MessageView<'a>) -> CallSeen<'a>
    ensures caller { (order : Order) (m : MessageTree) → Views view.now order m → result.caller.now ≡ caller_of m }
    ensures serial { (order : Order) (m : MessageTree) → Views view.now order m → result.serial ≡ m.serial }
    ensures wants_reply { (order : Order) (m : MessageTree) → Views view.now order m →
        result.wants_reply ≡ wants_reply m }
{
    CallSeen {
        caller: view.sender().unwrap_or(""),
        serial: view.serial(),
        wants_reply: view.flags() & NO_REPLY_EXPECTED == 0,
    }
}

// What is seen of a reply.
fn reply_seen<'a>(view: &MessageView<'a>) -> ReplySeen<'a>
    ensures caller { (order : Order) (m : MessageTree) → Views view.now order m → result.caller.now ≡ replied_to m }
    ensures serial { (order : Order) (m : MessageTree) → Views view.now order m → result.serial ≡ reply_serial_of m }
    ensures sender { (order : Order) (m : MessageTree) → Views view.now order m →
        option_map (λ s. s.now) result.sender ≡ sender_of m }
{
    ReplySeen {
        caller: view.destination().unwrap_or(""),
        serial: view.reply_serial().unwrap_or(0),
        sender: view.sender(),
    }
}
