//! A message with what it is to the calls that wait.
#![tactic(auto)]

use crate::event::{Event, event_of};
use dbus_view::MessageView;
use std::marker::Model;

/// A view of a message, and its [`Event`], which is worked out once for all that take the message.
///
/// ```rust
/// use dbus_calls::{Event, EventView};
/// use dbus_message::MessageView;
///
/// let view = MessageView::of(bytes)?;
/// match EventView::of(&view).event() {
///     Event::Call(call) => println!(rt; "call {} of {}", call.serial, call.caller)?,
///     Event::Reply(reply) => println!(rt; "reply to call {}", reply.serial)?,
///     _ => println!(rt; "neither a call nor a reply")?,
/// }
/// ```
#[derive(Drop)]
pub struct EventView<'v, 'a> {
    view: &'v MessageView<'a>,
    event: Event<'a>,
}

impl<'v, 'a> Model for EventView<'v, 'a> {
    ghost use Rattle.dbus_calls.specs.Events.{IsEventOf};
    ghost use Rattle.dbus_view.specs.Views.{ViewState};

    ghost Value = { ViewState };

    ghost view = { λ e. e.view.now };

    ghost invariant = { λ e. IsEventOf e.event e.view.now };
}

impl<'v, 'a> EventView<'v, 'a> {
    ghost use Rattle.std.specs.Prelude.{◌≡◌};
    ghost use Rattle.dbus_value_model.specs.declared.order.Order.{Order};
    ghost use Rattle.dbus_message_model.specs.Messages.{MessageTree};
    ghost use Rattle.dbus_view.specs.Views.{Views};
    ghost use Rattle.dbus_calls.specs.Events.{change_in, event_of, event_seen};
    ghost use Rattle.dbus_calls.specs.OwnerChanges.{change_of};

    /// The message of the view, with its event. It allocates nothing.
    pub fn of(view: &'v MessageView<'a>) -> EventView<'v, 'a>
        ensures { result ≡ view.now }
    {
        let event = event_of(view);
        EventView { view, event }
    }

    /// The view of the message.
    pub fn view(&self) -> &'v MessageView<'a>
        ensures { result.now ≡ self.now }
    {
        self.view
    }

    /// What the message is to the calls that wait for a reply, and what it says of the owner of a
    /// name. D-Bus Specification, "Message Types" and "Message Bus Messages"
    /// ("org.freedesktop.DBus.NameOwnerChanged").
    pub fn event(&self) -> Event<'a>
        ensures event { (order : Order) (m : MessageTree) → Views self.now order m → event_seen result ≡ event_of m }
        ensures change { (order : Order) (m : MessageTree) → Views self.now order m → change_in result ≡ change_of m }
    {
        self.event
    }
}
