//! The calls of an input that wait for their replies.
#![tactic(auto)]

ghost use Rattle.std.specs.Prelude.{◌≡◌, ◌++◌, [], ◌∷◌, List, IfOk, OnOk, option_map, string_bytes};
ghost use Rattle.dbus_value_model.specs.declared.order.Order.{Order};
ghost use Rattle.dbus_message_model.specs.Messages.{MessageTree};
ghost use Rattle.dbus_view.specs.Views.{Views};
ghost use Rattle.dbus_calls.specs.Events.{event_of};
ghost use Rattle.dbus_calls.specs.Events.Event.{Calls};
ghost use Rattle.dbus_call_lines.specs.Listing.{Numbered, nth};
ghost use Rattle.dbus_list.specs.Pairs.{KeepsCalls, TellsCall, kept, kept_of, told};

use crate::known_call::{CallParts, KnownCall};
use crate::names::member_of;
use dbus_call_lines::Place;
use dbus_calls::{CallSeen, Event, EventView, OpenCalls};
use dbus_view::MessageView;
use std::alloc::{AllocError, Global};

/// The calls of an input that wait for their replies: [`CallTable::take`] takes its messages one
/// after the other. D-Bus Specification, "Message Types" ("Method Calls").
///
/// It holds memory for the open calls alone, of each its MEMBER and its DESTINATION. A message
/// takes time for its own header and the logarithm of the number of open calls.
#[derive(Drop)]
pub struct CallTable {
    alloc: Global,
    pub(crate) open: OpenCalls<KnownCall>,
}

impl CallTable {
    /// That of an input of which no message was taken. It allocates nothing.
    pub fn new(alloc: Global) -> CallTable
        ensures { KeepsCalls [] result }
    {
        CallTable {
            alloc,
            open: OpenCalls::new(alloc),
        }
    }

    /// Takes the message, which is at this place, and returns the call that it answers, if it is a
    /// reply to one that waits.
    ///
    /// `AllocError`: an allocation failed. Then the table is not to be used again.
    pub fn take(
        &mut self,
        place: Place,
        message: &EventView,
    ) -> Result<Option<KnownCall>, AllocError>
        ensures keeps { (order : Order) (m : MessageTree) → Views message.now order m →
            (before : List Numbered) → KeepsCalls before self.old →
            OnOk result (KeepsCalls (before ++ nth place m ∷ []) self.new) }
        ensures answered { (order : Order) (m : MessageTree) → Views message.now order m →
            (before : List Numbered) → KeepsCalls before self.old →
            IfOk result (λ call. TellsCall before (nth place m) (option_map (told place.time) call)) }
    {
        match message.event() {
            Event::Call(call) => {
                self.take_call(place, call, message.view())?;
                Ok(None)
            }
            Event::Reply(reply) => Ok(self.open.answer(reply.caller, reply.serial, reply.sender)),
            Event::Departure(name) => {
                self.open.close_all(name);
                Ok(None)
            }
            Event::Other(_) => Ok(None),
        }
    }

    // Takes a call.
    fn take_call(
        &mut self,
        place: Place,
        call: CallSeen<'_>,
        view: &MessageView,
    ) -> Result<(), AllocError>
        ensures { (order : Order) (m : MessageTree) → Views view.now order m →
            Calls call.entry.caller.now call.entry.serial call.entry.wants_reply ≡ event_of m →
            (before : List Numbered) → KeepsCalls before self.old →
            OnOk result (KeepsCalls (before ++ nth place m ∷ []) self.new) }
    {
        if call.wants_reply {
            let waiting = self.known_call(place, view)?;
            self.open.open(call.caller, call.serial, waiting)?;
        } else {
            self.open.close(call.caller, call.serial);
        }
        Ok(())
    }

    // What is kept of a call.
    fn known_call(&self, place: Place, view: &MessageView) -> Result<KnownCall, AllocError>
        ensures { (order : Order) (m : MessageTree) → Views view.now order m →
            IfOk result (λ call. kept call ≡ kept_of (nth place m)) }
    {
        let destination = match view.destination() {
            Some(name) => Some(String::from_str(self.alloc, name)?),
            None => None,
        };
        let parts = CallParts {
            place,
            destination,
            member: String::from_str(self.alloc, member_of(view))?,
        };
        Ok(KnownCall {
            parts: Box::new(self.alloc, parts)?,
        })
    }
}
