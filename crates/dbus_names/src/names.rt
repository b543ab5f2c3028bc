//! Who has which name.
#![tactic(auto)]

ghost use Rattle.std.specs.Prelude.{◌≡◌, ℕ, List, Some, None, OnErr, OnOk, option_map};
ghost use Rattle.dbus_value_model.specs.declared.order.Order.{Order};
ghost use Rattle.dbus_message_model.specs.Messages.{MessageTree};
ghost use Rattle.dbus_view.specs.Views.{Views};
ghost use Rattle.dbus_calls.specs.Changes.{change_seen, owner_seen};
ghost use Rattle.dbus_calls.specs.Events.{event_of, event_seen};
ghost use Rattle.dbus_calls.specs.Events.Event.{Calls};
ghost use Rattle.dbus_names.specs.Kept.{call_kept, call_seen, calls_in, calls_of, kept_names, state_of};
ghost use Rattle.dbus_names.specs.NameStates.{answered_by, asked_by, calls_after, known_after, known_first, named_by, names_left, owners_after, owners_by, owners_left, told_by, wanted_change};
ghost use Rattle.dbus_names.specs.Telling.{reply_told};
ghost use Rattle.dbus_calls.specs.OwnerChanges.{change_of};
ghost use Rattle.dbus_calls.specs.OwnerChanges.Change.{Owned};
ghost use Rattle.dbus_rule_set.specs.Owners.{owned_anew};

use crate::filter::NameFilter;
use crate::first_names::FirstNames;
use crate::kept_call::KeptCall;
use crate::name_call::{NameCall, name_call_of};
use crate::telling::holder_told;
use dbus_calls::{CallSeen, Event, EventView, NameOwner, OpenCalls, OwnerChange, Sent, may_answer};
use dbus_rule_set::Owners;
use dbus_view::MessageView;
use std::alloc::{AllocError, Global};

/// Who has which name, as messages tell it one after the other, in the order of their input.
///
/// It holds memory for the names that are wanted of each connection that is not gone, once more for
/// one of them, and for the open calls whose replies tell more. A message takes time for its own
/// header and the logarithm of the number of names and open calls; if a connection is gone, for
/// each of its calls and names.
///
/// ```rust
/// use dbus_calls::EventView;
/// use dbus_names::{Names, WellKnownNames};
/// use dbus_message::MessageView;
/// use dbus_rule_set::Owners;
///
/// let view = MessageView::of(bytes)?;
/// let mut names = Names::new(alloc, Owners::new(alloc));
/// names.take(&EventView::of(&view), &WellKnownNames)?;
/// println!(rt; "{}", names.owners().of(":1.7").is_some())?;
/// ```
#[derive(Drop)]
pub struct Names {
    alloc: Global,
    owners: Owners,
    calls: OpenCalls<KeptCall>,
    first: FirstNames,
}

impl Names {
    /// These owners are known, and no message was taken. It allocates nothing.
    pub fn new(alloc: Global, owners: Owners) -> Names
        ensures { state_of result ≡ known_first owners }
    {
        Names {
            alloc,
            owners,
            calls: OpenCalls::new(alloc),
            first: FirstNames::new(alloc),
        }
    }

    /// The owners of names that are known.
    pub fn owners(&self) -> &Owners
        ensures { result.now ≡ (state_of self.now).owners }
    {
        &self.owners
    }

    /// The name by which the connection of this unique name is known, if it is: the first one that
    /// a message told, until the connection loses it or is gone; then the next one that a message
    /// tells. It takes time for the logarithm of the number of connections. D-Bus Specification,
    /// "Message Bus Names".
    pub fn name_of(&self, unique: &str) -> Option<&str>
        ensures { option_map (λ name. name.now) result ≡ (state_of self.now).names unique.now }
    {
        self.first.of(unique, &self.owners)
    }

    /// Takes the next message, and learns from it who has a name that is wanted: by a signal of the
    /// bus, or by a reply to a call that was taken before. D-Bus Specification, "Message Bus
    /// Messages".
    ///
    /// `AllocError`: an allocation failed. Then it knows what it knew.
    #[tactic(auto, unfolding(crate::specs::Kept::state_of))]
    pub fn take<F: NameFilter>(&mut self, message: &EventView, filter: &F) -> Result<(), AllocError>
        ensures learns { (order : Order) (m : MessageTree) → Views message.now order m →
            OnOk result (state_of self.new ≡ known_after (F.wanted filter.now) (state_of self.old) m) }
        ensures unchanged { OnErr result (state_of self.new ≡ state_of self.old) }
    {
        let event = message.event();
        if let Event::Call(call) = event {
            return self.take_call(call, asked_by(message.view(), filter));
        }
        let answered = answered_by(&self.calls, event);
        // What may fail comes first.
        note_told(message, answered, filter, &mut self.owners, &mut self.first)?;
        self.close_calls(event);
        let_go(event, &mut self.owners, &mut self.first);
        Ok(())
    }

    // Closes the calls that are over by the event.
    fn close_calls(&mut self, event: Event<'_>)
        ensures owners { self.new.owners ≡ self.old.owners }
        ensures names { self.new.first ≡ self.old.first }
        ensures calls { (c : List ℕ) (s : ℕ) →
            calls_of self.new c s ≡ calls_after (calls_of self.old) (event_seen event.entry) None c s }
    {
        match event {
            Event::Call(call) => {
                self.calls.close(call.caller, call.serial);
            }
            Event::Reply(reply) => {
                self.calls.answer(reply.caller, reply.serial, reply.sender);
            }
            Event::Departure(name) => {
                self.calls.close_all(name);
            }
            Event::Other(_) => {}
        }
    }

    // Opens the call, if it wants a reply and this is what it asks, or else closes the one whose
    // serial it uses again.
    fn take_call(
        &mut self,
        call: CallSeen<'_>,
        asked: Option<NameCall<'_>>,
    ) -> Result<(), AllocError>
        ensures owners { self.new.owners ≡ self.old.owners }
        ensures names { self.new.first ≡ self.old.first }
        ensures calls { OnOk result ((c : List ℕ) (s : ℕ) → calls_of self.new c s ≡
            calls_after (calls_of self.old)
            (Calls call.entry.caller.now call.entry.serial call.entry.wants_reply)
            (option_map call_seen asked.entry) c s) }
        ensures unchanged { OnErr result ((c : List ℕ) (s : ℕ) →
            calls_of self.new c s ≡ calls_of self.old c s) }
    {
        match asked {
            Some(name_call) if call.wants_reply => {
                let kept = KeptCall::of(self.alloc, name_call)?;
                self.calls.open(call.caller, call.serial, kept)?;
            }
            _ => {
                self.calls.close(call.caller, call.serial);
            }
        }
        Ok(())
    }
}

/// What the message of the view asks of a name that is wanted, if it is a call whose reply tells who
/// has it. It allocates nothing. D-Bus Specification, "Message Bus Messages".
pub fn asked_by<'a, F: NameFilter>(view: &MessageView<'a>, filter: &F) -> Option<NameCall<'a>>
    ensures { (order : Order) (m : MessageTree) → Views view.now order m →
        option_map call_seen result ≡ asked_by (F.wanted filter.now) m }
{
    let call = name_call_of(view)?;
    if filter.wants(call.name) {
        Some(call)
    } else {
        None
    }
}

// The open call that the event answers, if it answers one.
fn answered_by<'k>(calls: &'k OpenCalls<KeptCall>, event: Event<'_>) -> Option<&'k KeptCall>
    ensures { option_map (λ call. call_kept call.now) result ≡
        answered_by (calls_in calls.now) (event_seen event.entry) }
{
    let Event::Reply(reply) = event else {
        return None;
    };
    let call = calls.get(reply.caller, reply.serial)?;
    if may_answer(call.destination(), reply.sender) {
        Some(call)
    } else {
        None
    }
}

// Changes the owners and the names of connections by the message, which answers this call, or none.
fn note_told<F: NameFilter>(
    message: &EventView,
    answered: Option<&KeptCall>,
    filter: &F,
    owners: &mut Owners,
    first: &mut FirstNames,
) -> Result<(), AllocError>
    ensures noted { (order : Order) (m : MessageTree) → Views message.now order m →
        OnOk result (owners.new ≡ owners_after (told_by (F.wanted filter.now) (option_map (λ call. call_kept call.now) answered.entry) m) owners.old) }
    ensures named { (order : Order) (m : MessageTree) → Views message.now order m →
        OnOk result ((u : List ℕ) → kept_names first.new owners.new u ≡
        named_by (told_by (F.wanted filter.now) (option_map (λ call. call_kept call.now) answered.entry) m) owners.new (kept_names first.old owners.old) u) }
    ensures unchanged { OnErr result (owners.new ≡ owners.old) }
    ensures unnamed { OnErr result ((u : List ℕ) →
        kept_names first.new owners.new u ≡ kept_names first.old owners.old u) }
{
    match answered {
        Some(call) => note_reply(message.view(), call, owners, first),
        None => note_signal(message, filter, owners, first),
    }
}

// Changes the owners and the names of connections by the message as the reply to a call, which was
// kept since its name is wanted.
fn note_reply(
    view: &MessageView,
    call: &KeptCall,
    owners: &mut Owners,
    first: &mut FirstNames,
) -> Result<(), AllocError>
    ensures noted { (order : Order) (m : MessageTree) → Views view.now order m →
        OnOk result (owners.new ≡ owners_after (reply_told (call_kept call.now) m) owners.old) }
    ensures named { (order : Order) (m : MessageTree) → Views view.now order m →
        OnOk result ((u : List ℕ) → kept_names first.new owners.new u ≡
        named_by (reply_told (call_kept call.now) m) owners.new (kept_names first.old owners.old) u) }
    ensures unchanged { OnErr result (owners.new ≡ owners.old) }
    ensures unnamed { OnErr result ((u : List ℕ) →
        kept_names first.new owners.new u ≡ kept_names first.old owners.old u) }
{
    let Some(unique) = holder_told(view, call.holder) else {
        return Ok(());
    };
    let name = call.name.as_str();
    note_owner(NameOwner { name, unique }, owners, first)
}

// Changes the owners and the names of connections by the message as a signal of the bus.
fn note_signal<F: NameFilter>(
    message: &EventView,
    filter: &F,
    owners: &mut Owners,
    first: &mut FirstNames,
) -> Result<(), AllocError>
    ensures noted { (order : Order) (m : MessageTree) → Views message.now order m →
        OnOk result (owners.new ≡ owners_after (wanted_change (F.wanted filter.now) (change_of m)) owners.old) }
    ensures named { (order : Order) (m : MessageTree) → Views message.now order m →
        OnOk result ((u : List ℕ) → kept_names first.new owners.new u ≡
        named_by (wanted_change (F.wanted filter.now) (change_of m)) owners.new (kept_names first.old owners.old) u) }
    ensures unchanged { OnErr result (owners.new ≡ owners.old) }
    ensures unnamed { OnErr result ((u : List ℕ) →
        kept_names first.new owners.new u ≡ kept_names first.old owners.old u) }
{
    let Some(change) = message.event().change() else {
        return Ok(());
    };
    if filter.wants(change.name()) {
        note(change, owners, first)
    } else {
        Ok(())
    }
}

// Changes the owners and the names of connections by what is said of a name.
fn note(
    change: OwnerChange<'_>,
    owners: &mut Owners,
    first: &mut FirstNames,
) -> Result<(), AllocError>
    ensures noted { OnOk result (owners.new ≡ owners_by (change_seen change.entry) owners.old) }
    ensures named { OnOk result ((u : List ℕ) → kept_names first.new owners.new u ≡
        named_by (Some (change_seen change.entry)) owners.new (kept_names first.old owners.old) u) }
    ensures unchanged { OnErr result (owners.new ≡ owners.old) }
    ensures unnamed { OnErr result ((u : List ℕ) →
        kept_names first.new owners.new u ≡ kept_names first.old owners.old u) }
{
    match change {
        OwnerChange::Owned(owner) => note_owner(owner, owners, first),
        OwnerChange::Free(name) => {
            owners.remove(name);
            Ok(())
        }
        OwnerChange::Lost(owner) => {
            owners.lose(owner.name, owner.unique);
            Ok(())
        }
    }
}

// Forgets the names of a connection that is gone.
fn let_go(event: Event<'_>, owners: &mut Owners, first: &mut FirstNames)
    ensures owners { owners.new ≡ owners_left (event_seen event.entry) owners.old }
    ensures names { (u : List ℕ) → kept_names first.new owners.new u ≡
        names_left (event_seen event.entry) (kept_names first.old owners.old) u }
{
    if let Event::Departure(name) = event {
        owners.forget(name);
        first.forget(name);
    }
}

// Changes the owners and the names of connections: a name has this owner from now on.
fn note_owner(
    owner: NameOwner<'_>,
    owners: &mut Owners,
    first: &mut FirstNames,
) -> Result<(), AllocError>
    ensures noted { OnOk result (owners.new ≡ owned_anew owner.entry.name.now owner.entry.unique.now owners.old) }
    ensures named { OnOk result ((u : List ℕ) → kept_names first.new owners.new u ≡
        named_by (Some (Owned (owner_seen owner.entry))) owners.new (kept_names first.old owners.old) u) }
    ensures unchanged { OnErr result (owners.new ≡ owners.old) }
    ensures unnamed { OnErr result ((u : List ℕ) →
        kept_names first.new owners.new u ≡ kept_names first.old owners.old u) }
{
    let is_first = first.note(owner.name, owner.unique, owners)?;
    match owners.set(owner.name, owner.unique) {
        Ok(()) => Ok(()),
        Err(AllocError) => {
            if is_first {
                first.forget(owner.unique);
            }
            Err(AllocError)
        }
    }
}
