//! The list of the calls in an input.
#![tactic(auto)]

ghost use Rattle.std.specs.Prelude.{◌≡◌, ◌++◌, [], ◌∷◌, List, Some, IfOk, OnErr, OnOk, string_bytes, map, option_map};
ghost use Rattle.std.specs.List.{All};
ghost use Rattle.std.specs.List.Sorted.{IsStrictlySortedBy};
ghost use Rattle.std.specs.Map.{keys_of, values_of};
ghost use Rattle.std.specs.Ordering.{nat_cmp};
ghost use Rattle.dbus_value_model.specs.declared.order.Order.{Order};
ghost use Rattle.dbus_message_model.specs.Messages.{MessageTree};
ghost use Rattle.dbus_view.specs.Views.{Views};
ghost use Rattle.dbus_calls.specs.Events.{event_of};
ghost use Rattle.dbus_calls.specs.Events.Event.{Calls, Replies};
ghost use Rattle.dbus_calls.specs.Kept.{call_at, entries_of};
ghost use Rattle.dbus_call_lines.specs.Keeping.{GainsSorted, Keeps, KnowsStray, TakesNext, Texts, as_list, ended_if, ended_kept, ended_rows, kept, kept_of};
ghost use Rattle.dbus_call_lines.specs.Listing.{AreRising, ListsOpen, Numbered, Row, named_nth};
ghost use Rattle.dbus_call_lines.specs.Names.{Known, names_seen};
ghost use Rattle.dbus_call_lines.specs.Outcomes.{outcome_seen};
ghost use Rattle.dbus_call_lines.specs.Outcomes.Outcome.{Unwanted};
ghost use Rattle.dbus_call_lines.specs.declared.wanted.Wanted.{Wanted};

use crate::call_names::CallNames;
use crate::form::Form;
use crate::outcome::{Outcome, outcome_of};
use crate::place::Place;
use crate::sink::CallSink;
use crate::waiting_call::{CallParts, WaitingCall};
use crate::wanted::Wanted;
use dbus_calls::{CallSeen, CallerCalls, Event, EventView, OpenCalls, ReplySeen};
use dbus_show::StringDraft;
use dbus_view::MessageView;
use std::alloc::{AllocError, Global};

/// A list of the calls in an input, which takes its messages one after the other, and adds a call to
/// a [`CallSink`] once it is known what came of it: [`CallList::take`] by the message that ends the
/// call, and [`CallList::finish`] at the end. [`crate::laws::one_line_each`] says that each call is
/// listed exactly once.
///
/// All its sinks are of one type. It holds memory for the open calls alone, of each the text that
/// the sink keeps of it: [`Lines`](crate::Lines) its line as far as the call says it. A message
/// takes time for its own header and the logarithm of the number of open calls, and for the calls
/// that it ends.
///
/// ```rust
/// use dbus_call_lines::{CallList, CallNames, Form, Lines, Place, Wanted};
/// use dbus_calls::EventView;
/// use dbus_message::MessageView;
/// use dbus_show::StringDraft;
///
/// let wanted = Wanted { form: Form::Text, unanswered: false, errors: false, slower: Some(500) };
/// let mut list = CallList::new(alloc, wanted);
/// let mut text = String::new(alloc);
/// let mut lines = Lines { draft: StringDraft::new(&mut text) };
/// let place = Place { number: 1, time: None };
/// let names = CallNames { sender: Some("org.example.Lab"), destination: None };
/// let view = MessageView::of(bytes)?;
/// list.take(&mut lines, place, names, &EventView::of(&view))?;
/// list.finish(&mut lines)?;
/// lines.draft.finish()?;
/// println!(rt; "{text}")?;
/// ```
#[derive(Drop)]
pub struct CallList {
    alloc: Global,
    pub(crate) wanted: Wanted,
    pub(crate) open: OpenCalls<WaitingCall>,
    // How many replies answered no open call.
    pub(crate) stray: u64,
}

impl CallList {
    /// A list of an input of which no message was taken. It allocates nothing.
    pub fn new(alloc: Global, wanted: Wanted) -> CallList
        ensures { (texts : Texts) → Keeps texts wanted [] result }
    {
        CallList {
            alloc,
            wanted,
            open: OpenCalls::new(alloc),
            stray: 0,
        }
    }

    /// How many of the messages that it took are replies that answer none of the calls that came
    /// before them. It stops at 2^64 - 1.
    pub fn stray_replies(&self) -> u64
        ensures { (texts : Texts) (wanted : Wanted) (before : List Numbered) →
            Keeps texts wanted before self.now → KnowsStray before result }
    {
        self.stray
    }

    /// Takes the message, which is at this place, and whose connections are known by these names, and adds the calls to the sink that are due then: those that it ends, in the
    /// order of their numbers, and itself, if it is a call that wants no reply. Of these it adds the
    /// ones that are wanted. A call is listed with the names of its own message. D-Bus
    /// Specification, "Message Types" ("Method Calls"). Numbers rise from message to message.
    ///
    /// `AllocError`: an allocation failed. Then nothing is added, and the list is not to be used
    /// again: if a caller left, its calls are lost.
    pub fn take<S: CallSink>(
        &mut self,
        sink: &mut S,
        place: Place,
        names: CallNames<'_>,
        message: &EventView,
    ) -> Result<(), AllocError>
        ensures takes { (order : Order) (m : MessageTree) → Views message.now order m →
            (wanted : Wanted) (before : List Numbered) → Keeps S.texts wanted before self.old →
            AreRising (before ++ named_nth place (names_seen names.entry) m ∷ []) → OnOk result
            (TakesNext S.texts S.gains wanted before (named_nth place (names_seen names.entry) m) self.new sink.old sink.new) }
        ensures unadded { OnErr result (sink.new ≡ sink.old) }
    {
        match message.event() {
            Event::Call(call) => self.take_call(sink, place, names, call, message.view()),
            Event::Reply(reply) => {
                self.take_reply(sink, place, reply, message.view());
                Ok(())
            }
            Event::Departure(name) => match self.open.close_all(name) {
                Some(calls) => self.add_all(sink, &calls, Outcome::Left),
                None => Ok(()),
            },
            Event::Other(_) => Ok(()),
        }
    }

    // Takes a call.
    fn take_call<S: CallSink>(
        &mut self,
        sink: &mut S,
        place: Place,
        names: CallNames<'_>,
        call: CallSeen<'_>,
        view: &MessageView,
    ) -> Result<(), AllocError>
        ensures takes { (order : Order) (m : MessageTree) → Views view.now order m →
            Calls call.entry.caller.now call.entry.serial call.entry.wants_reply ≡ event_of m →
            (wanted : Wanted) (before : List Numbered) → Keeps S.texts wanted before self.old → OnOk result
            (TakesNext S.texts S.gains wanted before (named_nth place (names_seen names.entry) m) self.new sink.old sink.new) }
        ensures unadded { OnErr result (sink.new ≡ sink.old) }
    {
        if call.wants_reply {
            let waiting = self.waiting_call::<S>(place, names, view)?;
            let ended = self.open.open(call.caller, call.serial, waiting)?;
            self.add_ended(sink, &ended, Outcome::Replaced);
        } else {
            let ended = self.open.close(call.caller, call.serial);
            self.add_ended(sink, &ended, Outcome::Replaced);
            self.add_unwanted(sink, place, names, view);
        }
        Ok(())
    }

    // Takes a reply.
    fn take_reply<S: CallSink>(
        &mut self,
        sink: &mut S,
        place: Place,
        reply: ReplySeen<'_>,
        view: &MessageView,
    )
        ensures { (order : Order) (m : MessageTree) → Views view.now order m →
            Replies reply.entry.caller.now reply.entry.serial
            (option_map (λ s. s.now) reply.entry.sender) ≡ event_of m →
            (names : Known) (wanted : Wanted) (before : List Numbered) → Keeps S.texts wanted before self.old →
            TakesNext S.texts S.gains wanted before (named_nth place names m) self.new sink.old sink.new }
    {
        let ended = self.open.answer(reply.caller, reply.serial, reply.sender);
        match &ended {
            Some(call) => add_kept(sink, self.wanted, call, outcome_of(place, view)),
            None => self.stray = self.stray.saturating_add(1),
        }
    }

    // Adds a call that wants no reply.
    fn add_unwanted<S: CallSink>(
        &self,
        sink: &mut S,
        place: Place,
        names: CallNames<'_>,
        view: &MessageView,
    )
        ensures { (order : Order) (m : MessageTree) → Views view.now order m →
            S.gains sink.old
            (ended_if self.now.wanted Unwanted place (S.texts self.now.wanted.form place (names_seen names.entry) m)) sink.new }
    {
        if self.wanted.lists(place.time, Outcome::Unwanted) {
            sink.add_seen(self.wanted.form, place, names, view, Outcome::Unwanted);
        }
    }

    // What is kept of a call.
    fn waiting_call<S: CallSink>(
        &self,
        place: Place,
        names: CallNames<'_>,
        view: &MessageView,
    ) -> Result<WaitingCall, AllocError>
        ensures { (order : Order) (m : MessageTree) → Views view.now order m →
            IfOk result (λ call. kept call ≡ kept_of S.texts self.now.wanted (named_nth place (names_seen names.entry) m)) }
    {
        let mut text = String::new(self.alloc);
        text_into::<S>(&mut text, self.wanted.form, place, names, view)?;
        let destination = match view.destination() {
            Some(name) => Some(String::from_str(self.alloc, name)?),
            None => None,
        };
        let parts = CallParts {
            place,
            destination,
            text,
        };
        Ok(WaitingCall {
            parts: Box::new(self.alloc, parts)?,
        })
    }

    // Adds a call that ended, if one did.
    fn add_ended<S: CallSink>(&self, sink: &mut S, ended: &Option<WaitingCall>, outcome: Outcome)
        ensures { S.gains sink.old
            (ended_kept self.now.wanted (outcome_seen outcome.entry) (as_list (option_map kept ended.now)))
            sink.new }
    {
        if let Some(call) = ended {
            add_kept(sink, self.wanted, call, outcome);
        }
    }

    // Adds each of these calls, in the order of their numbers.
    fn add_all<S: CallSink>(
        &self,
        sink: &mut S,
        calls: &CallerCalls<WaitingCall>,
        outcome: Outcome,
    ) -> Result<(), AllocError>
        ensures ordered { OnOk result (IsStrictlySortedBy nat_cmp (keys_of (entries_of calls.now))) }
        ensures found { OnOk result
            (All (λ e. call_at calls.now e.0 ≡ Some e.1) (entries_of calls.now)) }
        ensures adds { OnOk result (GainsSorted S.gains self.now.wanted
            (outcome_seen outcome.entry) (values_of (entries_of calls.now)) sink.old sink.new) }
        ensures unadded { OnErr result (sink.new ≡ sink.old) }
    {
        let mut rows = Vec::new(self.alloc);
        calls.append_to(&mut rows)?;
        add_sorted(sink, self.wanted, &mut rows, outcome)
    }

    /// Adds the calls that are open at the end to the sink, in the order of their numbers, if such
    /// calls are wanted.
    ///
    /// `AllocError`: an allocation failed. Then nothing is added.
    pub fn finish<S: CallSink>(self, sink: &mut S) -> Result<(), AllocError>
        ensures lists { (wanted : Wanted) (before : List Numbered) → Keeps S.texts wanted before self →
            AreRising before → OnOk result ((rows : List Row) × ListsOpen before rows ×
            S.gains sink.old (ended_rows S.texts wanted rows) sink.new) }
        ensures unadded { OnErr result (sink.new ≡ sink.old) }
    {
        let CallList {
            alloc,
            wanted,
            open,
            ..
        } = self;
        let callers = open.into_callers();
        let mut rows = Vec::new(alloc);
        for (_, calls) in &callers {
            calls.append_to(&mut rows)?;
        }
        add_sorted(sink, wanted, &mut rows, Outcome::Open)
    }
}

// Writes what is to be kept of a call into an empty text.
fn text_into<S: CallSink>(
    out: &mut String,
    form: Form,
    place: Place,
    names: CallNames<'_>,
    view: &MessageView,
) -> Result<(), AllocError>
    ensures { (order : Order) (m : MessageTree) → Views view.now order m →
        OnOk result (string_bytes out.new ≡ S.texts form place (names_seen names.entry) m) }
{
    let mut draft = StringDraft::new(out);
    S::write_kept(&mut draft, form, place, names, view);
    draft.finish()
}

// Adds a call that waited, if it is wanted.
fn add_kept<S: CallSink>(sink: &mut S, wanted: Wanted, call: &WaitingCall, outcome: Outcome)
    ensures { S.gains sink.old
        (ended_if wanted (outcome_seen outcome.entry) call.now.parts.value.place
        (string_bytes call.now.parts.value.text)) sink.new }
{
    let parts = &*call.parts;
    if wanted.lists(parts.place.time, outcome) {
        sink.add(wanted.form, parts.place, parts.text.as_str(), outcome);
    }
}

// Adds calls, in the order of their numbers.
fn add_sorted<S: CallSink>(
    sink: &mut S,
    wanted: Wanted,
    rows: &mut Vec<&WaitingCall>,
    outcome: Outcome,
) -> Result<(), AllocError>
    ensures adds { OnOk result (GainsSorted S.gains wanted (outcome_seen outcome.entry)
        (map (λ call. call.now) rows.old.items) sink.old sink.new) }
    ensures unadded { OnErr result (sink.new ≡ sink.old) }
{
    rows.sort_by(|a, b| a.parts.place.number.cmp(&b.parts.place.number))?;
    for call in rows.iter() {
        add_kept(sink, wanted, call, outcome);
    }
    Ok(())
}
