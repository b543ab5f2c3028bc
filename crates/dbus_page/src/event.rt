//! What a message tells of calls and of names, for tables that a page keeps.
#![tactic(auto)]

ghost use Rattle.std.specs.Prelude.{◌≡◌, ℕ, List, [], length, option_map, unwrap_or};
ghost use Rattle.dbus_calls.specs.Changes.{change_seen};
ghost use Rattle.dbus_calls.specs.Events.{event_of, event_seen};
ghost use Rattle.dbus_calls.specs.OwnerChanges.{change_of};
ghost use Rattle.dbus_header.specs.MessageOutcomes.{IsWhole};
ghost use Rattle.dbus_message_model.specs.Messages.{MessageTree};
ghost use Rattle.dbus_names.specs.Filters.{is_well_known};
ghost use Rattle.dbus_names.specs.NameStates.{asked_by, wanted_change};
ghost use Rattle.dbus_names.specs.Telling.{holder_told};
ghost use Rattle.dbus_value_model.specs.Specification.{specification};
ghost use Rattle.dbus_value_model.specs.declared.order.Order.{Order};
ghost use Rattle.dbus_view.specs.Views.{Views};
ghost use Rattle.dbus_page.specs.Events.{AreHolders, IsAsked, IsChange, IsEvent, IsSaid, IsTold, Tells, asks, texts};
ghost use Rattle.dbus_page.specs.Places.{IsMessage};
ghost use Rattle.dbus_page.specs.Written.{IsNoText, IsWritten};

use crate::answers::NO_TEXT;
use crate::room::end;
use dbus_calls::{Event, EventView, OwnerChange};
use dbus_names::{Holder, NameFilter, WellKnownNames, asked_by, holder_told};
use dbus_room::Room;
use dbus_show::Draft;
use dbus_view::MessageView;

/// No call, no reply, and no connection is gone.
pub const OTHER: u32 = 0;

/// A call that wants a reply.
pub const CALL: u32 = 1;

/// A call that wants none.
pub const CALL_WITHOUT_REPLY: u32 = 2;

/// A METHOD_RETURN or an ERROR.
pub const REPLY: u32 = 3;

/// The bus says that nobody has the name of the caller any more.
pub const DEPARTURE: u32 = 4;

/// Nothing is said of a name.
pub const NOTHING: u32 = 0;

/// The name has this owner from now on.
pub const OWNED: u32 = 1;

/// Nobody has the name any more.
pub const FREE: u32 = 2;

/// This owner has the name no longer.
pub const LOST: u32 = 3;

/// The call asks the bus for the name, for its caller.
pub const ASKED_FOR_CALLER: u32 = 4;

/// The call asks the bus who has the name.
pub const ASKED_FOR_OWNER: u32 = 5;

/// The call is to the name.
pub const ASKED_BY_NAME: u32 = 6;

/// What a message tells of calls and of names. Its texts are written one after another; of each it
/// has the number of bytes, which is 0 if there is none.
#[repr(C)]
#[derive(Drop)]
pub struct PageEvent {
    /// What the message is to the calls that wait: [`OTHER`], [`CALL`], [`CALL_WITHOUT_REPLY`],
    /// [`REPLY`] or [`DEPARTURE`].
    pub event: u32,
    /// The serial of the call, or of the one that the reply is to, or 0.
    pub serial: u32,
    /// What it says of a name: [`NOTHING`], [`OWNED`], [`FREE`] or [`LOST`]; or which of them the
    /// reply to a call tells an owner of: [`ASKED_FOR_CALLER`], [`ASKED_FOR_OWNER`] or
    /// [`ASKED_BY_NAME`].
    pub says: u32,
    /// 0.
    pub reserved: u32,
    /// The first text: who sent the call, or gets the reply; or the name that nobody has.
    pub caller: u64,
    /// The second: the SENDER of the reply.
    pub sender: u64,
    /// The third: the name of which it says something.
    pub name: u64,
    /// The fourth: the unique name of the owner that has it now, or has it no longer.
    pub unique: u64,
    /// The fifth: the owner, if this is the reply to a call that asked for its caller.
    pub for_caller: u64,
    /// The sixth: the owner, if this is the reply to a call that asked for the owner.
    pub for_owner: u64,
    /// The last: the owner, if this is the reply to a call to the name.
    pub by_name: u64,
}

// What a message is to the calls that wait.
#[derive(Drop)]
struct EventTold<'a> {
    event: u32,
    serial: u32,
    caller: &'a str,
    sender: &'a str,
}

// What it says of a name.
#[derive(Drop)]
struct Said<'a> {
    says: u32,
    name: &'a str,
    unique: &'a str,
}

// The owner of a name that it tells, as the reply to a call of each kind.
#[derive(Drop)]
struct Holders<'a> {
    for_caller: &'a str,
    for_owner: &'a str,
    by_name: &'a str,
}

// All of it.
#[derive(Drop)]
struct Told<'a> {
    event: EventTold<'a>,
    said: Said<'a>,
    holders: Holders<'a>,
}

// What the message is to the calls that wait.
fn event_told<'a>(message: &EventView<'_, 'a>) -> EventTold<'a>
    ensures { (order : Order) (m : MessageTree) → Views message.now order m →
        IsEvent result.event result.serial result.caller.now result.sender.now (event_of m) }
{
    event_numbered(message.event())
}

// The same, of an event.
fn event_numbered(event: Event<'_>) -> EventTold<'_>
    ensures { IsEvent result.event result.serial result.caller.now result.sender.now (event_seen event.entry) }
{
    match event {
        Event::Call(call) => EventTold {
            event: if call.wants_reply {
                CALL
            } else {
                CALL_WITHOUT_REPLY
            },
            serial: call.serial,
            caller: call.caller,
            sender: "",
        },
        Event::Reply(reply) => EventTold {
            event: REPLY,
            serial: reply.serial,
            caller: reply.caller,
            sender: reply.sender.unwrap_or(""),
        },
        Event::Departure(name) => EventTold {
            event: DEPARTURE,
            serial: 0,
            caller: name,
            sender: "",
        },
        Event::Other(_) => EventTold {
            event: OTHER,
            serial: 0,
            caller: "",
            sender: "",
        },
    }
}

// What it says of the owner of a name that is wanted.
fn wanted_change<'a>(message: &EventView<'_, 'a>) -> Option<OwnerChange<'a>>
    ensures { (order : Order) (m : MessageTree) → Views message.now order m →
        option_map change_seen result ≡ wanted_change is_well_known (change_of m) }
{
    let change = message.event().change()?;
    if WellKnownNames.wants(change.name()) {
        Some(change)
    } else {
        None
    }
}

// What it says of a name, or asks.
fn said_by<'a>(message: &EventView<'_, 'a>) -> Said<'a>
    ensures { (order : Order) (m : MessageTree) → Views message.now order m →
        IsSaid result.says result.name.now result.unique.now
        (wanted_change is_well_known (change_of m)) (asked_by is_well_known m) }
{
    match wanted_change(message) {
        Some(change) => change_said(change),
        None => asked(message.view()),
    }
}

// What is said of the owner of a name.
fn change_said(change: OwnerChange<'_>) -> Said<'_>
    ensures { IsChange result.says result.name.now result.unique.now (change_seen change.entry) }
{
    match change {
        OwnerChange::Owned(owner) => Said {
            says: OWNED,
            name: owner.name,
            unique: owner.unique,
        },
        OwnerChange::Free(name) => Said {
            says: FREE,
            name,
            unique: "",
        },
        OwnerChange::Lost(owner) => Said {
            says: LOST,
            name: owner.name,
            unique: owner.unique,
        },
    }
}

// What it asks of a name that is wanted.
fn asked<'a>(view: &MessageView<'a>) -> Said<'a>
    ensures { (order : Order) (m : MessageTree) → Views view.now order m →
        IsAsked result.says result.name.now result.unique.now (asked_by is_well_known m) }
{
    match asked_by(view, &WellKnownNames) {
        Some(call) => Said {
            says: asks(call.holder),
            name: call.name,
            unique: "",
        },
        None => Said {
            says: NOTHING,
            name: "",
            unique: "",
        },
    }
}

// The number of what a call asks.
fn asks(holder: Holder) -> u32
    ensures { result ≡ asks holder }
{
    match holder {
        Holder::Caller => ASKED_FOR_CALLER,
        Holder::Value => ASKED_FOR_OWNER,
        Holder::Sender => ASKED_BY_NAME,
    }
}

// The owner of a name that it tells, as the reply to a call of this kind, or no text.
fn holder_text<'a>(view: &MessageView<'a>, holder: Holder) -> &'a str
    ensures { (order : Order) (m : MessageTree) → Views view.now order m →
        result.now ≡ unwrap_or (holder_told holder m) [] }
{
    holder_told(view, holder).unwrap_or("")
}

// The same of each kind.
fn holders_told<'a>(view: &MessageView<'a>) -> Holders<'a>
    ensures { (order : Order) (m : MessageTree) → Views view.now order m →
        AreHolders result.for_caller.now result.for_owner.now result.by_name.now m }
{
    Holders {
        for_caller: holder_text(view, Holder::Caller),
        for_owner: holder_text(view, Holder::Value),
        by_name: holder_text(view, Holder::Sender),
    }
}

// Appends the texts.
fn write_texts<D: Draft>(draft: &mut D, told: &Told)
    ensures { D.gains draft.old
        (texts told.now.event.caller.now told.now.event.sender.now told.now.said.name.now told.now.said.unique.now
        told.now.holders.for_caller.now told.now.holders.for_owner.now told.now.holders.by_name.now) draft.new }
{
    draft.push_str(told.event.caller);
    draft.push_str(told.event.sender);
    draft.push_str(told.said.name);
    draft.push_str(told.said.unique);
    draft.push_str(told.holders.for_caller);
    draft.push_str(told.holders.for_owner);
    draft.push_str(told.holders.by_name);
}

// The numbers of it.
fn page_event(told: &Told) -> PageEvent
    ensures { IsTold result told.now }
{
    PageEvent {
        event: told.event.event,
        serial: told.event.serial,
        says: told.said.says,
        reserved: 0,
        caller: told.event.caller.len() as u64,
        sender: told.event.sender.len() as u64,
        name: told.said.name.len() as u64,
        unique: told.said.unique.len() as u64,
        for_caller: told.holders.for_caller.len() as u64,
        for_owner: told.holders.for_owner.len() as u64,
        by_name: told.holders.by_name.len() as u64,
    }
}

/// Writes what the message within the limits of the specification that the bytes are, all of them,
/// tells of calls and of names to `event`, its texts one after another to the start of the room,
/// and their number of bytes to `count`. A page that keeps tables of open calls and of owners by it
/// knows what [`crate::dbus_page_line`] takes beside a message. Of names it tells only those that
/// are well-known bus names, and not the bus's own.
///
/// [`crate::WHOLE`] if there is room for the texts. [`crate::NO_ROOM`] if there is not: then the
/// room has as much of them as it can. [`NO_TEXT`] if the bytes are no message; then nothing is
/// written. It allocates nothing. D-Bus Specification, "Message Types" ("Method Calls") and
/// "Message Bus Messages".
#[unsafe(no_mangle)]
pub extern "C" fn dbus_page_event(
    bytes: &[u8],
    event: &mut PageEvent,
    room: &mut [u8],
    count: &mut u64,
) -> u32
    ensures told { (order : Order) (m : MessageTree) →
        IsWhole specification bytes.now order m (length bytes.now) →
        (text : List ℕ) × Tells event.new text m × IsWritten text room.old room.new count.new result }
    ensures none { (IsMessage bytes.now → ⊥) → IsNoText room.old room.new count.new result }
    ensures unchanged { (IsMessage bytes.now → ⊥) → event.new ≡ event.old }
{
    let Ok(view) = MessageView::of(bytes) else {
        *count = 0;
        return NO_TEXT;
    };
    let message = EventView::of(&view);
    let told = Told {
        event: event_told(&message),
        said: said_by(&message),
        holders: holders_told(&view),
    };
    *event = page_event(&told);
    let mut draft = Room::new(room);
    write_texts(&mut draft, &told);
    end(&draft, count)
}
