//! What the bus says of the owners of names.
#![tactic(auto)]

ghost use Rattle.std.specs.Prelude.{◌≡◌, ℕ, List, Some, IfSome, option_map};
ghost use Rattle.dbus_value_model.specs.Values.{ValueTree, ValueTrees};
ghost use Rattle.dbus_value_model.specs.declared.order.Order.{Order};
ghost use Rattle.dbus_message_model.specs.KnownFields.{body_value};
ghost use Rattle.dbus_message_model.specs.Messages.{MessageTree};
ghost use Rattle.dbus_match.specs.Matching.{string_of};
ghost use Rattle.dbus_values.specs.Seen.{IsSeen};
ghost use Rattle.dbus_values.specs.States.{AreLeft};
ghost use Rattle.dbus_view.specs.Views.{Views};
ghost use Rattle.dbus_calls.specs.OwnerChanges.{change_of, changed_by, is_of_bus, is_text, name_of, name_told, owned_by, owned_or_free, said_by};
ghost use Rattle.dbus_calls.specs.Changes.{change_seen, others, owner_seen};

use crate::answering::{BUS, is_unique};
use dbus_message_model::message_type::SIGNAL;
use dbus_values::{ValueView, Values};
use dbus_view::MessageView;

/// A name, and the unique name of a connection that has it or had it.
#[derive(Clone, Copy)]
pub struct NameOwner<'a> {
    /// The name.
    pub name: &'a str,
    /// The unique name of the connection.
    pub unique: &'a str,
}

/// What is said of the owner of a name.
#[derive(Clone, Copy)]
pub enum OwnerChange<'a> {
    /// The name has this owner from now on.
    Owned(NameOwner<'a>),
    /// Nobody has the name any more.
    Free(&'a str),
    /// This connection has the name no longer.
    Lost(NameOwner<'a>),
}

impl<'a> OwnerChange<'a> {
    /// The name.
    pub fn name(&self) -> &'a str
        ensures { result.now ≡ name_of (change_seen self.now) }
    {
        match self {
            OwnerChange::Owned(owner) => owner.name,
            OwnerChange::Free(name) => name,
            OwnerChange::Lost(owner) => owner.name,
        }
    }
}

/// What the message of the view says of the owner of a name, if it is one of these signals of the
/// bus: `NameOwnerChanged` with three STRINGs, the name, its old owner and its new one, which is
/// empty if it has none; or `NameAcquired` or `NameLost` with one, the name, to the connection that
/// has it now, or that had it. An owner that has no unique name is none. It allocates nothing. D-Bus
/// Specification, "Message Bus Messages" and "Message Bus Names".
pub(crate) fn owner_change<'a>(view: &MessageView<'a>) -> Option<OwnerChange<'a>>
    ensures { (order : Order) (m : MessageTree) → Views view.now order m →
        option_map change_seen result ≡ change_of m }
{
    if is_of_bus(view) { said_by(view) } else { None }
}

// What a signal of the bus says, by its member.
fn said_by<'a>(view: &MessageView<'a>) -> Option<OwnerChange<'a>>
    ensures { (order : Order) (m : MessageTree) → Views view.now order m →
        option_map change_seen result ≡ said_by m }
{
    let member = view.member();
    if is_text(member, "NameOwnerChanged") {
        return changed_by(view);
    }
    if is_text(member, "NameAcquired") {
        return Some(OwnerChange::Owned(name_told(view)?));
    }
    if is_text(member, "NameLost") {
        return Some(OwnerChange::Lost(name_told(view)?));
    }
    None
}

// What a signal `NameOwnerChanged` says.
fn changed_by<'a>(view: &MessageView<'a>) -> Option<OwnerChange<'a>>
    ensures { (order : Order) (m : MessageTree) → Views view.now order m →
        option_map change_seen result ≡ changed_by m }
{
    let mut values = view.body();
    let name = next_string(&mut values)?;
    let _old = next_string(&mut values)?;
    let unique = next_string(&mut values)?;
    if values.next().is_some() {
        return None;
    }
    owned_or_free(name, unique)
}

// The next value, if that is a STRING.
fn next_string<'a>(values: &mut Values<'a>) -> Option<&'a str>
    ensures text { (xs : ValueTrees) (rest : List ℕ) → AreLeft values.old xs rest →
        option_map (λ t. t.now) result ≡ string_of (body_value 0 xs) }
    ensures left { (xs : ValueTrees) (rest : List ℕ) → AreLeft values.old xs rest →
        IfSome result (λ _. AreLeft values.new (others xs) rest) }
{
    let seen = values.next()?;
    string_in(seen)
}

// The text of a value, if that is a STRING.
fn string_in(seen: ValueView<'_>) -> Option<&str>
    ensures { (x : ValueTree) → IsSeen seen.entry x →
        option_map (λ t. t.now) result ≡ string_of (Some x) }
{
    match seen {
        ValueView::Str(text) => Some(text),
        _ => None,
    }
}

// The name has this owner, or nobody has it if that is empty.
fn owned_or_free<'a>(name: &'a str, unique: &'a str) -> Option<OwnerChange<'a>>
    ensures { option_map change_seen result ≡ owned_or_free name.now unique.now }
{
    if unique.is_empty() {
        Some(OwnerChange::Free(name))
    } else {
        Some(OwnerChange::Owned(owned_by(name, unique)?))
    }
}

// The name and its owner, if that has a unique name: no other is one of a connection.
fn owned_by<'a>(name: &'a str, unique: &'a str) -> Option<NameOwner<'a>>
    ensures { option_map owner_seen result ≡ owned_by name.now unique.now }
{
    if is_unique(unique) {
        Some(NameOwner { name, unique })
    } else {
        None
    }
}

// The name in a signal `NameAcquired` or `NameLost`, and the connection that it is to.
fn name_told<'a>(view: &MessageView<'a>) -> Option<NameOwner<'a>>
    ensures { (order : Order) (m : MessageTree) → Views view.now order m →
        option_map owner_seen result ≡ name_told m }
{
    let mut values = view.body();
    let name = next_string(&mut values)?;
    let unique = view.destination()?;
    if values.next().is_some() {
        return None;
    }
    owned_by(name, unique)
}

// Whether it is a signal of the bus.
fn is_of_bus(view: &MessageView) -> bool
    ensures { (order : Order) (m : MessageTree) → Views view.now order m →
        result ≡ is_of_bus m }
{
    view.kind() == SIGNAL && is_text(view.sender(), BUS) && is_text(view.interface(), BUS)
}

// Whether the text is there, and it is this.
fn is_text(text: Option<&str>, value: &str) -> bool
    ensures { result ≡ is_text (option_map (λ t. t.now) text.entry) value.now }
{
    match text {
        Some(text) => text == value,
        None => false,
    }
}
