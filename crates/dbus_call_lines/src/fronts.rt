//! The line of a call, as far as the call says it.
#![tactic(auto)]

ghost use Rattle.std.specs.Prelude.{codes, option_map, ◌++◌};
ghost use Rattle.dbus_value_model.specs.declared.order.Order.{Order};
ghost use Rattle.dbus_message_model.specs.Messages.{MessageTree};
ghost use Rattle.dbus_json.specs.JsonValues.{listed};
ghost use Rattle.dbus_view.specs.Views.{Views};
ghost use Rattle.dbus_call_lines.specs.CallLines.{behind_commas, call_members, call_text, called, connection_members, connection_text, front, member_if, member_text};
ghost use Rattle.dbus_call_lines.specs.Names.{names_seen};

use crate::call_names::CallNames;
use crate::form::Form;
use crate::place::Place;
use dbus_json::{write_string, write_time};
use dbus_show::{Draft, write_integer};
use dbus_view::MessageView;

/// Appends the line of the call of the view, which is at this place, and whose connections are known
/// by these names, as far as it says nothing of what came of the call. It allocates nothing. D-Bus
/// Specification, "Header Fields"; RFC 8259.
pub fn write_front<D: Draft>(
    draft: &mut D,
    form: Form,
    place: Place,
    names: CallNames<'_>,
    view: &MessageView,
)
    ensures { (order : Order) (m : MessageTree) → Views view.now order m →
        D.gains draft.old (front form place (names_seen names.entry) m) draft.new }
{
    match form {
        Form::Text => write_call(draft, place.number, names, view),
        Form::Json => write_members(draft, place, names, view),
    }
}

// Appends the call in words.
fn write_call<D: Draft>(draft: &mut D, number: u64, names: CallNames<'_>, view: &MessageView)
    ensures { (order : Order) (m : MessageTree) → Views view.now order m →
        D.gains draft.old (call_text number (names_seen names.entry) m) draft.new }
{
    write_integer(draft, number);
    draft.push_str(" ");
    write_connection(draft, view.sender(), names.sender);
    draft.push_str(" > ");
    write_connection(draft, view.destination(), names.destination);
    draft.push_str(" ");
    write_member(draft, view);
}

// Appends a connection, and behind it the name by which it is known, if it is.
fn write_connection<D: Draft>(draft: &mut D, name: Option<&str>, known: Option<&str>)
    ensures { D.gains draft.old (connection_text (option_map (λ t. t.now) name.entry) (option_map (λ t. t.now) known.entry)) draft.new }
{
    draft.push_str(name.unwrap_or("-"));
    if let Some(known) = known {
        draft.push_between("(", known, ")");
    }
}

/// Appends the member that the call of the view names, behind its interface if it names one. It
/// allocates nothing. D-Bus Specification, "Message Types" ("Method Calls").
pub fn write_member<D: Draft>(draft: &mut D, view: &MessageView)
    ensures { (order : Order) (m : MessageTree) → Views view.now order m →
        D.gains draft.old (called m) draft.new }
{
    write_names(draft, view.interface(), view.member());
}

// Appends a member, behind its interface if it has one.
fn write_names<D: Draft>(draft: &mut D, interface: Option<&str>, name: Option<&str>)
    ensures { D.gains draft.old (member_text (option_map (λ t. t.now) interface.entry) (option_map (λ t. t.now) name.entry)) draft.new }
{
    let name = name.unwrap_or("-");
    match interface {
        Some(interface) => draft.push_between(interface, ".", name),
        None => draft.push_str(name),
    }
}

// Appends what the call has as the first members of an object.
fn write_members<D: Draft>(draft: &mut D, place: Place, names: CallNames<'_>, view: &MessageView)
    ensures { (order : Order) (m : MessageTree) → Views view.now order m →
        D.gains draft.old (codes "{" ++ listed (call_members place (names_seen names.entry) m)) draft.new }
{
    draft.push_str("{\"number\":");
    write_integer(draft, place.number);
    write_time(draft, place.time);
    draft.push_str(",\"serial\":");
    write_integer(draft, view.serial());
    write_known(draft, "sender", view.sender(), "sender_name", names.sender);
    let to = names.destination;
    write_known(
        draft,
        "destination",
        view.destination(),
        "destination_name",
        to,
    );
    write_text(draft, "path", view.path());
    write_text(draft, "interface", view.interface());
    write_text(draft, "member", view.member());
}

// Appends the members of a connection and of the name by which it is known, of those that are there.
fn write_known<D: Draft>(
    draft: &mut D,
    name: &str,
    text: Option<&str>,
    known_name: &str,
    known: Option<&str>,
)
    ensures { D.gains draft.old (behind_commas (connection_members name.now (option_map (λ t. t.now) text.entry)
        known_name.now (option_map (λ t. t.now) known.entry))) draft.new }
{
    write_text(draft, name, text);
    write_text(draft, known_name, known);
}

// Appends the member of a text that is there, behind a comma.
fn write_text<D: Draft>(draft: &mut D, name: &str, text: Option<&str>)
    ensures { D.gains draft.old (behind_commas (member_if name.now (option_map (λ t. t.now) text.entry))) draft.new }
{
    if let Some(text) = text {
        draft.push_between(",\"", name, "\":");
        write_string(draft, text);
    }
}
