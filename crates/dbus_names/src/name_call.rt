//! The calls whose replies tell who has a name.
#![tactic(auto)]

ghost use Rattle.std.specs.Prelude.{◌≡◌, option_map};
ghost use Rattle.dbus_value_model.specs.declared.order.Order.{Order};
ghost use Rattle.dbus_message_model.specs.Messages.{MessageTree};
ghost use Rattle.dbus_message_model.specs.declared.field_code.TheConstants as field;
ghost use Rattle.dbus_view.specs.Views.{Views};
ghost use Rattle.dbus_calls.specs.Events.{destination_of, text_at};
ghost use Rattle.dbus_names.specs.Kept.{call_seen};
ghost use Rattle.dbus_names.specs.NameCalls.{bus_call, call_to, name_call_of, names_first};

use dbus_calls::{BUS, is_ownable};
use dbus_match::string_arg;
use dbus_message_model::message_type::METHOD_CALL;
use dbus_view::MessageView;

/// Who has the name of a call, if its reply says that some connection does.
#[derive(Clone, Copy)]
pub enum Holder {
    /// The caller: it asked the bus for the name, by `RequestName`.
    Caller,
    /// The connection that the reply names: the caller asked who has the name, by `GetNameOwner`.
    Value,
    /// The sender of the reply: the call was to the name.
    Sender,
}

/// A call whose reply tells who has a name.
#[derive(Clone, Copy)]
pub struct NameCall<'a> {
    /// The name.
    pub name: &'a str,
    /// Who has it.
    pub holder: Holder,
}

/// What the message of the view asks, if it is such a call. It allocates nothing. D-Bus
/// Specification, "Message Bus Messages".
pub(crate) fn name_call_of<'a>(view: &MessageView<'a>) -> Option<NameCall<'a>>
    ensures { (order : Order) (m : MessageTree) → Views view.now order m →
        option_map call_seen result ≡ name_call_of m }
{
    if view.kind() != METHOD_CALL {
        return None;
    }
    let call = call_to(view)?;
    if is_ownable(call.name) {
        Some(call)
    } else {
        None
    }
}

// What a call asks, of a name that any may have.
fn call_to<'a>(view: &MessageView<'a>) -> Option<NameCall<'a>>
    ensures { (order : Order) (m : MessageTree) → Views view.now order m →
        option_map call_seen result ≡ call_to (destination_of m) m }
{
    let to = view.destination()?;
    if to == BUS {
        bus_call(view)
    } else {
        Some(NameCall {
            name: to,
            holder: Holder::Sender,
        })
    }
}

// What a call to the bus asks.
fn bus_call<'a>(view: &MessageView<'a>) -> Option<NameCall<'a>>
    ensures { (order : Order) (m : MessageTree) → Views view.now order m →
        option_map call_seen result ≡ bus_call (text_at field.MEMBER m) m }
{
    let member = view.member()?;
    if member == "RequestName" {
        names_first(view, Holder::Caller)
    } else if member == "GetNameOwner" {
        names_first(view, Holder::Value)
    } else {
        None
    }
}

// The first value of the call is the name.
fn names_first<'a>(view: &MessageView<'a>, holder: Holder) -> Option<NameCall<'a>>
    ensures { (order : Order) (m : MessageTree) → Views view.now order m →
        option_map call_seen result ≡ names_first holder m }
{
    let name = string_arg(view, 0)?;
    Some(NameCall { name, holder })
}
