//! What lines of messages and calls tell of connections.
ghost use Rattle.std.specs.Prelude.{◌≡◌, OnOk, option_and_then, option_map};
ghost use Rattle.dbus_value_model.specs.declared.order.Order.{Order};
ghost use Rattle.dbus_message_model.specs.Messages.{MessageTree};
ghost use Rattle.dbus_view.specs.Views.{Views};
ghost use Rattle.dbus_calls.specs.Events.{destination_of, sender_of};
ghost use Rattle.dbus_call_lines.specs.Names.{names_seen};
ghost use Rattle.dbus_list.specs.Pairs.{call_seen, told};
ghost use Rattle.dbus_list.specs.Told.{told_seen};
ghost use Rattle.dbus_names.specs.Kept.{state_of};
ghost use Rattle.cli_run.specs.LineNames.{known_beside, names_after, told_beside};

use dbus_call_lines::CallNames;
use dbus_calls::EventView;
use dbus_list::{AnsweredCall, Beside, KnownCall};
use dbus_names::{Names, WellKnownNames};
use dbus_view::MessageView;
use std::alloc::AllocError;

/// Learns what the message tells of names.
///
/// `AllocError`: an allocation failed. Then the names are not to be used again.
pub(crate) fn learn_names(message: &EventView, names: &mut Names) -> Result<(), AllocError>
    ensures { (order : Order) (m : MessageTree) → Views message.now order m →
        OnOk result (state_of names.new ≡ names_after (state_of names.old) m) }
{
    names.take(message, &WellKnownNames)
}

/// What the line of the message of the view tells beside it, which has this time: the call that it
/// answers, and the names by which connections are known.
pub(crate) fn beside<'b>(
    view: &MessageView,
    time: Option<u64>,
    answered: &'b Option<KnownCall>,
    names: &'b Names,
) -> Beside<'b>
    ensures { (order : Order) (m : MessageTree) → Views view.now order m →
        told_seen result ≡ told_beside (option_map (told time) answered.now) (state_of names.now).names m }
{
    let known = known_names(view, names);
    Beside {
        answered: told_of(answered, time),
        sender: known.sender,
        destination: known.destination,
    }
}

/// The names by which the connections of the message of the view are known.
pub(crate) fn known_names<'b>(view: &MessageView, names: &'b Names) -> CallNames<'b>
    ensures { (order : Order) (m : MessageTree) → Views view.now order m →
        names_seen result ≡ known_beside (state_of names.now).names m }
{
    CallNames {
        sender: sender_name(view, names),
        destination: destination_name(view, names),
    }
}

// What the line of a reply of this time tells of the call that it answers, if it answers one.
fn told_of(answered: &Option<KnownCall>, time: Option<u64>) -> Option<AnsweredCall<'_>>
    ensures { option_map call_seen result ≡ option_map (told time) answered.now }
{
    match answered {
        Some(call) => Some(call.told(time)),
        None => None,
    }
}

// The name by which the connection of the message's SENDER is known, if it is.
fn sender_name<'b>(view: &MessageView, names: &'b Names) -> Option<&'b str>
    ensures { (order : Order) (m : MessageTree) → Views view.now order m →
        option_map (λ name. name.now) result ≡ option_and_then (state_of names.now).names (sender_of m) }
{
    let unique = view.sender()?;
    names.name_of(unique)
}

// The same of its DESTINATION.
fn destination_name<'b>(view: &MessageView, names: &'b Names) -> Option<&'b str>
    ensures { (order : Order) (m : MessageTree) → Views view.now order m →
        option_map (λ name. name.now) result ≡ option_and_then (state_of names.now).names (destination_of m) }
{
    let unique = view.destination()?;
    names.name_of(unique)
}
