//! What a reply says of who has a name.
#![tactic(auto)]

ghost use Rattle.std.specs.Prelude.{◌≡◌, option_map};
ghost use Rattle.dbus_value_model.specs.declared.order.Order.{Order};
ghost use Rattle.dbus_message_model.specs.KnownFields.{body_value};
ghost use Rattle.dbus_message_model.specs.Messages.{MessageTree};
ghost use Rattle.dbus_view.specs.Views.{Views};
ghost use Rattle.dbus_names.specs.Telling.{holder_by, holder_told, is_had};

use crate::name_call::Holder;
use dbus_calls::is_unique;
use dbus_match::string_arg;
use dbus_message_model::message_type::METHOD_RETURN;
use dbus_values::ValueView;
use dbus_view::MessageView;

/// `RequestName` returns it if the caller has the name from now on. D-Bus Specification, "Message
/// Bus Messages".
const PRIMARY_OWNER: u32 = 1;

/// `RequestName` returns it if the caller has the name already. D-Bus Specification, "Message Bus
/// Messages".
const ALREADY_OWNER: u32 = 4;

/// The unique name of the connection that has the name of a call, if the message of the view says so
/// as the reply to it. It allocates nothing. D-Bus Specification, "Message Bus Messages".
pub fn holder_told<'a>(view: &MessageView<'a>, holder: Holder) -> Option<&'a str>
    ensures { (order : Order) (m : MessageTree) → Views view.now order m →
        option_map (λ text. text.now) result ≡ holder_told holder m }
{
    if view.kind() != METHOD_RETURN {
        return None;
    }
    let unique = holder_by(view, holder)?;
    if is_unique(unique) {
        Some(unique)
    } else {
        None
    }
}

// The name of whom it says so.
fn holder_by<'a>(view: &MessageView<'a>, holder: Holder) -> Option<&'a str>
    ensures { (order : Order) (m : MessageTree) → Views view.now order m →
        option_map (λ text. text.now) result ≡ holder_by holder m }
{
    match holder {
        Holder::Caller => {
            if is_had(view) {
                view.destination()
            } else {
                None
            }
        }
        Holder::Value => string_arg(view, 0),
        Holder::Sender => view.sender(),
    }
}

// Whether `RequestName` returned that its caller has the name.
fn is_had(view: &MessageView) -> bool
    ensures { (order : Order) (m : MessageTree) → Views view.now order m →
        result ≡ is_had (body_value 0 m.body) }
{
    match view.body().next() {
        Some(ValueView::U32(number)) => number == PRIMARY_OWNER || number == ALREADY_OWNER,
        _ => false,
    }
}
