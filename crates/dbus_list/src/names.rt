//! What the header of a message has, or what stands for it. D-Bus Specification, "Header Fields".
#![tactic(auto)]

ghost use Rattle.std.specs.Prelude.{◌≡◌, unwrap_or};
ghost use Rattle.dbus_value_model.specs.declared.order.Order.{Order};
ghost use Rattle.dbus_message_model.specs.Messages.{MessageTree};
ghost use Rattle.dbus_message_model.specs.declared.field_code.TheConstants.{ERROR_NAME, MEMBER};
ghost use Rattle.dbus_view.specs.Views.{Views};
ghost use Rattle.dbus_calls.specs.Events.{destination_of, reply_serial_of, sender_of, text_at};
ghost use Rattle.dbus_list.specs.Lines.{nobody, or_dash};

use dbus_message_model::message_type::SIGNAL;
use dbus_view::MessageView;

/// The sender, or `-`.
pub(crate) fn sender_of<'a>(view: &MessageView<'a>) -> &'a str
    ensures { (order : Order) (m : MessageTree) → Views view.now order m →
        result.now ≡ or_dash (sender_of m) }
{
    view.sender().unwrap_or("-")
}

/// What stands for a destination that a message of this type does not have.
fn nobody(kind: u8) -> &'static str
    ensures { result.now ≡ nobody kind }
{
    if kind == SIGNAL { "*" } else { "-" }
}

/// The destination; or `*` for a signal without one, or `-`.
pub(crate) fn destination_of<'a>(view: &MessageView<'a>) -> &'a str
    ensures { (order : Order) (m : MessageTree) → Views view.now order m →
        result.now ≡ unwrap_or (destination_of m) (nobody m.kind) }
{
    let nobody = nobody(view.kind());
    view.destination().unwrap_or(nobody)
}

/// The member, or `-`.
pub(crate) fn member_of<'a>(view: &MessageView<'a>) -> &'a str
    ensures { (order : Order) (m : MessageTree) → Views view.now order m →
        result.now ≡ or_dash (text_at MEMBER m) }
{
    view.member().unwrap_or("-")
}

/// The name of an error, or `-`.
pub(crate) fn error_name_of<'a>(view: &MessageView<'a>) -> &'a str
    ensures { (order : Order) (m : MessageTree) → Views view.now order m →
        result.now ≡ or_dash (text_at ERROR_NAME m) }
{
    view.error_name().unwrap_or("-")
}

/// The serial of the call that a reply is to, or 0.
pub(crate) fn reply_serial_of(view: &MessageView) -> u32
    ensures { (order : Order) (m : MessageTree) → Views view.now order m → result ≡ reply_serial_of m }
{
    view.reply_serial().unwrap_or(0)
}
