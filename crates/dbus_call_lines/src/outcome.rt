//! What comes of calls.
#![tactic(auto)]

ghost use Rattle.std.specs.Prelude.{◌≡◌};
ghost use Rattle.dbus_value_model.specs.declared.order.Order.{Order};
ghost use Rattle.dbus_message_model.specs.Messages.{MessageTree};
ghost use Rattle.dbus_view.specs.Views.{Views};
ghost use Rattle.dbus_call_lines.specs.Outcomes.{outcome_by, outcome_seen};

use crate::place::Place;
use dbus_message_model::message_type::{ERROR, METHOD_CALL, METHOD_RETURN};
use dbus_view::MessageView;

/// What came of a call. D-Bus Specification, "Message Types".
#[derive(Clone, Copy, Debug, PartialEq, Eq)]
pub enum Outcome<'a> {
    /// The METHOD_RETURN at this place answered it.
    Reply(Place),
    /// The ERROR at this place answered it, which has this name.
    Error(Place, &'a str),
    /// It wants no reply: its flag NO_REPLY_EXPECTED is set.
    Unwanted,
    /// No reply came: it is open at the end.
    Open,
    /// No reply came: its caller left.
    Left,
    /// No reply came: its caller used its serial again.
    Replaced,
}

/// What comes of a call that the message of the view ends, which is at this place: its reply, a
/// call that uses its serial again, or the signal that its caller left. D-Bus Specification,
/// "Message Types".
pub fn outcome_of<'a>(place: Place, view: &MessageView<'a>) -> Outcome<'a>
    ensures { (order : Order) (m : MessageTree) → Views view.now order m →
        outcome_seen result ≡ outcome_by place m }
{
    match view.kind() {
        METHOD_RETURN => Outcome::Reply(place),
        ERROR => Outcome::Error(place, view.error_name().unwrap_or("-")),
        METHOD_CALL => Outcome::Replaced,
        _ => Outcome::Left,
    }
}
