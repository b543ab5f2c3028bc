//! The call that a message answers.
#![tactic(auto)]

ghost use Rattle.std.specs.Prelude.{◌≡◌, ◌+◌, ℕ, Some, None, option_map, is_some, if◌then◌else◌};
ghost use Rattle.dbus_calls.specs.Events.{event_of};
ghost use Rattle.dbus_calls.specs.Waiting.{answered};
ghost use Rattle.dbus_message_model.specs.Messages.{MessageTree};
ghost use Rattle.dbus_pending.specs.Waiting.{allowed, count, last, waiting};
ghost use Rattle.dbus_replies.specs.Replies.{answered_by, waiting_after};
ghost use Rattle.dbus_value_model.specs.declared.order.Order.{Order};
ghost use Rattle.dbus_view.specs.Views.{Views};

use dbus_calls::{Event, EventView, ReplySeen, Sent, may_answer};
use dbus_pending::Pending;

/// Takes the call that a message which came answers: it is a METHOD_RETURN or an ERROR, a call waits
/// with its REPLY_SERIAL, and its SENDER may answer that, as [`may_answer`] says. Then the call waits
/// no longer, so it is answered once. The DESTINATION of the message is not asked for, since the
/// message came to the side that sent the call. It allocates nothing.
///
/// D-Bus Specification, "Message Types" ("Method Calls") and "Header Fields" (REPLY_SERIAL, SENDER).
pub fn reply_of<T: Sent>(pending: &mut Pending<T>, message: &EventView<'_, '_>) -> Option<T>
    ensures answers { (order : Order) (m : MessageTree) → Views message.now order m →
        result ≡ answered_by T.sent_to (waiting pending.old) (event_of m) }
    ensures left { (order : Order) (m : MessageTree) → Views message.now order m → (s : ℕ) →
        waiting pending.new s ≡ waiting_after T.sent_to (waiting pending.old) (event_of m) s }
    ensures count { count pending.new + (if is_some result then 1 else 0) ≡ count pending.old }
    ensures same { (last pending.new ≡ last pending.old) × (allowed pending.new ≡ allowed pending.old) }
{
    match message.event() {
        Event::Reply(reply) if is_answered(pending, &reply) => pending.take(reply.serial),
        _ => None,
    }
}

// Whether a call waits that this reply may answer.
fn is_answered<T: Sent>(pending: &Pending<T>, reply: &ReplySeen<'_>) -> bool
    ensures { result ≡ is_some (answered T.sent_to (waiting pending.now reply.now.serial)
        (option_map (λ s. s.now) reply.now.sender)) }
{
    match pending.get(reply.serial) {
        Some(call) => may_answer(call.destination(), reply.sender),
        None => false,
    }
}
