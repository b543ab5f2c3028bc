//! The values of a body as a tuple. D-Bus Specification, "Message Format".
#![tactic(auto)]

ghost use Rattle.std.specs.Prelude.{◌≡◌, MatchOption};
ghost use Rattle.dbus_value_model.specs.declared.order.Order.{Order};
ghost use Rattle.dbus_value_model.specs.Values.{types_of};
ghost use Rattle.dbus_message_model.specs.Messages.{MessageTree};
ghost use Rattle.dbus_view.specs.Views.{Views};

use crate::from_values::FromValues;
use dbus_view::MessageView;

/// The values of the body as a tuple, one for each value, or `None` if the body is not of exactly
/// these types. Texts are parts of the message's bytes. D-Bus Specification, "Message Format".
///
/// ```rust
/// use dbus_message::MessageView;
/// use dbus_typed::body_as;
///
/// if let Some((name, flags)) = body_as::<(&str, u32)>(&MessageView::of(bytes)?) {
///     println!(rt; "{name} with {flags}")?;
/// }
/// ```
pub fn body_as<'a, T: FromValues<'a>>(view: &MessageView<'a>) -> Option<T>
    ensures read { (order : Order) (m : MessageTree) → Views view.now order m →
        MatchOption result (types_of m.body ≡ T.stand_for → ⊥) (λ x. m.body ≡ T.trees x) }
{
    T::from_values(view.body())
}
