//! What rules are asked of.
#![tactic(auto)]

ghost use Rattle.std.specs.Prelude.{◌≡◌, ◌≢◌, ◌↔◌, Some, None, IsTrue, MatchOption, string_bytes};
ghost use Rattle.dbus_message_model.specs.Messages.{MessageTree};
ghost use Rattle.dbus_rule.specs.declared.key.Key.TheVariants.{Sender};
ghost use Rattle.dbus_match.specs.Matching.{OtherHolds};
ghost use Rattle.dbus_match.specs.TakenFor.{IsNoted, IsOf, text_at};

use crate::argument::Argument;
use crate::matching::holds;
use crate::owner::Owner;
use crate::texts::field_text;
use crate::view_matching::other_holds;
use dbus_message_model::Message;
use dbus_message_model::field_code::{DESTINATION, INTERFACE};
use dbus_rule::Condition;
use dbus_view::MessageView;
use std::alloc::Allocator;

/// A message that rules are asked of.
#[derive(Drop)]
pub(crate) enum Subject<'m, 'a, A: Allocator> {
    /// It is decoded.
    Decoded(&'m Message<A>),
    /// It is seen in place, and these values of its body are noted.
    Seen(&'m MessageView<'a>, &'m [Argument<'a>]),
}

impl<'m, 'a, A: Allocator> Subject<'m, 'a, A> {
    /// The message's type.
    pub(crate) fn kind(&self) -> u8
        ensures { (m : MessageTree) → IsOf self.now m → result ≡ m.kind }
    {
        match self {
            Subject::Decoded(message) => message.parts().kind,
            Subject::Seen(view, _) => view.kind(),
        }
    }

    /// Its INTERFACE, if there is one.
    pub(crate) fn interface(&self) -> Option<&str>
        ensures { (m : MessageTree) → IsOf self.now m →
            MatchOption result (text_at 2 m ≡ None) (λ s. text_at 2 m ≡ Some s.now) }
    {
        match self {
            Subject::Decoded(message) => field_text(message, INTERFACE),
            Subject::Seen(view, _) => view.interface(),
        }
    }

    /// Its DESTINATION, if there is one.
    pub(crate) fn destination(&self) -> Option<&str>
        ensures { (m : MessageTree) → IsOf self.now m →
            MatchOption result (text_at 6 m ≡ None) (λ s. text_at 6 m ≡ Some s.now) }
    {
        match self {
            Subject::Decoded(message) => field_text(message, DESTINATION),
            Subject::Seen(view, _) => view.destination(),
        }
    }

    /// Whether the condition holds of it, if its key is not `sender`.
    pub(crate) fn meets<B: Allocator>(&self, condition: &Condition<B>) -> bool
        requires { IsNoted self.now }
        ensures { (m : MessageTree) → IsOf self.now m → condition.now.key ≢ Sender →
            IsTrue result ↔ OtherHolds condition.now.key (string_bytes condition.now.value) m }
    {
        match self {
            Subject::Decoded(message) => {
                let none: &[Owner] = &[];
                holds(condition, message, none)
            }
            Subject::Seen(view, noted) => other_holds(condition, view, noted),
        }
    }
}
