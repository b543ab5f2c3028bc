//! Messages that are begun in a line.
#![tactic(auto)]

ghost use Rattle.std.specs.Prelude.{[], ◌∷◌};
ghost use Rattle.dbus_message_model.specs.MessageViews.{message_tree};
ghost use Rattle.dbus_compose.specs.Drafts.{IsDraft, begun, name_field, path_field, reply_fields, drafted};

use crate::builder::MessageBuilder;
use dbus_message_model::Message;
use dbus_message_model::field_code::{ERROR_NAME, INTERFACE, MEMBER};
use dbus_message_model::flag::NO_REPLY_EXPECTED;
use dbus_message_model::message_type::{ERROR, METHOD_CALL, METHOD_RETURN, SIGNAL};
use std::alloc::Allocator;

/// What begins a [`Message`] in a line, as `Message::call(alloc, path, member)`. It is a trait so
/// that reading messages does not wait for what makes them: bring it into scope by
/// `use dbus_message::Compose`.
///
/// What begins is a [`MessageBuilder`] with the fields that the message type requires. Nothing is
/// checked before its `build`. The serial is 1 unless it is set.
pub trait Compose: Sized {
    /// Where the message keeps what it holds.
    type Allocator;

    /// What the message is made by.
    type Builder;

    /// A call of a method. It has no flags, so that a reply is expected. D-Bus Specification,
    /// "Message Format", "Header Fields".
    fn call(alloc: Self::Allocator, path: &str, member: &str) -> Self::Builder;

    /// A signal, which expects no reply. D-Bus Specification, "Message Format", "Header Fields".
    fn signal(alloc: Self::Allocator, path: &str, interface: &str, member: &str) -> Self::Builder;

    /// The reply to a call, which expects no reply itself: its REPLY_SERIAL is the message's
    /// serial, and its DESTINATION the message's SENDER, if it has one. D-Bus Specification,
    /// "Message Format", "Header Fields".
    ///
    /// ```text
    /// let reply = Message::reply_to(alloc, &call).serial(serial).text("Hello!").build()?;
    /// ```
    fn reply_to(alloc: Self::Allocator, message: &Self) -> Self::Builder;

    /// The reply to a call that failed, with the error of this name; otherwise as
    /// [`Compose::reply_to`] says.
    fn error_to(alloc: Self::Allocator, message: &Self, name: &str) -> Self::Builder;
}

impl<A: Allocator + Copy> Compose for Message<A> {
    type Allocator = A;

    type Builder = MessageBuilder<A>;

    fn call(alloc: A, path: &str, member: &str) -> MessageBuilder<A>
        ensures { IsDraft
            (begun METHOD_CALL 0 (path_field path.now ∷ name_field MEMBER member.now ∷ []))
            (drafted result) }
    {
        MessageBuilder::begin(alloc, METHOD_CALL, 0)
            .path(path)
            .name(MEMBER, member)
    }

    fn signal(alloc: A, path: &str, interface: &str, member: &str) -> MessageBuilder<A>
        ensures { IsDraft
            (begun SIGNAL NO_REPLY_EXPECTED
            (path_field path.now ∷ name_field INTERFACE interface.now ∷ name_field MEMBER member.now ∷ []))
            (drafted result) }
    {
        MessageBuilder::begin(alloc, SIGNAL, NO_REPLY_EXPECTED)
            .path(path)
            .name(INTERFACE, interface)
            .name(MEMBER, member)
    }

    fn reply_to(alloc: A, message: &Message<A>) -> MessageBuilder<A>
        ensures { IsDraft
            (begun METHOD_RETURN NO_REPLY_EXPECTED (reply_fields (message_tree message.now)))
            (drafted result) }
    {
        MessageBuilder::reply(alloc, message.parts().serial, message.sender())
    }

    fn error_to(alloc: A, message: &Message<A>, name: &str) -> MessageBuilder<A>
        ensures { IsDraft
            (begun ERROR NO_REPLY_EXPECTED
            (name_field ERROR_NAME name.now ∷ reply_fields (message_tree message.now)))
            (drafted result) }
    {
        MessageBuilder::error(alloc, message.parts().serial, message.sender(), name)
    }
}
