//! A view of a message. D-Bus Specification, "Message Format".
#![tactic(auto)]

ghost use Rattle.std.specs.Prelude.{◌≡◌, ℕ, [], length, Some, None, IsOk, IfOk, IfErr, MatchOption};
ghost use Rattle.dbus_texts.specs.Types.{UINT32, STRING, OBJECT_PATH};
ghost use Rattle.dbus_value_model.specs.Values.{NumberValue, TextValue};
ghost use Rattle.dbus_value_model.specs.declared.order.Order.{Order};
ghost use Rattle.dbus_value_model.specs.Specification.{specification};
ghost use Rattle.dbus_message_model.specs.Messages.{MessageTree, want};
ghost use Rattle.dbus_message_model.specs.KnownFields.{field_value, body_value};
ghost use Rattle.dbus_header.specs.MessageOutcomes.{IsWhole};
ghost use Rattle.dbus_validate.specs.Validating.{IsValidated};

use crate::arg::{arg_at, place_of, view_of};
use crate::arg_place::ArgPlace;
use crate::arg_view::ArgView;
use crate::fields::Fields;
use dbus_check::fault_at_end;
use dbus_message_model::field_code::{
    DESTINATION, ERROR_NAME, INTERFACE, MEMBER, PATH, REPLY_SERIAL, SENDER,
};
use dbus_validate::{Validated, validate};
use dbus_value_model::{Fault, Limits, Order, Reason};
use dbus_values::Values;
use dbus_walk::{MessageBytes, text_in};
use std::marker::Model;

/// A view of a message, which borrows its bytes. D-Bus Specification, "Message Format".
///
/// All of the bytes are one message, and it keeps the limits that the view was made with. What the
/// calls give is what that message has; texts are parts of the bytes. No call allocates.
#[derive(Drop)]
pub struct MessageView<'a> {
    bytes: &'a [u8],
    limits: Limits,
    validated: Validated,
}

impl<'a> Model for MessageView<'a> {
    ghost use Rattle.dbus_validate.specs.Validating.{IsValidatedWhole};
    ghost use Rattle.dbus_view.specs.Views.{ViewState};

    ghost Value = { ViewState };

    ghost view = { λ v. record { limits = v.limits; bytes = v.bytes.now } };

    ghost invariant = { λ v. IsValidatedWhole v.limits v.bytes.now v.validated };
}

impl<'a> MessageView<'a> {
    ghost use Rattle.dbus_values.specs.States.{AreLeft};
    ghost use Rattle.dbus_view.specs.Bodies.{IsArgThere, IsPlaceThere, all_values};
    ghost use Rattle.dbus_view.specs.Views.{FieldsAreLeft, IsViewFault, Views, ViewsOne, IsViewOf};
    ghost use Rattle.dbus_message_model.specs.KnownFields.{WantsText, IsTextOf};

    /// A view of the message that the bytes are, as [`MessageView::of_within`] makes it under the
    /// limits of the specification.
    ///
    /// ```rust
    /// use dbus_message::MessageView;
    ///
    /// let view = MessageView::of(bytes)?;
    /// if let (Some(sender), Some(member)) = (view.sender(), view.member()) {
    ///     println!(rt; "{member} from {sender}, serial {}", view.serial())?;
    /// }
    /// ```
    pub fn of(bytes: &'a [u8]) -> Result<MessageView<'a>, Fault>
        ensures viewed { IfOk result (λ v. IsViewOf specification bytes.now v) }
        ensures refused { IfErr result (λ f. IsViewFault specification bytes.now f) }
        ensures accepts { (order : Order) (m : MessageTree) →
            IsWhole specification bytes.now order m (length bytes.now) → IsOk result }
    {
        MessageView::of_within(bytes, Limits::specification())
    }

    /// A view of the message that the bytes are, all of them, if it keeps the limits. D-Bus
    /// Specification, "Message Format".
    ///
    /// Else why they are not one: the fault of the message that begins so, as decoding finds it;
    /// `Truncated` at the end of the bytes, if these show no fault and are no whole message;
    /// `Trailing` at the end of the message that they begin with, if others follow it.
    pub fn of_within(bytes: &'a [u8], limits: Limits) -> Result<MessageView<'a>, Fault>
        ensures viewed { IfOk result (λ v. IsViewOf limits bytes.now v) }
        ensures refused { IfErr result (λ f. IsViewFault limits bytes.now f) }
        ensures accepts { (order : Order) (m : MessageTree) →
            IsWhole limits bytes.now order m (length bytes.now) → IsOk result }
    {
        match validate(bytes, limits) {
            Some(validated) => {
                if validated.length < bytes.len() {
                    return Err(Fault {
                        at: validated.length as u64,
                        reason: Reason::Trailing,
                    });
                }
                Ok(MessageView::of_validated(bytes, limits, validated))
            }
            None => Err(fault_at_end(bytes, limits)),
        }
    }

    /// A view of the message that the bytes, all of them, were validated to be under the limits.
    pub fn of_validated(bytes: &'a [u8], limits: Limits, validated: Validated) -> MessageView<'a>
        requires validated { IsValidated limits bytes.now validated }
        requires all { validated.length ≡ length bytes.now }
        ensures viewed { IsViewOf limits bytes.now result }
    {
        MessageView {
            bytes,
            limits,
            validated,
        }
    }

    /// The bytes of the message.
    pub fn bytes(&self) -> &'a [u8]
        ensures bytes { result.now ≡ self.now.bytes }
        ensures one { ViewsOne self.now }
    {
        self.bytes
    }

    /// The byte order of the message.
    pub fn order(&self) -> Order
        ensures { (order : Order) (m : MessageTree) → Views self.now order m → result ≡ order }
    {
        self.validated.order
    }

    /// The message type. D-Bus Specification, "Message Format".
    pub fn kind(&self) -> u8
        ensures { (order : Order) (m : MessageTree) → Views self.now order m → result ≡ m.kind }
    {
        self.validated.kind
    }

    /// The flags. D-Bus Specification, "Message Format".
    pub fn flags(&self) -> u8
        ensures { (order : Order) (m : MessageTree) → Views self.now order m → result ≡ m.flags }
    {
        self.validated.flags
    }

    /// The serial. D-Bus Specification, "Message Format".
    pub fn serial(&self) -> u32
        ensures { (order : Order) (m : MessageTree) → Views self.now order m → result ≡ m.serial }
    {
        self.validated.serial
    }

    /// The text of the field of a code of which a text is wanted.
    fn text(&self, code: u8) -> Option<&'a str>
        requires { WantsText (want code) }
        ensures { (order : Order) (m : MessageTree) → Views self.now order m →
            MatchOption result (field_value code m.fields ≡ None) (λ s.
            IsTextOf (want code) (field_value code m.fields) s.now) }
    {
        let place = self.validated.fields.get(code)?;
        Some(text_in(self.bytes, place.start as usize, place.length as usize))
    }

    /// The PATH field, if there is one. D-Bus Specification, "Header Fields".
    pub fn path(&self) -> Option<&'a str>
        ensures { (order : Order) (m : MessageTree) → Views self.now order m →
            MatchOption result (field_value 1 m.fields ≡ None) (λ s.
            field_value 1 m.fields ≡ Some (TextValue OBJECT_PATH s.now)) }
    {
        self.text(PATH)
    }

    /// The INTERFACE field, if there is one. D-Bus Specification, "Header Fields".
    pub fn interface(&self) -> Option<&'a str>
        ensures { (order : Order) (m : MessageTree) → Views self.now order m →
            MatchOption result (field_value 2 m.fields ≡ None) (λ s.
            field_value 2 m.fields ≡ Some (TextValue STRING s.now)) }
    {
        self.text(INTERFACE)
    }

    /// The MEMBER field, if there is one. D-Bus Specification, "Header Fields".
    pub fn member(&self) -> Option<&'a str>
        ensures { (order : Order) (m : MessageTree) → Views self.now order m →
            MatchOption result (field_value 3 m.fields ≡ None) (λ s.
            field_value 3 m.fields ≡ Some (TextValue STRING s.now)) }
    {
        self.text(MEMBER)
    }

    /// The ERROR_NAME field, if there is one. D-Bus Specification, "Header Fields".
    pub fn error_name(&self) -> Option<&'a str>
        ensures { (order : Order) (m : MessageTree) → Views self.now order m →
            MatchOption result (field_value 4 m.fields ≡ None) (λ s.
            field_value 4 m.fields ≡ Some (TextValue STRING s.now)) }
    {
        self.text(ERROR_NAME)
    }

    /// The REPLY_SERIAL field, if there is one. D-Bus Specification, "Header Fields".
    pub fn reply_serial(&self) -> Option<u32>
        ensures { (order : Order) (m : MessageTree) → Views self.now order m →
            MatchOption result (field_value 5 m.fields ≡ None) (λ n.
            field_value 5 m.fields ≡ Some (NumberValue UINT32 n)) }
    {
        let place = self.validated.fields.get(REPLY_SERIAL)?;
        Some(place.number)
    }

    /// The DESTINATION field, if there is one. D-Bus Specification, "Header Fields".
    pub fn destination(&self) -> Option<&'a str>
        ensures { (order : Order) (m : MessageTree) → Views self.now order m →
            MatchOption result (field_value 6 m.fields ≡ None) (λ s.
            field_value 6 m.fields ≡ Some (TextValue STRING s.now)) }
    {
        self.text(DESTINATION)
    }

    /// The SENDER field, if there is one. D-Bus Specification, "Header Fields".
    pub fn sender(&self) -> Option<&'a str>
        ensures { (order : Order) (m : MessageTree) → Views self.now order m →
            MatchOption result (field_value 7 m.fields ≡ None) (λ s.
            field_value 7 m.fields ≡ Some (TextValue STRING s.now)) }
    {
        self.text(SENDER)
    }

    /// The header fields, those of unknown codes too, none of them seen yet. D-Bus Specification,
    /// "Header Fields".
    pub fn fields(&self) -> Fields<'a>
        ensures left { (order : Order) (m : MessageTree) → Views self.now order m → FieldsAreLeft result m.fields }
        ensures one { ViewsOne self.now }
    {
        let source = MessageBytes {
            bytes: self.bytes,
            order: self.validated.order,
        };
        Fields::new(&source, self.limits.depth)
    }

    /// The values of the body, none of them seen yet. D-Bus Specification, "Message Format".
    ///
    /// ```rust
    /// use dbus_message::{MessageView, ValueView};
    ///
    /// for value in MessageView::of(bytes)?.body() {
    ///     match value {
    ///         ValueView::Str(text) => println!(rt; "{text}")?,
    ///         ValueView::Array(elements) => println!(rt; "{} elements", elements.count())?,
    ///         _ => println!(rt; "another value")?,
    ///     }
    /// }
    /// ```
    pub fn body(&self) -> Values<'a>
        ensures all { (order : Order) (m : MessageTree) → Views self.now order m → result ≡ all_values self.now order m }
        ensures left { (order : Order) (m : MessageTree) → Views self.now order m → AreLeft result m.body [] }
        ensures one { ViewsOne self.now }
    {
        let source = MessageBytes {
            bytes: self.bytes,
            order: self.validated.order,
        };
        let types = self.validated.fields.signature(self.bytes);
        Values::new(&source, self.validated.body, types, self.limits.depth)
    }

    /// Value `n` of the body, counted from 0, if there is one. The values before it are passed
    /// over. D-Bus Specification, "Message Format".
    pub fn arg(&self, n: usize) -> Option<ArgView<'a>>
        ensures { (order : Order) (m : MessageTree) → Views self.now order m →
            MatchOption result (body_value n m.body ≡ None) (λ a.
            IsArgThere (body_value n m.body) a) }
    {
        let arg = arg_at(self.body(), n)?;
        Some(view_of(arg))
    }

    /// Where the text of value `n` of the body is in the bytes, the values counted from 0, and the
    /// first code of its type, if there is one. The values before it are passed over. D-Bus
    /// Specification, "Message Format".
    pub fn arg_place(&self, n: usize) -> Option<ArgPlace>
        ensures { (order : Order) (m : MessageTree) → Views self.now order m →
            MatchOption result (body_value n m.body ≡ None) (λ p.
            IsPlaceThere order m n self.now.bytes p) }
    {
        let arg = arg_at(self.body(), n)?;
        Some(place_of(arg))
    }
}
