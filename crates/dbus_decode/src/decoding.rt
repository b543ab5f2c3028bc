//! Messages decoded. D-Bus Specification, "Message Protocol".
#![tactic(auto)]

ghost use Rattle.std.specs.Prelude.{◌≡◌, length, IfOk, IfErr};
ghost use Rattle.dbus_value_model.specs.Specification.{specification};
ghost use Rattle.dbus_value_model.specs.declared.fault.Refusal.TheVariants.{Memory};
ghost use Rattle.dbus_value_model.specs.declared.order.Order.{Order};
ghost use Rattle.dbus_message_model.specs.Messages.{MessageTree};
ghost use Rattle.dbus_message_model.specs.MessageViews.{message_tree};
ghost use Rattle.dbus_message_model.specs.PackedMessages.{MessageKeepsBytes};
ghost use Rattle.dbus_header.specs.MessageOutcomes.{IsWhole};
ghost use Rattle.dbus_validate.specs.Validating.{IsValidated};
ghost use Rattle.dbus_decode.specs.Decodes.{Decodes};
ghost use Rattle.dbus_decode.specs.Beginnings.{AnswerKeepsBytes, BeginsWithOne};

use crate::answer::Answer;
use crate::building::build_message;
use dbus_check::fault_of;
use dbus_message_model::Message;
use dbus_validate::{Validated, validate, validate_known};
use dbus_value_model::{Limits, Order, Refusal};
use std::alloc::{AllocError, Allocator};

/// Decodes the message that the bytes begin with, within the limits of the specification, as
/// [`decode_within`] says. D-Bus Specification, "Message Protocol".
///
/// ```rust
/// use dbus_message::{Answer, decode};
///
/// match decode(alloc, bytes)? {
///     Answer::Whole { message, used, .. } => {
///         println!(rt; "{used} bytes, serial {}", message.parts().serial)?;
///     }
///     Answer::Partial => println!(rt; "read more bytes, and decode them all again")?,
/// }
/// ```
pub fn decode<A: Allocator + Copy>(alloc: A, bytes: &[u8]) -> Result<Answer<A>, Refusal>
    ensures decodes { Decodes specification bytes.now result }
    ensures packed { IfOk result AnswerKeepsBytes }
    ensures memory { IfErr result (λ e. e ≡ Memory → BeginsWithOne specification bytes.now) }
{
    decode_within(alloc, bytes, Limits::specification())
}

/// Decodes the message that the bytes begin with, under limits. D-Bus Specification, "Message
/// Protocol".
///
/// `Whole` if they do: `used` is its number of bytes, and those after it are not looked at.
/// `Partial` if they neither do nor are refused: more bytes are wanted. `Format` if the next item
/// of the message is at fault, with the fault's place, as soon as the bytes that are there show it.
/// `Memory` only if an allocation failed, and only of a whole message: nothing is allocated for
/// bytes that are refused or partial. An array of BYTE comes as `Bytes`, in the values of fields
/// and of the body, also within others.
///
/// Of the limits: `MessageTooLong` at 12 if the header states more bytes than the limits' message,
/// `ArrayTooLong` at its length if an array has more than their array (the field array at 12), and
/// `TooDeep` if a container is opened while their depth are open: at 12 for the field array, after
/// a field's padding for its struct, after its code for its variant. If their rule on descriptors
/// is `BelowCount`: `FdIndex` at an index in the body that is not below the number of the UNIX_FDS
/// field, which is 0 if there is none. Indexes in header fields are not looked at.
pub fn decode_within<A: Allocator + Copy>(
    alloc: A,
    bytes: &[u8],
    limits: Limits,
) -> Result<Answer<A>, Refusal>
    ensures decodes { Decodes limits bytes.now result }
    ensures packed { IfOk result AnswerKeepsBytes }
    ensures memory { IfErr result (λ e. e ≡ Memory → BeginsWithOne limits bytes.now) }
{
    let Some(validated) = validate(bytes, limits) else {
        return match fault_of(bytes, limits) {
            Some(fault) => Err(Refusal::Format(fault)),
            None => Ok(Answer::Partial),
        };
    };
    match message_of(alloc, bytes, &validated, limits) {
        Ok(message) => Ok(Answer::Whole {
            order: validated.order,
            message,
            used: validated.length,
        }),
        Err(AllocError) => Err(Refusal::Memory),
    }
}

/// Decodes bytes that are known to be one message within the limits, such as those that a checker
/// passed, and returns its byte order too. The values of its body are not looked at before they are
/// built. The one error is that an allocation failed. D-Bus Specification, "Message Protocol".
pub fn decode_known<A: Allocator + Copy>(
    alloc: A,
    bytes: &[u8],
    limits: Limits,
) -> Result<(Order, Message<A>), AllocError>
    requires known { (order : Order) × (m : MessageTree) ×
        IsWhole limits bytes.now order m (length bytes.now) }
    ensures decoded { IfOk result (λ r.
        IsWhole limits bytes.now r.0 (message_tree r.1) (length bytes.now)) }
    ensures packed { IfOk result (λ r. MessageKeepsBytes r.1) }
{
    let validated = validate_known(bytes, limits);
    let message = message_of(alloc, bytes, &validated, limits)?;
    Ok((validated.order, message))
}

/// The message that was validated in the bytes.
fn message_of<A: Allocator + Copy>(
    alloc: A,
    bytes: &[u8],
    validated: &Validated,
    limits: Limits,
) -> Result<Message<A>, AllocError>
    requires validated { IsValidated limits bytes.now validated.now }
    ensures whole { IfOk result (λ m. IsWhole limits bytes.now validated.now.order
        (message_tree m) validated.now.length) }
    ensures packed { IfOk result MessageKeepsBytes }
{
    let parts = build_message(alloc, bytes, validated, limits)?;
    Ok(Message::of_valid(parts, validated.length))
}
