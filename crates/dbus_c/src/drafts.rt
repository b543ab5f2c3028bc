//! A message that is to be built, in numbers and in texts of the caller's, and the parts that it
//! stands for.
#![tactic(auto)]

ghost use Rattle.std.specs.Prelude.{◌≡◌, MatchOption, MatchResult};
ghost use Rattle.dbus_value_model.specs.declared.order.Order.{Order};
ghost use Rattle.dbus_message_model.specs.Messages.{MessageTree, order_byte};
ghost use Rattle.dbus_message_model.specs.KnownFields.{field_value};
ghost use Rattle.dbus_view.specs.Views.{Views};
ghost use Rattle.dbus_c.specs.Building.{AreNoParts, GivesText, Keeps, KeepsOrder, Kept, StandFor, text_given};

use crate::parts::order_byte;
use dbus_c_build::{Draft, Given};
use dbus_message_model::order_named;
use dbus_value_model::{Order, Reason};
use dbus_view::MessageView;

/// The text of a header field, wherever it is, or none.
#[repr(C)]
#[derive(Clone, Copy)]
pub struct DraftText<'a> {
    /// Its bytes.
    pub text: &'a [u8],
    /// 0 if there is no such field; any other number if there is, with this text.
    pub is_there: u64,
}

/// The parts of a message that is to be built, whose texts and body are anywhere. D-Bus
/// Specification, "Message Format" and "Header Fields".
#[repr(C)]
#[derive(Clone, Copy)]
pub struct WireDraft<'a> {
    /// Its first byte, `l` or `B`, which names its byte order, and so that of the body.
    pub order: u32,
    /// The message type.
    pub kind: u32,
    /// The flags.
    pub flags: u32,
    /// The serial.
    pub serial: u32,
    /// The REPLY_SERIAL, or 0 for none.
    pub reply_serial: u32,
    /// The number of the UNIX_FDS field, or 0 for none.
    pub unix_fds: u32,
    /// The PATH.
    pub path: DraftText<'a>,
    /// The INTERFACE.
    pub interface: DraftText<'a>,
    /// The MEMBER.
    pub member: DraftText<'a>,
    /// The ERROR_NAME.
    pub error_name: DraftText<'a>,
    /// The DESTINATION.
    pub destination: DraftText<'a>,
    /// The SENDER.
    pub sender: DraftText<'a>,
    /// The SIGNATURE of the body.
    pub signature: DraftText<'a>,
    /// The body, spelled as in a message, where a body begins at a multiple of 8.
    pub body: &'a [u8],
}

// The byte order that is named, if it is one, and that of the message that is kept.
fn order_given(draft: &WireDraft<'_>, given: &Given<'_>) -> Option<Order>
    ensures { (k : Kept) → Keeps given.now k → MatchOption result
        ((order : Order) → KeepsOrder k order → draft.now.order ≡ order_byte order → ⊥)
        (λ order. KeepsOrder k order × (draft.now.order ≡ order_byte order)) }
{
    match given.kept {
        Some(validated) => {
            if draft.order == order_byte(validated.order) {
                Some(validated.order)
            } else {
                None
            }
        }
        None => order_named(draft.order),
    }
}

// The parts that the draft stands for, or why it stands for none.
pub(crate) fn parts_given<'a>(draft: &WireDraft<'a>, given: &Given<'_>) -> Result<Draft<'a>, Reason>
    ensures { (k : Kept) → Keeps given.now k →
        MatchResult result (λ p. StandFor k draft.now p) (λ reason. AreNoParts k draft.now reason) }
{
    let order = match order_given(draft, given) {
        Some(order) => order,
        None => return Err(Reason::ByteOrder),
    };
    if draft.kind > 255 || draft.flags > 255 {
        return Err(Reason::Overrun);
    }
    Ok(Draft {
        order,
        kind: draft.kind as u8,
        flags: draft.flags as u8,
        serial: draft.serial,
        reply_serial: draft.reply_serial,
        unix_fds: draft.unix_fds,
        path: text_given(&draft.path),
        interface: text_given(&draft.interface),
        member: text_given(&draft.member),
        error_name: text_given(&draft.error_name),
        destination: text_given(&draft.destination),
        sender: text_given(&draft.sender),
        signature: text_given(&draft.signature),
        body: draft.body,
    })
}

// The text that is given, or none.
fn text_given<'a>(text: &DraftText<'a>) -> Option<&'a [u8]>
    ensures { result ≡ text_given text.now }
{
    if text.is_there == 0 {
        return None;
    }
    Some(text.text)
}

// Who sent a message, as a text for a draft.
pub(crate) fn sender_of<'a>(message: &MessageView<'a>) -> DraftText<'a>
    ensures { (order : Order) (m : MessageTree) → Views message.now order m →
        GivesText (field_value 7 m.fields) result }
{
    match message.sender() {
        Some(name) => DraftText {
            text: name.as_bytes(),
            is_there: 1,
        },
        None => DraftText {
            text: b"",
            is_there: 0,
        },
    }
}
