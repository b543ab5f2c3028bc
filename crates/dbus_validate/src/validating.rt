//! Messages validated. D-Bus Specification, "Message Format".
#![tactic(auto)]

ghost use Rattle.std.specs.Prelude.{◌≡◌, ◌≤◌, ℕ, List, [], length, drop, true, false, None, IfSome};
ghost use Rattle.dbus_texts.specs.ComputedKinds.{types_spelled};
ghost use Rattle.dbus_texts.specs.Kinds.{IsKind};
ghost use Rattle.dbus_texts.specs.declared.text_kind.TextKind.TheVariants.{Signature};
ghost use Rattle.dbus_value_model.specs.declared.order.Order.{Order};
ghost use Rattle.dbus_message_model.specs.Messages.{FieldTree, MessageTree, body_signature, body_fds};
ghost use Rattle.dbus_header.specs.HeaderReading.{body_read};
ghost use Rattle.dbus_header.specs.MessageOutcomes.{IsWhole};
ghost use Rattle.dbus_value_validator.specs.Endings.{EndsAt, IsNotRead};
ghost use Rattle.dbus_validate.specs.Validating.{IsValidated, IsValidatedWhole, IsHeaded, validated_of};
ghost use Rattle.dbus_header.specs.NoMessage.{BeginsWithNone};
ghost use Rattle.dbus_validate.specs.Seen.{AreNoted};

use crate::fields::validate_fields;
use crate::seen::FieldPlaces;
use dbus_header::{FixedHeader, read_fixed_header};
use dbus_value_model::{Limits, Order};
use dbus_value_validator::{padding, validate_values};

/// What is said of a message that some bytes begin with. D-Bus Specification, "Message Format".
#[derive(Clone, Copy)]
pub struct Validated {
    /// The number of bytes of the message.
    pub length: usize,
    /// The byte order of its numbers.
    pub order: Order,
    /// The message type.
    pub kind: u8,
    /// The flags.
    pub flags: u8,
    /// The serial.
    pub serial: u32,
    /// Where the values of its known fields are.
    pub fields: FieldPlaces,
    /// The offset of its body, which ends where the message does.
    pub body: usize,
}

/// Whether from `at` up to `end` the bytes are a body of the types that the SIGNATURE field says.
fn is_body(
    bytes: &[u8],
    at: usize,
    end: usize,
    order: Order,
    seen: &FieldPlaces,
    limits: Limits,
) -> bool
    requires at_most { at ≤ end }
    requires inside { end ≤ length bytes.now }
    requires noted { (fs : List FieldTree) × AreNoted fs bytes.now seen.now }
    ensures accepts { result ≡ true → (fs : List FieldTree) → AreNoted fs bytes.now seen.now →
        IsKind Signature (body_signature fs) →
        EndsAt bytes.now end
        (body_read limits (body_fds limits fs) order (types_spelled (body_signature fs)) end at
        (drop at bytes.now)) }
    ensures refuses { result ≡ false → (fs : List FieldTree) → AreNoted fs bytes.now seen.now →
        IsKind Signature (body_signature fs) →
        IsNotRead (
        body_read limits (body_fds limits fs) order (types_spelled (body_signature fs)) end at
        (drop at bytes.now)) }
{
    let types = seen.signature(bytes);
    let fds = limits.fds.index_limit(seen.fd_count());
    let bounds = limits.bounds_with(fds);
    match validate_values(bytes, at, end, order, types, limits.depth, bounds) {
        Some(after) => after == end,
        None => false,
    }
}

/// What comes before the body of a message, and where the body is.
#[derive(Clone, Copy)]
pub(crate) struct Head {
    /// The first sixteen bytes.
    pub(crate) header: FixedHeader,
    /// The offset of the body.
    pub(crate) start: usize,
    /// The offset after it.
    pub(crate) end: usize,
}

impl Head {
    /// What is validated of the message, with where the values of its known fields are.
    fn validated(&self, fields: FieldPlaces) -> Validated
        ensures { result ≡ validated_of self.now fields }
    {
        Validated {
            length: self.end,
            order: self.header.order,
            kind: self.header.kind,
            flags: self.header.flags,
            serial: self.header.serial,
            fields,
            body: self.start,
        }
    }
}

/// What comes before the body of a message within the limits that the bytes begin with, if all
/// bytes of the body are there; its values are not looked at. `seen`, which had none, gets the
/// places of the values of its known fields.
#[inline(always)]
fn read_head(bytes: &[u8], limits: Limits, seen: &mut FieldPlaces) -> Option<Head>
    requires unseen { (b : List ℕ) → AreNoted [] b seen.old }
    ensures headed { IfSome result (λ x. IsHeaded limits bytes.now x seen.new) }
    ensures none { result ≡ None → BeginsWithNone limits bytes.now }
{
    let header = match read_fixed_header(bytes, limits) {
        Ok(header) => header,
        Err(_) => return None,
    };
    let n = header.fields as usize;
    if bytes.len() - 16 < n {
        return None;
    }
    if !validate_fields(bytes, 16, n, header.order, limits, seen) {
        return None;
    }
    if !seen.has_required(header.kind) {
        return None;
    }
    let start = padding(bytes, 16 + n, bytes.len(), 8)?;
    let size = header.body as usize;
    if bytes.len() - start < size {
        return None;
    }
    Some(Head {
        header,
        start,
        end: start + size,
    })
}

/// The message within the limits that the bytes begin with, and where its parts are.
///
/// Some says that the bytes begin with a whole message within the limits, of the length that is
/// returned: its order, type, flags and serial, where the value of each of its known fields is, and
/// where its body begins. Each part lies among these bytes, whatever follows them. Offsets count
/// from the first of the bytes. None says that they begin with no message within the limits: they
/// are at fault or too few. Which of the two, and the place and the reason of a fault, a reader or
/// a checker says. Nothing is allocated. D-Bus Specification, "Message Format".
pub fn validate(bytes: &[u8], limits: Limits) -> Option<Validated>
    ensures validated { IfSome result (λ j. IsValidated limits bytes.now j) }
    ensures none { result ≡ None → BeginsWithNone limits bytes.now }
{
    let mut seen = FieldPlaces::none();
    let head = read_head(bytes, limits, &mut seen)?;
    if !is_body(
        bytes,
        head.start,
        head.end,
        head.header.order,
        &seen,
        limits,
    ) {
        return None;
    }
    Some(head.validated(seen))
}

/// What is validated of bytes that are known to be one message within the limits, all of them, as a
/// checker says it. The values of its body are not looked at again. Nothing is allocated. D-Bus
/// Specification, "Message Format".
pub fn validate_known(bytes: &[u8], limits: Limits) -> Validated
    requires known { (order : Order) × (m : MessageTree) ×
        IsWhole limits bytes.now order m (length bytes.now) }
    ensures validated { IsValidatedWhole limits bytes.now result }
{
    let mut seen = FieldPlaces::none();
    match read_head(bytes, limits, &mut seen) {
        Some(head) => head.validated(seen),
        None => unreachable!(),
    }
}
