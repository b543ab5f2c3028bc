//! Values of header fields. D-Bus Specification, "Header Fields".
//!
//! `bytes` begin at the message's first byte, from which offsets count. A field's value begins at
//! `at` with its variant's signature, and is to end at or before `end`, up to which the bytes are
//! there. None says that no such value begins there, or that it does not end at or before `end`.
#![tactic(auto)]

ghost use Rattle.std.specs.Prelude.{◌≡◌, ℕ, ◌+◌, ◌≤◌, ◌<◌, List, [], ◌∷◌, length, drop, None, IfSome};
ghost use Rattle.dbus_texts.specs.ComputedKinds.{type_spelled};
ghost use Rattle.dbus_texts.specs.Types.{UINT32, OBJECT_PATH, SIGNATURE, NumberType, TextType};
ghost use Rattle.dbus_value_model.specs.declared.limits.Limits.{Limits};
ghost use Rattle.dbus_value_model.specs.declared.order.Order.{Order};
ghost use Rattle.dbus_value_model.specs.Reading.{Done};
ghost use Rattle.dbus_value_model.specs.WantedTexts.{Of, Only};
ghost use Rattle.dbus_message_model.specs.Messages.{Anything, OfType, Name, Serial, want};
ghost use Rattle.dbus_header.specs.HeaderReading.{wanted_signature};
ghost use Rattle.dbus_header.specs.declared.field_limits.TheConstants.{FIELD_DEPTH};
ghost use Rattle.dbus_value_validator.specs.Endings.{IsNotRead};
ghost use Rattle.dbus_validate.specs.Seen.{Holds};

use dbus_header::{FIELD_DEPTH, NAME_LIMIT};
use dbus_message_model::field_table::{Wanted, want};
use dbus_types::TextKind;
use dbus_value_model::{Limits, Order};
use dbus_value_validator::{is_ended_text, padding, short_text, validate_value, word};

/// Where the value of a header field is.
#[derive(Clone, Copy)]
pub(crate) struct Held {
    /// The offset of its text, or 0 if it is no text.
    pub start: usize,
    /// The number of bytes of its text, or 0.
    pub length: usize,
    /// Its number, or 0 if it is no UINT32.
    pub number: u32,
    /// The offset after it.
    pub after: usize,
}

/// A variant's signature of one letter: the offset after it.
fn letter(bytes: &[u8], at: usize, end: usize, wanted: u8) -> Option<usize>
    requires at_most { at ≤ end }
    requires inside { end ≤ length bytes.now }
    ensures gives { IfSome result (λ q. (order : Order) →
        wanted_signature order end (Only (wanted ∷ [])) at (drop at bytes.now) ≡
        Done (type_spelled (wanted ∷ [])) q (drop q bytes.now)) }
    ensures none { result ≡ None → (order : Order) →
        IsNotRead (wanted_signature order end (Only (wanted ∷ [])) at (drop at bytes.now)) }
    ensures moves { IfSome result (λ q. (q ≡ at + 3) × (q ≤ end)) }
{
    if end - at < 3 {
        return None;
    }
    if bytes[at] != 1 {
        return None;
    }
    if bytes[at + 1] != wanted {
        return None;
    }
    if bytes[at + 2] != 0 {
        return None;
    }
    Some(at + 3)
}

/// A name of a kind, as a STRING.
fn name(bytes: &[u8], at: usize, end: usize, order: Order, kind: TextKind) -> Option<Held>
    requires at_most { at ≤ end }
    requires inside { end ≤ length bytes.now }
    ensures held { (limits : Limits) →
        Holds limits order end (Name (Of kind)) at bytes.now result }
    ensures moves { IfSome result (λ h. (at ≤ h.after) × (h.after ≤ end)) }
    ensures within { IfSome result (λ h. h.start + h.length ≤ h.after) }
{
    let signed = letter(bytes, at, end, b's')?;
    let place = padding(bytes, signed, end, 4)?;
    let n = word(bytes, place, end, order)?;
    if n > NAME_LIMIT {
        return None;
    }
    let length = n as usize;
    let start = place + 4;
    if end - start <= length {
        return None;
    }
    if !is_ended_text(bytes, start, length, kind) {
        return None;
    }
    Some(Held {
        start,
        length,
        number: 0,
        after: start + length + 1,
    })
}

/// An OBJECT_PATH.
fn path(bytes: &[u8], at: usize, end: usize, order: Order) -> Option<Held>
    requires at_most { at ≤ end }
    requires inside { end ≤ length bytes.now }
    ensures held { (limits : Limits) →
        Holds limits order end (OfType (TextType OBJECT_PATH)) at bytes.now result }
    ensures moves { IfSome result (λ h. (at ≤ h.after) × (h.after ≤ end)) }
    ensures within { IfSome result (λ h. h.start + h.length ≤ h.after) }
{
    let signed = letter(bytes, at, end, b'o')?;
    let place = padding(bytes, signed, end, 4)?;
    let n = word(bytes, place, end, order)?;
    let length = n as usize;
    let start = place + 4;
    if end - start <= length {
        return None;
    }
    if !is_ended_text(bytes, start, length, TextKind::Path) {
        return None;
    }
    Some(Held {
        start,
        length,
        number: 0,
        after: start + length + 1,
    })
}

/// A SIGNATURE.
fn signature(bytes: &[u8], at: usize, end: usize, order: Order) -> Option<Held>
    requires at_most { at ≤ end }
    requires inside { end ≤ length bytes.now }
    ensures held { (limits : Limits) →
        Holds limits order end (OfType (TextType SIGNATURE)) at bytes.now result }
    ensures moves { IfSome result (λ h. (at ≤ h.after) × (h.after ≤ end)) }
    ensures within { IfSome result (λ h. h.start + h.length ≤ h.after) }
{
    let signed = letter(bytes, at, end, b'g')?;
    let length = short_text(bytes, signed, end, TextKind::Signature)?;
    let start = signed + 1;
    Some(Held {
        start,
        length,
        number: 0,
        after: start + length + 1,
    })
}

/// A UINT32.
fn number(bytes: &[u8], at: usize, end: usize, order: Order) -> Option<Held>
    requires at_most { at ≤ end }
    requires inside { end ≤ length bytes.now }
    ensures held { (limits : Limits) →
        Holds limits order end (OfType (NumberType UINT32)) at bytes.now result }
    ensures moves { IfSome result (λ h. (at ≤ h.after) × (h.after ≤ end)) }
    ensures within { IfSome result (λ h. h.start + h.length ≤ h.after) }
{
    let signed = letter(bytes, at, end, b'u')?;
    let place = padding(bytes, signed, end, 4)?;
    let number = word(bytes, place, end, order)?;
    Some(Held {
        start: 0,
        length: 0,
        number,
        after: place + 4,
    })
}

/// A UINT32 that is not 0.
fn serial(bytes: &[u8], at: usize, end: usize, order: Order) -> Option<Held>
    requires at_most { at ≤ end }
    requires inside { end ≤ length bytes.now }
    ensures held { (limits : Limits) →
        Holds limits order end Serial at bytes.now result }
    ensures moves { IfSome result (λ h. (at ≤ h.after) × (h.after ≤ end)) }
    ensures within { IfSome result (λ h. h.start + h.length ≤ h.after) }
{
    let signed = letter(bytes, at, end, b'u')?;
    let place = padding(bytes, signed, end, 4)?;
    let number = word(bytes, place, end, order)?;
    if number == 0 {
        return None;
    }
    Some(Held {
        start: 0,
        length: 0,
        number,
        after: place + 4,
    })
}

/// Any value, of a field that is not known.
fn anything(bytes: &[u8], at: usize, end: usize, order: Order, limits: Limits) -> Option<Held>
    requires opened { FIELD_DEPTH ≤ limits.depth }
    requires at_most { at ≤ end }
    requires inside { end ≤ length bytes.now }
    ensures held { Holds limits order end Anything at bytes.now result }
    ensures moves { IfSome result (λ h. (at ≤ h.after) × (h.after ≤ end)) }
    ensures within { IfSome result (λ h. h.start + h.length ≤ h.after) }
{
    let n = short_text(bytes, at, end, TextKind::Single)?;
    let first = at + 1;
    let types = &bytes[first..first + n];
    let depth_left = limits.depth - FIELD_DEPTH;
    let after = validate_value(
        bytes,
        first + n + 1,
        end,
        order,
        types,
        depth_left,
        limits.bounds(),
    )?;
    Some(Held {
        start: 0,
        length: 0,
        number: 0,
        after,
    })
}

/// The value of a field of a code: of its own type and kind if the code is known.
///
/// Some says that the bytes from `at` on are the signature and the value that such a field has, up
/// to `after`, and where its text is or what its number is, if the code is known. None says that no
/// such signature and value begin at `at`: the bytes there are at fault, or the value does not end
/// at or before `end`. The field array, the field and its variant are open around it. D-Bus
/// Specification, "Header Fields".
pub(crate) fn validate_field_value(
    bytes: &[u8],
    at: usize,
    end: usize,
    order: Order,
    code: u8,
    limits: Limits,
) -> Option<Held>
    requires opened { FIELD_DEPTH ≤ limits.depth }
    requires at_most { at ≤ end }
    requires inside { end ≤ length bytes.now }
    ensures held { Holds limits order end (want code) at bytes.now result }
    ensures moves { IfSome result (λ h. (at ≤ h.after) × (h.after ≤ end)) }
    ensures within { IfSome result (λ h. h.start + h.length ≤ h.after) }
{
    match want(code) {
        Wanted::Anything => anything(bytes, at, end, order, limits),
        Wanted::Path => path(bytes, at, end, order),
        Wanted::Name(kind) => name(bytes, at, end, order, kind),
        Wanted::Serial => serial(bytes, at, end, order),
        Wanted::Signature => signature(bytes, at, end, order),
        Wanted::Number => number(bytes, at, end, order),
    }
}
