//! Header fields. D-Bus Specification, "Header Fields".
#![tactic(auto)]

ghost use Rattle.std.specs.Prelude.{◌≡◌, ◌+◌, ◌≤◌, ◌<◌, ◌^◌, ℕ, List, [], length, take, drop, IfSome, false, true};
ghost use Rattle.dbus_value_model.specs.Reading.{Done};
ghost use Rattle.dbus_header.specs.HeaderReading.{fields_read};
ghost use Rattle.dbus_header.specs.declared.field_limits.TheConstants.{FIELD_DEPTH};
ghost use Rattle.dbus_message_model.specs.Messages.{FieldTree};
ghost use Rattle.dbus_value_validator.specs.Endings.{IsNotRead};
ghost use Rattle.dbus_validate.specs.Seen.{HoldsField, AreNoted, ArePlaced};

use crate::field_values::{Held, validate_field_value};
use crate::seen::FieldPlaces;
use dbus_header::FIELD_DEPTH;
use dbus_value_model::{Limits, Order};
use dbus_value_validator::padding;

/// A header field: its code, and where its value is.
///
/// `bytes` begin at the message's first byte, from which offsets count; the field begins at `at`
/// and ends at or before `end`, up to which the bytes are there. Some says that the bytes from `at`
/// on are a field of that code, after any fields among which the code does not occur, or any at all
/// if it is not known. None says that no field begins at `at`, whichever come before it: the bytes
/// there are at fault, or the field does not end at or before `end`, or the limits' depth is below
/// [`FIELD_DEPTH`]. The field array is open around it. D-Bus Specification, "Header Fields".
pub(crate) fn validate_field(
    bytes: &[u8],
    at: usize,
    end: usize,
    order: Order,
    limits: Limits,
) -> Option<(u8, Held)>
    requires at_most { at ≤ end }
    requires inside { end ≤ length bytes.now }
    ensures field { (before : List FieldTree) →
        HoldsField limits order end before at bytes.now result }
    ensures deep { IfSome result (λ f. FIELD_DEPTH ≤ limits.depth) }
    ensures moves { IfSome result (λ f. (at < f.1.after) × (f.1.after ≤ end)) }
    ensures within { IfSome result (λ f. f.1.start + f.1.length ≤ f.1.after) }
{
    if limits.depth < FIELD_DEPTH {
        return None;
    }
    let start = padding(bytes, at, end, 8)?;
    if start == end {
        return None;
    }
    let code = bytes[start];
    if code == 0 {
        return None;
    }
    let held = validate_field_value(bytes, start + 1, end, order, code, limits)?;
    Some((code, held))
}

/// Whether the n bytes from `at` on are fields, and where the values of the known ones are, of
/// which none was seen before.
///
/// `bytes` begin at the message's first byte, from which offsets count, and they are there up to
/// the fields' end. True says that these n bytes are fields, none of a code 0 and no two of one
/// known code. False says that they are not: they are at fault, or there are some and the limits'
/// depth is below [`FIELD_DEPTH`]. The field array is open around them. D-Bus Specification,
/// "Header Fields".
pub(crate) fn validate_fields(
    bytes: &[u8],
    at: usize,
    n: usize,
    order: Order,
    limits: Limits,
    seen: &mut FieldPlaces,
) -> bool
    requires inside { at + n ≤ length bytes.now }
    requires few { at + n < 2 ^ 32 }
    requires begins { at ≡ 16 }
    requires unseen { (b : List ℕ) → AreNoted [] b seen.old }
    ensures accepts { result ≡ true → (fs : List FieldTree) ×
        (fields_read limits order n at (drop at bytes.now) ≡
        Done fs (at + n) (drop (at + n) bytes.now)) ×
        AreNoted fs (take (at + n) bytes.now) seen.new × ArePlaced order fs seen.new }
    ensures refuses { result ≡ false → IsNotRead (fields_read limits order n at (drop at bytes.now)) }
{
    let end = at + n;
    let mut place = at;
    // A field has at least one byte.
    for _turn in 0..n {
        if place == end {
            return true;
        }
        let Some((code, held)) = validate_field(bytes, place, end, order, limits) else {
            return false;
        };
        if seen.has(code) {
            return false;
        }
        seen.note(code, held);
        place = held.after;
    }
    end == place
}
