//! DOUBLEs from JSON. RFC 8259, sections 6 and 7; D-Bus Specification, "Type System".
#![tactic(auto)]

ghost use Rattle.std.specs.Prelude.{◌≡◌, ℕ, None, IfSome, from_bits, true, false};
ghost use Rattle.std.specs.Float.{binary64, float_is_finite};
ghost use Rattle.json.specs.Value.{value_view};
ghost use Rattle.dbus_json_reader.specs.JsonNumbers.{IsFinite, IsDigits, SpellsDouble};

use json::Value;
use std::alloc::Allocator;

/// The bits of a float, or `None` if it is infinite or no number.
fn finite_bits(number: f64) -> Option<u64>
    ensures some { IfSome result (λ n.
        (number ≡ from_bits binary64 n) × (float_is_finite number ≡ true)) }
    ensures none { result ≡ None → float_is_finite number ≡ false }
{
    if number.is_finite() {
        Some(number.to_bits())
    } else {
        None
    }
}

/// The bits of the float that is nearest to the number that a text is, or `None` if it is none, or
/// one too large for a float.
fn number_in(text: &[u8]) -> Option<u64>
    ensures some { IfSome result (λ n. IsFinite n text.now) }
    ensures none { result ≡ None → (n : ℕ) → IsFinite n text.now → ⊥ }
{
    finite_bits(fast_float::parse(text).ok()?)
}

/// The number of which a text is the 16 hexadecimal digits, or `None` if it is of none.
fn digits_in(text: &[u8]) -> Option<u64>
    ensures some { IfSome result (λ n. IsDigits n text.now) }
    ensures none { result ≡ None → (n : ℕ) → IsDigits n text.now → ⊥ }
{
    let mut bytes = [0; 8];
    match hex::decode_to_slice(text, &mut bytes) {
        Ok(()) => Some(u64::from_be_bytes(bytes)),
        Err(_) => None,
    }
}

/// The 64 bits of the DOUBLE that a value spells: of the finite float that is nearest to a number,
/// or those of which a string is the 16 hexadecimal digits, in either case, the highest place
/// first. It is `None` of a number too large for a float, and of any other value.
///
/// RFC 8259, sections 6 and 7; D-Bus Specification, "Type System".
pub fn double<A: Allocator>(json: &Value<'_, A>) -> Option<u64>
    ensures some { IfSome result (λ n. SpellsDouble n (value_view json.now)) }
    ensures none { result ≡ None → (n : ℕ) → SpellsDouble n (value_view json.now) → ⊥ }
{
    match json {
        Value::Number(text) => number_in(text.as_bytes()),
        Value::String(text) => digits_in(text.as_bytes()),
        _ => None,
    }
}
