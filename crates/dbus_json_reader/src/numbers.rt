//! Integers from JSON. RFC 8259, sections 6 and 7; D-Bus Specification, "Type System".
#![tactic(auto)]

ghost use Rattle.std.specs.Prelude.{◌≡◌, ◌^◌, ◌<◌, ◌≤◌, ℕ, ℤ, None, IfSome, FitsSigned, decimal, unsigned_abs};
ghost use Rattle.std.specs.Fmt.{signed_decimal};
ghost use Rattle.std.specs.Int.{w16, w32, w64};
ghost use Rattle.json.specs.Json.{number};
ghost use Rattle.json.specs.Value.{value_view};
ghost use Rattle.dbus_json_reader.specs.JsonNumbers.{SpellsWide};

use crate::integers::{signed_in, unsigned_in};
use dbus_json::Integers;
use json::Value;
use std::alloc::Allocator;

/// The unsigned number that a value is, if it is at most `most`: a number in decimal, with no
/// point, no exponent and no sign. It is `None` of any other value. RFC 8259, section 6.
pub fn unsigned<A: Allocator>(json: &Value<'_, A>, most: u64) -> Option<u64>
    ensures some { IfSome result (λ n. (n ≤ most) × (value_view json.now ≡ number (decimal n))) }
    ensures none { result ≡ None → (n : ℕ) → n ≤ most →
        value_view json.now ≡ number (decimal n) → ⊥ }
{
    let Value::Number(text) = json else {
        return None;
    };
    let number = unsigned_in(text.as_bytes())?;
    if number > most {
        return None;
    }
    Some(number)
}

/// The unsigned number of 64 bits that a value is: a number in decimal, with no point, no exponent
/// and no sign, if it may be one as [`Integers`] has it, or a string of it. It is `None` of any
/// other value. RFC 8259, sections 6 and 7.
pub fn unsigned_64<A: Allocator>(json: &Value<'_, A>, integers: Integers) -> Option<u64>
    ensures some { IfSome result (λ n.
        SpellsWide integers n (decimal n) (value_view json.now)) }
    ensures none { result ≡ None → (n : ℕ) → n < 2 ^ 64 →
        SpellsWide integers n (decimal n) (value_view json.now) → ⊥ }
{
    match json {
        Value::Number(text) => {
            let integer = unsigned_in(text.as_bytes())?;
            if !integers.may_be_number(integer) {
                return None;
            }
            Some(integer)
        }
        Value::String(text) => unsigned_in(text.as_bytes()),
        _ => None,
    }
}

/// The signed number of 64 bits that a value is: a number in decimal, with no point, no exponent,
/// no plus and no minus before a zero, if it may be one as [`Integers`] has it, or a string of it.
/// It is `None` of any other value. RFC 8259, sections 6 and 7.
pub fn signed_64<A: Allocator>(json: &Value<'_, A>, integers: Integers) -> Option<i64>
    ensures some { IfSome result (λ z.
        SpellsWide integers (unsigned_abs z) (signed_decimal z) (value_view json.now)) }
    ensures none { result ≡ None → (z : ℤ) → FitsSigned w64 z →
        SpellsWide integers (unsigned_abs z) (signed_decimal z) (value_view json.now) → ⊥ }
{
    match json {
        Value::Number(text) => {
            let integer = signed_in(text.as_bytes())?;
            if !integers.may_be_number(integer.unsigned_abs()) {
                return None;
            }
            Some(integer)
        }
        Value::String(text) => signed_in(text.as_bytes()),
        _ => None,
    }
}

/// The signed number of 32 bits that a value is: a number in decimal, with no point, no exponent,
/// no plus and no minus before a zero. It is `None` of any other value. RFC 8259, section 6.
pub fn signed_32<A: Allocator>(json: &Value<'_, A>) -> Option<i32>
    ensures some { IfSome result (λ z. value_view json.now ≡ number (signed_decimal z)) }
    ensures none { result ≡ None → (z : ℤ) → FitsSigned w32 z →
        value_view json.now ≡ number (signed_decimal z) → ⊥ }
{
    let Value::Number(text) = json else {
        return None;
    };
    i32::try_from(signed_in(text.as_bytes())?).ok()
}

/// The signed number of 16 bits that a value is, as in [`signed_32`]. RFC 8259, section 6.
pub fn signed_16<A: Allocator>(json: &Value<'_, A>) -> Option<i16>
    ensures some { IfSome result (λ z. value_view json.now ≡ number (signed_decimal z)) }
    ensures none { result ≡ None → (z : ℤ) → FitsSigned w16 z →
        value_view json.now ≡ number (signed_decimal z) → ⊥ }
{
    i16::try_from(signed_32(json)?).ok()
}
