//! Integers as texts in decimal, as `json` writes them. RFC 8259, section 6.
#![tactic(auto)]

ghost use Rattle.std.specs.Prelude.{◌≡◌, ◌^◌, ◌<◌, ℕ, ℤ, length, get_or, None, IfSome, FitsSigned, decimal};
ghost use Rattle.std.specs.Fmt.{signed_decimal};
ghost use Rattle.std.specs.Int.{w64};

/// The number of 64 bits that a text is in decimal, with no sign and no zero before another digit,
/// or `None` if it is none. RFC 8259, section 6.
pub fn unsigned_in(text: &[u8]) -> Option<u64>
    ensures some { IfSome result (λ n. text.now ≡ decimal n) }
    ensures none { result ≡ None → (n : ℕ) → n < 2 ^ 64 → text.now ≡ decimal n → ⊥ }
{
    if text.is_empty() {
        return None;
    }
    if text[0] == b'+' {
        return None;
    }
    if text[0] == b'0' {
        return zero_in(text);
    }
    fast_float::parse_u64(text).ok()
}

/// 0, if the text that begins with that digit has no other.
fn zero_in(text: &[u8]) -> Option<u64>
    requires some { 0 < length text.now }
    requires zero { get_or text.now 0 0 ≡ 48 }
    ensures some { IfSome result (λ n. text.now ≡ decimal n) }
    ensures none { result ≡ None → 1 < length text.now }
{
    if text.len() > 1 {
        return None;
    }
    Some(0)
}

/// The signed number of 64 bits that a text is in decimal, with no plus, no zero before another
/// digit and no minus before a zero, or `None` if it is none. RFC 8259, section 6.
pub fn signed_in(text: &[u8]) -> Option<i64>
    ensures some { IfSome result (λ z. text.now ≡ signed_decimal z) }
    ensures none { result ≡ None → (z : ℤ) → FitsSigned w64 z → text.now ≡ signed_decimal z → ⊥ }
{
    if text.is_empty() || text[0] != b'-' {
        let number = unsigned_in(text)?;
        if number > i64::MAX as u64 {
            return None;
        }
        return Some(number as i64);
    }
    let size = unsigned_in(&text[1..])?;
    if size == 0 {
        return None;
    }
    if size > 1 << 63 {
        return None;
    }
    Some(-((size - 1) as i64) - 1)
}
