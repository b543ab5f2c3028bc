//! Texts from JSON. RFC 8259, section 7; D-Bus Specification, "Basic types".
#![tactic(auto)]

ghost use Rattle.std.specs.Prelude.{◌≡◌, ◌^◌, ◌<◌, ℕ, List, None, IfSome, length};
ghost use Rattle.json.specs.Json.{string};
ghost use Rattle.json.specs.Value.{value_view};
ghost use Rattle.dbus_texts.specs.Kinds.{IsKind};

use dbus_types::{TextKind, text_break};
use json::Value;
use std::alloc::Allocator;

/// The text of a string that is of the kind and has a length that fits in 32 bits. It is `None` of
/// any other value.
///
/// RFC 8259, section 7; D-Bus Specification, "Basic types", "Valid Object Paths", "Valid Names" and
/// "Valid Signatures".
pub fn text<'v, A: Allocator>(json: &'v Value<'_, A>, kind: TextKind) -> Option<&'v str>
    ensures some { IfSome result (λ t. (value_view json.now ≡ string t.now)
        × IsKind kind t.now × (length t.now < 2 ^ 32)) }
    ensures none { result ≡ None → (t : List ℕ) → IsKind kind t → length t < 2 ^ 32 →
        value_view json.now ≡ string t → ⊥ }
{
    let Value::String(text) = json else {
        return None;
    };
    if text.len() > u32::MAX as usize || text_break(kind, text.as_bytes()).is_some() {
        return None;
    }
    Some(text)
}
