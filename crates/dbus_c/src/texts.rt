//! Whether bytes are a text of a kind, in numbers.
#![tactic(auto)]

ghost use Rattle.std.specs.Prelude.{◌≡◌, None, IfSome, IsTrue, IsFalse};
ghost use Rattle.dbus_texts.specs.Kinds.{IsWithinLimit};
ghost use Rattle.dbus_c.specs.TextChecking.{kind_numbered, TellsText};

use crate::answers::{NO_KIND, REFUSED, WHOLE};
use dbus_header::NAME_LIMIT;
use dbus_texts::{TextKind, text_break};

/// The result of checking a text. Fields that do not apply are 0.
#[repr(C)]
#[derive(Drop)]
pub struct TextChecked {
    /// Of a text that is refused and not too long: its break, in bytes from the first.
    pub offset: u64,
    /// 1 if the text has more bytes than its kind allows; else 0.
    pub is_too_long: u32,
    /// 0.
    pub reserved: u32,
}

/// Whether the bytes are a text of the kind that has this number: [`WHOLE`] if they are, else
/// [`REFUSED`] with the reason.
///
/// A text is too long if it has more than 255 bytes and is not a STRING or an object path; this
/// comes first. Else it breaks at the length of its longest prefix with which some text of the kind
/// begins, limits on length aside. [`NO_KIND`] if there is no kind of this number; `out` then stays
/// as it is. It allocates nothing.
///
/// D-Bus Specification, "Basic types", "Valid Object Paths", "Valid Names", "Valid Signatures".
#[unsafe(no_mangle)]
pub extern "C" fn dbus_wire_text_check(kind: u32, bytes: &[u8], out: &mut TextChecked) -> u32
    ensures tells { IfSome (kind_numbered kind) (λ k. TellsText k bytes.now result out.new) }
    ensures no_kind { kind_numbered kind ≡ None → result ≡ NO_KIND }
    ensures unchanged { kind_numbered kind ≡ None → out.new ≡ out.old }
{
    match kind_of(kind) {
        Some(kind) => check_text(kind, bytes, out),
        None => NO_KIND,
    }
}

// The kind of text that has this number.
fn kind_of(number: u32) -> Option<TextKind>
    ensures { result ≡ kind_numbered number }
{
    match number {
        1 => Some(TextKind::Text),
        2 => Some(TextKind::Path),
        3 => Some(TextKind::Interface),
        4 => Some(TextKind::Member),
        5 => Some(TextKind::ErrorName),
        6 => Some(TextKind::BusName),
        7 => Some(TextKind::Signature),
        8 => Some(TextKind::Single),
        _ => None,
    }
}

// The result for a text that is checked for a kind.
fn check_text(kind: TextKind, text: &[u8], out: &mut TextChecked) -> u32
    ensures { TellsText kind text.now result out.new }
{
    *out = TextChecked {
        offset: 0,
        is_too_long: 0,
        reserved: 0,
    };
    if is_too_long(kind, text) {
        out.is_too_long = 1;
        return REFUSED;
    }
    match text_break(kind, text) {
        None => WHOLE,
        Some(at) => {
            out.offset = at as u64;
            REFUSED
        }
    }
}

// Whether the text has more bytes than its kind allows.
fn is_too_long(kind: TextKind, text: &[u8]) -> bool
    ensures too_long { IsTrue result → IsWithinLimit kind text.now → ⊥ }
    ensures within { IsFalse result → IsWithinLimit kind text.now }
{
    kind.is_limited() && text.len() > NAME_LIMIT as usize
}
