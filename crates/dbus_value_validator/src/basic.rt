//! Values of basic types. D-Bus Specification, "Basic types".
#![tactic(auto)]

ghost use Rattle.std.specs.Prelude.{◌≡◌, ℕ, ◌+◌, ◌≤◌, length, IfSome};
ghost use Rattle.dbus_texts.specs.Types.{TypeTree, IsBasic};
ghost use Rattle.dbus_texts.specs.SignatureScans.{is_basic_code};
ghost use Rattle.dbus_types.specs.SignatureCodes.{first_code};
ghost use Rattle.dbus_value_validator.specs.Endings.{Answers, value_in};

use crate::numbers::{boolean, descriptor, free_number};
use crate::texts::{long_text, signature};
use crate::untrusted_bytes::UntrustedBytes;
use dbus_types::{TextKind, free_width};

/// Whether a basic type has this code. D-Bus Specification, "Basic types".
#[inline]
pub(crate) fn is_basic(code: u8) -> bool
    ensures { result ≡ is_basic_code code }
{
    matches!(
        code,
        b'y' | b'b' | b'n' | b'q' | b'i' | b'u' | b'x' | b't' | b'd' | b'h' | b's' | b'o' | b'g'
    )
}

/// A value of the basic type that has this code: the offset after it. Of all other codes None says
/// nothing.
pub(crate) fn basic_value(
    source: &UntrustedBytes<'_>,
    at: usize,
    end: usize,
    code: u8,
) -> Option<usize>
    requires at_most { at ≤ end }
    requires inside { end ≤ length source.now.bytes.now }
    ensures gives { (depth_left : ℕ) (t : TypeTree) → first_code t ≡ code → IsBasic t →
        Answers source.now.bytes.now result (value_in source.now depth_left end t at) }
    ensures moves { IfSome result (λ q. (at ≤ q) × (q ≤ end)) }
{
    let width = free_width(code);
    if width > 0 {
        // Most widths as constants, so that their padding is found by a mask.
        return match width {
            1 => free_number(source.bytes, at, end, 1),
            2 => free_number(source.bytes, at, end, 2),
            4 => free_number(source.bytes, at, end, 4),
            _ => free_number(source.bytes, at, end, width),
        };
    }
    if code == b's' {
        return long_text(source.bytes, at, end, source.order, TextKind::Text);
    }
    if code == b'o' {
        return long_text(source.bytes, at, end, source.order, TextKind::Path);
    }
    if code == b'g' {
        return signature(source.bytes, at, end);
    }
    if code == b'b' {
        return boolean(source.bytes, at, end, source.order);
    }
    if code == b'h' {
        return descriptor(source.bytes, at, end, source.order, source.bounds.fds);
    }
    None
}
