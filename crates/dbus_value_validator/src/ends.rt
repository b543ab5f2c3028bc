//! Where a type ends in a signature's bytes. D-Bus Specification, "Valid Signatures".
#![tactic(auto)]

ghost use Rattle.std.specs.Prelude.{◌≡◌, ◌+◌, ◌<◌, ◌≤◌, ◌^◌, length, IsTrue, false};
ghost use Rattle.dbus_texts.specs.Types.{TypeTree, IsBasic};
ghost use Rattle.dbus_types.specs.SignatureCodes.{IsTypeEnd, first_code};
ghost use Rattle.dbus_value_validator.specs.Endings.{AreNoted};

use dbus_types::type_end;

/// In a signature of so few bytes a type's end is looked for as fast as noted.
const FEW: usize = 8;

/// Whether the lengths of the types of a signature are to be noted, so that each byte of a message
/// is validated in a bounded time. Those of a signature longer than 255 bytes, which is in no
/// message, cannot be.
#[inline]
pub(crate) fn wants_lengths(types: &[u8]) -> bool
    ensures { IsTrue result → length types.now ≤ 255 }
{
    FEW < types.len() && types.len() <= 255
}

/// Whether the types that begin with this byte are those of containers. Of a byte with which no
/// type begins the answer says nothing. D-Bus Specification, "Container types".
#[inline]
pub(crate) fn is_container(code: u8) -> bool
    ensures { result ≡ false → (t : TypeTree) → first_code t ≡ code → IsBasic t }
{
    matches!(code, b'a' | b'(' | b'{' | b'v')
}

/// Where the complete type ends that begins at `at` of `types`, which begin at `pos` of a signature
/// whose lengths are noted up to some place. If no type begins there, it is some place after `at`.
/// D-Bus Specification, "Valid Signatures", "Container types".
#[inline]
pub(crate) fn end_of(types: &[u8], at: usize, lengths: &[u8], pos: usize) -> usize
    requires inside { at < length types.now }
    requires near { pos + length types.now < 2 ^ 64 }
    requires noted { AreNoted types.now lengths.now pos }
    ensures value { IsTypeEnd types.now at result }
    ensures some { at < result }
    ensures within { result ≤ length types.now }
{
    let code = types[at];
    if code != b'a' && code != b'(' && code != b'{' {
        return at + 1;
    }
    if pos + at < lengths.len() {
        let n = usize::from(lengths[pos + at]);
        if 0 < n && n <= types.len() - at {
            return at + n;
        }
    }
    type_end(types, at)
}
