//! Types as bytes of a signature: where one ends, where its values begin, and which numbers need no
//! look. D-Bus Specification, "Valid Signatures", "Summary of D-Bus marshaling".
#![tactic(auto)]

ghost use Rattle.std.specs.Prelude.{◌≡◌, suc, pred, ◌+◌, ◌<◌, ◌≤◌, ◌^◌, ◌||◌, ◌==◌, if◌then◌else◌, length};
ghost use Rattle.dbus_texts.specs.Types.{TypeTree};
ghost use Rattle.dbus_types.specs.Alignments.{alignment_of};
ghost use Rattle.dbus_types.specs.SignatureCodes.{first_code, IsTypeEnd, free_width_of};

/// The number of brackets open after a byte, by the number before it.
#[inline]
fn open_after(deep: usize, code: u8) -> usize
    requires { deep + 1 < 2 ^ 64 }
    ensures { result ≡
        (if (code == 40) || (code == 123) then suc deep
        else (if (code == 41) || (code == 125) then pred deep else deep)) }
{
    match code {
        b'(' | b'{' => deep + 1,
        b')' | b'}' if deep > 0 => deep - 1,
        _ => deep,
    }
}

/// Where the complete type that begins at `pos` ends, whatever follows it. If none begins there, it
/// is some place after `pos`. D-Bus Specification, "Valid Signatures", "Container types".
#[inline]
pub fn type_end(types: &[u8], pos: usize) -> usize
    requires { pos < length types.now }
    ensures value { IsTypeEnd types.now pos result }
    ensures some { pos < result }
    ensures within { result ≤ length types.now }
{
    let mut at = pos;
    let mut deep = 0;
    while at < types.len() {
        let code = types[at];
        at += 1;
        if code != b'a' {
            deep = open_after(deep, code);
            if deep == 0 {
                return at;
            }
        }
    }
    at
}

/// The boundary of a type that begins with this byte. D-Bus Specification, "Summary of D-Bus
/// marshaling".
#[tactic(auto, using(crate::proofs::TypeCodes::boundary_by))]
#[inline]
pub fn boundary(code: u8) -> u8
    ensures value { (t : TypeTree) → first_code t ≡ code → result ≡ alignment_of t }
    ensures some { 0 < result }
    ensures few { result ≤ 8 }
{
    match code {
        b'y' | b'g' | b'v' => 1,
        b'n' | b'q' => 2,
        b'x' | b't' | b'd' | b'(' | b'{' => 8,
        _ => 4,
    }
}

/// The number of bytes of a number of the type that begins with this byte, if any bytes are valid
/// for it; else 0. D-Bus Specification, "Basic types", "Summary of D-Bus marshaling".
#[tactic(auto, using(crate::proofs::TypeCodes::free_width_by))]
#[inline]
pub fn free_width(code: u8) -> u8
    ensures value { (t : TypeTree) → first_code t ≡ code → result ≡ free_width_of t }
    ensures few { result ≤ 8 }
{
    match code {
        b'y' => 1,
        b'n' | b'q' => 2,
        b'i' | b'u' => 4,
        b'x' | b't' | b'd' => 8,
        _ => 0,
    }
}
