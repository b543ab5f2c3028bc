//! The codes of types in a signature. D-Bus Specification, "Summary of types".
//!
//! Which code each type has, and which type each code spells. Other tables follow the codes: in
//! `dbus_texts` which bytes are codes, in `signature_codes` what a code says of boundaries and
//! widths, and in the crates that go along a signature's bytes (`dbus_value_checker`,
//! `dbus_value_validator`, `dbus_walk`) what they do with a value of the type. The codes of the
//! containers, `a`, `(` with `)` and `{` with `}`, are also in the code that reads and writes
//! these.
#![tactic(auto)]

ghost use Rattle.std.specs.Prelude.{◌≡◌, ◌∷◌, [], get_or, MatchOption, false};
ghost use Rattle.dbus_texts.specs.Types.{sig};
ghost use Rattle.dbus_types.specs.SigTypes.{type_tree};
ghost use Rattle.dbus_texts.specs.SignatureScans.{is_type_code};

use crate::sig_type::SigType;
use std::alloc::Allocator;

/// The code that the type's signature begins with; of a type without parts it is the whole
/// signature.
///
/// D-Bus Specification, "Summary of types".
pub fn type_code<A: Allocator>(ty: &SigType<A>) -> u8
    ensures { result ≡ get_or (sig (type_tree ty.now)) 0 0 }
{
    match ty {
        SigType::Byte => b'y',
        SigType::Bool => b'b',
        SigType::I16 => b'n',
        SigType::U16 => b'q',
        SigType::I32 => b'i',
        SigType::U32 => b'u',
        SigType::I64 => b'x',
        SigType::U64 => b't',
        SigType::Double => b'd',
        SigType::Str => b's',
        SigType::Path => b'o',
        SigType::Sig => b'g',
        SigType::Fd => b'h',
        SigType::Variant => b'v',
        SigType::Array(_) => b'a',
        SigType::Struct(_) => b'(',
        SigType::Entry(_, _) => b'{',
    }
}

/// The type that one byte spells.
pub fn plain_type<A: Allocator>(byte: u8) -> Option<SigType<A>>
    ensures { MatchOption result (is_type_code byte ≡ false) (λ ty. sig (type_tree ty) ≡
        byte ∷ []) }
{
    match byte {
        b'y' => Some(SigType::Byte),
        b'b' => Some(SigType::Bool),
        b'n' => Some(SigType::I16),
        b'q' => Some(SigType::U16),
        b'i' => Some(SigType::I32),
        b'u' => Some(SigType::U32),
        b'x' => Some(SigType::I64),
        b't' => Some(SigType::U64),
        b'd' => Some(SigType::Double),
        b's' => Some(SigType::Str),
        b'o' => Some(SigType::Path),
        b'g' => Some(SigType::Sig),
        b'h' => Some(SigType::Fd),
        b'v' => Some(SigType::Variant),
        _ => None,
    }
}
