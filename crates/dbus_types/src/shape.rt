//! Which types a signature spells, and where their values begin.
#![tactic(auto)]

ghost use Rattle.std.specs.Prelude.{◌≡◌, ◌↔◌, IsTrue};
ghost use Rattle.dbus_types.specs.SigTypes.{type_tree, type_trees_of};
ghost use Rattle.dbus_texts.specs.PlainTypes.{is_byte};
ghost use Rattle.dbus_texts.specs.Types.{IsBasic, IsSingleType};
ghost use Rattle.dbus_types.specs.Alignments.{alignment_of};
ghost use Rattle.dbus_types.specs.Parses.{LeavesOfType, LeavesOfTypes};

use crate::sig_type::SigType;
use std::alloc::Allocator;

/// The boundary that values of the type begin at, in bytes: 1, 2, 4 or 8.
///
/// D-Bus Specification, "Summary of D-Bus marshaling".
pub fn alignment<A: Allocator>(ty: &SigType<A>) -> u8
    ensures { result ≡ alignment_of (type_tree ty.now) }
{
    match ty {
        SigType::Byte | SigType::Sig | SigType::Variant => 1,
        SigType::I16 | SigType::U16 => 2,
        SigType::Bool
        | SigType::I32
        | SigType::U32
        | SigType::Fd
        | SigType::Str
        | SigType::Path
        | SigType::Array(_) => 4,
        SigType::I64 | SigType::U64 | SigType::Double | SigType::Struct(_) | SigType::Entry(_, _) =>
            8,
    }
}

/// Whether the type is BYTE. D-Bus Specification, "Basic types".
pub fn is_byte<A: Allocator>(ty: &SigType<A>) -> bool
    ensures { result ≡ is_byte (type_tree ty.now) }
{
    matches!(ty, SigType::Byte)
}

/// Whether it is a basic type: none of the four containers.
fn is_basic_type<A: Allocator>(ty: &SigType<A>) -> bool
    ensures { IsTrue result ↔ IsBasic (type_tree ty.now) }
{
    match ty {
        SigType::Variant | SigType::Array(_) | SigType::Struct(_) | SigType::Entry(_, _) => false,
        _ => true,
    }
}

/// The number of bytes that are left of `left` after the type's text, or nothing if the type is not
/// complete or its text has more bytes. `arrays` arrays and `structs` structs are open around it,
/// and `inside` says that it is an array's element.
///
/// D-Bus Specification, "Valid Signatures".
#[cycle(text_left)]
pub fn text_left<A: Allocator>(
    ty: &SigType<A>,
    inside: bool,
    arrays: u8,
    structs: u8,
    left: u8,
) -> Option<u8>
    ensures { LeavesOfType (type_tree ty.now) inside arrays structs left result }
{
    match ty {
        SigType::Array(element) => {
            if arrays >= 32 || left < 1 {
                return None;
            }
            text_left(element, true, arrays + 1, structs, left - 1)
        }
        SigType::Struct(fields) => {
            let fields = fields.as_slice();
            if structs >= 32 || left < 2 || fields.is_empty() {
                return None;
            }
            texts_left(fields, arrays, structs + 1, left - 2)
        }
        SigType::Entry(key, value) => {
            if !inside || left < 3 || !is_basic_type(key) {
                return None;
            }
            text_left(value, false, arrays, structs, left - 3)
        }
        _ => left.checked_sub(1),
    }
}

/// The same of several types, one after another.
#[cycle(text_left)]
fn texts_left<A: Allocator>(
    types: &[SigType<A>],
    arrays: u8,
    structs: u8,
    mut left: u8,
) -> Option<u8>
    ensures { LeavesOfTypes (type_trees_of types.now) arrays structs left result }
{
    for ty in types {
        left = text_left(ty, false, arrays, structs, left)?;
    }
    Some(left)
}

/// Whether the type spells a signature of exactly one complete type.
///
/// D-Bus Specification, "Valid Signatures".
pub fn type_ok<A: Allocator>(ty: &SigType<A>) -> bool
    ensures { IsTrue result ↔ IsSingleType (type_tree ty.now) }
{
    text_left(ty, false, 0, 0, 255).is_some()
}
