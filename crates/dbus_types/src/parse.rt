//! The types that a signature spells.
#![tactic(auto)]

ghost use Rattle.std.specs.Prelude.{◌≡◌, IfOk};
ghost use Rattle.dbus_types.specs.SigTypes.{type_tree, type_trees_of};
ghost use Rattle.dbus_texts.specs.Types.{sig, sigs};
ghost use Rattle.dbus_types.specs.Parses.{StartsType, StartsFields, ReadsType, ReadsFields, IsTypeText, IsTextOfTypes, IsParse, IsSingleParse};

use crate::sig_type::SigType;
use crate::type_codes::plain_type;
use dbus_texts::{SigFault, check_signature, check_single};
use std::alloc::{AllocError, Allocator};
use std::sync::Arc;

/// The type at the start, and what follows it.
#[cycle(parse)]
fn parse_type<A: Allocator + Copy>(
    alloc: A,
    bytes: &[u8],
) -> Result<(SigType<A>, &[u8]), AllocError>
    requires { StartsType bytes.now }
    ensures { IfOk result (λ r. ReadsType bytes.now r.0 r.1.now) }
{
    let (byte, rest) = match bytes.split_first() {
        Some((byte, rest)) => (*byte, rest),
        None => unreachable!(),
    };
    match byte {
        b'a' => {
            let (element, rest) = parse_type(alloc, rest)?;
            let element = Arc::new(alloc, element)?;
            Ok((SigType::Array(element), rest))
        }
        b'(' => {
            let (fields, rest) = parse_fields(alloc, rest)?;
            let fields = Arc::new(alloc, fields)?;
            Ok((SigType::Struct(fields), rest))
        }
        b'{' => {
            let (key, rest) = parse_type(alloc, rest)?;
            let (value, rest) = parse_type(alloc, rest)?;
            let key = Arc::new(alloc, key)?;
            let value = Arc::new(alloc, value)?;
            Ok((SigType::Entry(key, value), &rest[1..]))
        }
        _ => match plain_type(byte) {
            Some(ty) => Ok((ty, rest)),
            None => unreachable!(),
        },
    }
}

/// The types up to `)`, and what follows it.
#[cycle(parse)]
fn parse_fields<A: Allocator + Copy>(
    alloc: A,
    bytes: &[u8],
) -> Result<(Vec<SigType<A>, A>, &[u8]), AllocError>
    requires { StartsFields bytes.now }
    ensures { IfOk result (λ r. ReadsFields bytes.now r.0.items r.1.now) }
{
    let mut types = Vec::new(alloc);
    let mut rest = bytes;
    while rest[0] != b')' {
        let (ty, more) = parse_type(alloc, rest)?;
        types.push(ty)?;
        rest = more;
    }
    Ok((types, &rest[1..]))
}

/// The types that a text spells, as a signature or a part of one, one for each complete type in it.
/// The text is known to spell types: it is not validated.
///
/// The one error is that an allocation failed. D-Bus Specification, "Valid Signatures".
pub fn spelled_types<A: Allocator + Copy>(
    alloc: A,
    text: &[u8],
) -> Result<Vec<SigType<A>, A>, AllocError>
    requires { IsTextOfTypes text.now }
    ensures { IfOk result (λ v. sigs (type_trees_of v.items) ≡ text.now) }
{
    let mut types = Vec::new(alloc);
    let mut rest = text;
    while !rest.is_empty() {
        let (ty, more) = parse_type(alloc, rest)?;
        types.push(ty)?;
        rest = more;
    }
    Ok(types)
}

/// The type that a text spells, which is known to spell exactly one: it is not validated.
///
/// The one error is that an allocation failed. D-Bus Specification, "Valid Signatures".
pub fn spelled_type<A: Allocator + Copy>(alloc: A, text: &[u8]) -> Result<SigType<A>, AllocError>
    requires { IsTypeText text.now }
    ensures { IfOk result (λ t. sig (type_tree t) ≡ text.now) }
{
    let (ty, _) = parse_type(alloc, text)?;
    Ok(ty)
}

/// The types that a signature spells, one for each complete type in it.
///
/// Else `TooLong` over 255 bytes, else `Bad` at its break; `Memory` if an allocation failed.
/// D-Bus Specification, "Valid Signatures".
///
/// ```rust
/// use dbus_types::parse_signature;
///
/// let types = parse_signature(alloc, b"sa{sv}as")?;
/// println!(rt; "{} types", types.len())?;
/// ```
pub fn parse_signature<A: Allocator + Copy>(
    alloc: A,
    text: &[u8],
) -> Result<Vec<SigType<A>, A>, SigFault>
    ensures { IsParse text.now result }
{
    check_signature(text)?;
    Ok(spelled_types(alloc, text)?)
}

/// The type that a signature of exactly one complete type spells.
///
/// Else `TooLong` over 255 bytes, else `Bad` at its break, which after one complete type is its
/// end; `Memory` if an allocation failed. D-Bus Specification, "Valid Signatures".
pub fn parse_single<A: Allocator + Copy>(alloc: A, text: &[u8]) -> Result<SigType<A>, SigFault>
    ensures { IsSingleParse text.now result }
{
    check_single(text)?;
    Ok(spelled_type(alloc, text)?)
}
