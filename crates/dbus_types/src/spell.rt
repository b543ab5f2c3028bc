//! The signature that spells types.
#![tactic(auto)]

ghost use Rattle.std.specs.Prelude.{◌≡◌, ◌<◌, ◌++◌, ◌∷◌, [], OnOk, OnErr, string_bytes};
ghost use Rattle.dbus_texts.specs.Types.{sig, sigs};
ghost use Rattle.dbus_types.specs.SigTypes.{type_tree, type_trees_of};
ghost use Rattle.dbus_types.specs.Parses.{IsSignatureText, AppendsPrefix};

use crate::sig_type::SigType;
use crate::type_codes::type_code;
use dbus_texts::{SigFault, check_signature};
use std::alloc::{AllocError, Allocator};

/// Appends a code, which is ASCII.
fn push_code<A: Allocator + Copy>(out: &mut String<A>, code: u8) -> Result<(), AllocError>
    requires { code < 128 }
    ensures written { OnOk result (string_bytes out.new ≡ string_bytes out.old ++ code ∷ []) }
    ensures unchanged { OnErr result (string_bytes out.new ≡ string_bytes out.old) }
{
    out.push(char::from(code))
}

/// Appends the text of a type, one code for each basic type. D-Bus Specification, "Type System".
///
/// `AllocError` comes only if an allocation failed: then a prefix of the text comes after what was
/// there, which may be none of it. Types that spell no signature have a text too.
#[cycle(spell)]
pub fn push_type<A: Allocator + Copy>(
    out: &mut String<A>,
    ty: &SigType<A>,
) -> Result<(), AllocError>
    ensures written { OnOk result (string_bytes out.new ≡
        string_bytes out.old ++ sig (type_tree ty.now)) }
    ensures prefix { OnErr result
        (AppendsPrefix (string_bytes out.old) (string_bytes out.new) (sig (type_tree ty.now))) }
{
    match ty {
        SigType::Array(element) => {
            push_code(out, b'a')?;
            push_type(out, element)
        }
        SigType::Struct(fields) => {
            push_code(out, b'(')?;
            push_types(out, fields.as_slice())?;
            push_code(out, b')')
        }
        SigType::Entry(key, value) => {
            push_code(out, b'{')?;
            push_type(out, key)?;
            push_type(out, value)?;
            push_code(out, b'}')
        }
        _ => push_code(out, type_code(ty)),
    }
}

/// Appends the texts of types.
#[cycle(spell)]
fn push_types<A: Allocator + Copy>(
    out: &mut String<A>,
    types: &[SigType<A>],
) -> Result<(), AllocError>
    ensures written { OnOk result
        (string_bytes out.new ≡ string_bytes out.old ++ sigs (type_trees_of types.now)) }
    ensures prefix { OnErr result
        (AppendsPrefix (string_bytes out.old) (string_bytes out.new)
        (sigs (type_trees_of types.now))) }
{
    for ty in types {
        push_type(out, ty)?;
    }
    Ok(())
}

/// The signature that spells these types.
///
/// If their joined texts are no signature: `TooLong` over 255 bytes, else `Bad` at the break of
/// that text; `Memory` if an allocation failed. D-Bus Specification, "Valid Signatures".
pub fn signature_text<A: Allocator + Copy>(
    alloc: A,
    types: &[SigType<A>],
) -> Result<String<A>, SigFault>
    ensures { IsSignatureText (type_trees_of types.now) result }
{
    let mut out = String::new(alloc);
    push_types(&mut out, types)?;
    check_signature(out.as_bytes())?;
    Ok(out)
}
