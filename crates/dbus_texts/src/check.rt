//! Checks of whole texts.
#![tactic(auto)]

ghost use Rattle.std.specs.Prelude.{◌≡◌, ◌↔◌, ℕ, List, ◌∷◌, IsTrue};
ghost use Rattle.dbus_texts.specs.declared.text_kind.TextKind.TheVariants.{Path, Interface, Member, ErrorName, BusName, Signature, Single};
ghost use Rattle.dbus_texts.specs.declared.check.SigFault.TheVariants.{Memory};
ghost use Rattle.dbus_texts.specs.Kinds.{IsBreak, IsOfKind, IsSingle};
ghost use Rattle.dbus_texts.specs.Verdicts.{IsBreakOf, IsTextBreak, IsVerdict, IsPathVerdict, IsSigVerdict};

use crate::scan::ScanState;
use crate::text_kind::{LONGEST, TextKind};
use crate::type_codes::{is_basic_code, is_type_code};
use crate::utf8::is_text;
use crate::whole_names::is_name_at_once;
use std::alloc::{AllocError, AllocFailed};
use thiserror::Error;

/// Why a text is not the name that is wanted.
#[derive(Clone, Copy, PartialEq, Eq, Debug, Error)]
pub enum NameFault {
    /// It has more than 255 bytes. This comes before `Bad`.
    #[error("the name has more than 255 bytes")]
    TooLong,
    /// It breaks at `at`, which is the length of its longest prefix with which some such name
    /// begins, limits on length lifted.
    #[error("no such name: it breaks at offset {at}")]
    Bad { at: usize },
}

/// Why a text, or the text of some types, is no signature.
#[derive(Clone, Copy, PartialEq, Eq, Debug, Error)]
pub enum SigFault {
    /// An allocation failed.
    #[error("allocation failed")]
    Memory,
    /// It has more than 255 bytes. This comes before `Bad`.
    #[error("the signature has more than 255 bytes")]
    TooLong,
    /// It breaks at `at`, which is the length of its longest prefix with which some signature
    /// begins, limits on length lifted.
    #[error("no signature: it breaks at offset {at}")]
    Bad { at: usize },
}

impl From<AllocError> for SigFault {
    ghost from_gives = { λ _ e. e ≡ Memory };

    fn from(_: AllocError) -> Self {
        SigFault::Memory
    }
}

impl<T: Drop> From<AllocFailed<T>> for SigFault {
    ghost from_gives = { λ _ e. e ≡ Memory };

    fn from(_: AllocFailed<T>) -> Self {
        SigFault::Memory
    }
}

/// Whether the text spells one type of a form that most signatures have: a code; an array of one,
/// or of dict entries of two; or a struct of two.
#[tactic(auto, using(crate::proofs::NameSteps::coded_single, crate::proofs::NameSteps::array_single, crate::proofs::NameSteps::pair_single, crate::proofs::NameSteps::entries_single))]
fn is_common_type(text: &[u8]) -> bool
    ensures { IsTrue result → IsSingle text.now }
{
    match text.len() {
        1 => is_type_code(text[0]),
        2 => text[0] == b'a' && is_type_code(text[1]),
        4 => {
            text[0] == b'(' && is_type_code(text[1]) && is_type_code(text[2]) && text[3] == b')'
        }
        5 => {
            if text[0] != b'a' || text[1] != b'{' || text[4] != b'}' {
                return false;
            }
            is_basic_code(text[2]) && is_type_code(text[3])
        }
        _ => false,
    }
}

/// Whether the text is of the kind, if that is one of signatures, as far as a quick look shows.
#[tactic(auto, using(crate::proofs::NameSteps::signature_of))]
fn is_common_signature(kind: TextKind, text: &[u8]) -> bool
    ensures { IsTrue result → IsOfKind kind text.now }
{
    match kind {
        TextKind::Signature | TextKind::Single => is_common_type(text),
        _ => false,
    }
}

/// Whether the text is of the kind, limits on length aside, as far as a quick look shows: it knows
/// each STRING, paths and names of at least 17 bytes, and the commonest signatures.
#[inline(always)]
fn is_seen_at_once(kind: TextKind, text: &[u8]) -> bool
    ensures { IsTrue result → IsOfKind kind text.now }
{
    match kind {
        TextKind::Text => is_text(text),
        TextKind::Signature | TextKind::Single => is_common_signature(kind, text),
        _ => is_name_at_once(kind, text, 0),
    }
}

/// Where a text breaks that is not of the kind, limits on length aside, by its scan. A function of
/// its own, so that the quick look before it makes no room for a scan.
#[inline(never)]
#[tactic(auto, using(crate::proofs::ScanSteps::break_from))]
fn scanned_break(kind: TextKind, text: &[u8]) -> Option<usize>
    ensures { IsBreakOf kind text.now result }
{
    ScanState::of_kind(kind).break_of(text)
}

/// Where a text breaks that is not of the kind, limits on length aside.
fn break_of(kind: TextKind, text: &[u8]) -> Option<usize>
    ensures { IsBreakOf kind text.now result }
{
    if is_seen_at_once(kind, text) {
        return None;
    }
    scanned_break(kind, text)
}

/// The length of the text's longest prefix with which some text of the kind begins, limits on
/// length lifted. This is the text's length if all of it begins some text of the kind.
#[tactic(auto, using(crate::proofs::ScanSteps::break_of_whole))]
pub fn first_break(kind: TextKind, text: &[u8]) -> usize
    ensures { IsBreak kind text.now result }
{
    match break_of(kind, text) {
        None => text.len(),
        Some(at) => at,
    }
}

/// Where a text breaks that is not of the kind: at the length of its longest prefix with which some
/// text of the kind begins, limits on length lifted. `None` if the text is of the kind.
pub fn text_break(kind: TextKind, text: &[u8]) -> Option<usize>
    ensures { IsTextBreak kind text.now result }
{
    match break_of(kind, text) {
        None if kind.is_limited() && text.len() > LONGEST => Some(text.len()),
        found => found,
    }
}

/// Whether the text is a name of the kind, or why not.
fn check_name(kind: TextKind, text: &[u8]) -> Result<(), NameFault>
    ensures { IsVerdict kind text.now result }
{
    if text.len() > LONGEST {
        return Err(NameFault::TooLong);
    }
    match break_of(kind, text) {
        None => Ok(()),
        Some(at) => Err(NameFault::Bad { at }),
    }
}

/// Whether the text spells types of the kind, or why not.
fn check_types(kind: TextKind, text: &[u8]) -> Result<(), SigFault>
    ensures { IsSigVerdict kind text.now result }
{
    if text.len() > LONGEST {
        return Err(SigFault::TooLong);
    }
    match break_of(kind, text) {
        None => Ok(()),
        Some(at) => Err(SigFault::Bad { at }),
    }
}

/// Whether the text is an object path: `/`, or elements of `[A-Za-z0-9_]`, each after a `/`.
///
/// Else `Bad` at its break; `TooLong` never comes. D-Bus Specification, "Valid Object Paths".
///
/// ```rust
/// use dbus_types::check_path;
///
/// for path in ["/org/example", "/org//example"] {
///     match check_path(path.as_bytes()) {
///         Ok(()) => println!(rt; "{path} is an object path")?,
///         Err(fault) => println!(rt; "{path}: {fault}")?,
///     }
/// }
/// ```
pub fn check_path(text: &[u8]) -> Result<(), NameFault>
    ensures { IsPathVerdict Path text.now result }
{
    match break_of(TextKind::Path, text) {
        None => Ok(()),
        Some(at) => Err(NameFault::Bad { at }),
    }
}

/// Whether the text is an interface name: two or more elements joined by `.`.
///
/// Else `TooLong` over 255 bytes, else `Bad` at its break. D-Bus Specification, "Interface names".
pub fn check_interface(text: &[u8]) -> Result<(), NameFault>
    ensures { IsVerdict Interface text.now result }
{
    check_name(TextKind::Interface, text)
}

/// Whether the text is a member name: one element, which begins with no digit.
///
/// Else `TooLong` over 255 bytes, else `Bad` at its break. D-Bus Specification, "Member names".
pub fn check_member(text: &[u8]) -> Result<(), NameFault>
    ensures { IsVerdict Member text.now result }
{
    check_name(TextKind::Member, text)
}

/// Whether the text is an error name, which is made as an interface name is.
///
/// Else `TooLong` over 255 bytes, else `Bad` at its break. D-Bus Specification, "Error names".
pub fn check_error_name(text: &[u8]) -> Result<(), NameFault>
    ensures { IsVerdict ErrorName text.now result }
{
    check_name(TextKind::ErrorName, text)
}

/// Whether the text is a bus name: unique, which begins with `:`, or well-known.
///
/// Else `TooLong` over 255 bytes, else `Bad` at its break. D-Bus Specification, "Bus names".
pub fn check_bus_name(text: &[u8]) -> Result<(), NameFault>
    ensures { IsVerdict BusName text.now result }
{
    check_name(TextKind::BusName, text)
}

/// Whether the text is a signature: zero or more complete types.
///
/// Else `TooLong` over 255 bytes, else `Bad` at its break; `Memory` never comes. D-Bus
/// Specification, "Valid Signatures".
pub fn check_signature(text: &[u8]) -> Result<(), SigFault>
    ensures { IsSigVerdict Signature text.now result }
{
    check_types(TextKind::Signature, text)
}

/// Whether the text is a signature of exactly one complete type.
///
/// Else `TooLong` over 255 bytes, else `Bad` at its break; `Memory` never comes. D-Bus
/// Specification, "Valid Signatures".
pub fn check_single(text: &[u8]) -> Result<(), SigFault>
    ensures { IsSigVerdict Single text.now result }
{
    check_types(TextKind::Single, text)
}

/// Whether a bus name is unique: it begins with `:`. D-Bus Specification, "Bus names".
pub fn is_unique(name: &[u8]) -> bool
    ensures { IsTrue result ↔ ((rest : List ℕ) × (name.now ≡ 58 ∷ rest)) }
{
    matches!(name, [b':', ..])
}
