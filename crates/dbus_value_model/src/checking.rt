//! Whether a value is well formed.
#![tactic(auto)]

ghost use Rattle.std.specs.Prelude.{◌≡◌, ◌≤◌, IsTrue, IfOk, not};
ghost use Rattle.dbus_texts.specs.Kinds.{IsKind};
ghost use Rattle.dbus_texts.specs.PlainTypes.{is_byte};
ghost use Rattle.dbus_texts.specs.Types.{IsSingleType};
ghost use Rattle.dbus_types.specs.SigTypes.{type_tree};
ghost use Rattle.dbus_value_model.specs.Checks.{Checks, IsTyped};
ghost use Rattle.dbus_value_model.specs.declared.limits.TheConstants.{DEPTH_LIMIT};
ghost use Rattle.dbus_value_model.specs.Forming.{NestsWithin, IsNamed};
ghost use Rattle.dbus_value_model.specs.Verdicts.{HoldsNumbers, IsVerdict, IsPartsVerdict};
ghost use Rattle.dbus_value_model.specs.Verdicts.{ArePartsVerdict};
ghost use Rattle.dbus_value_model.specs.Specification.{specification};
ghost use Rattle.dbus_value_model.specs.Sizes.{HasShortSignatures};
ghost use Rattle.dbus_value_model.specs.Values.{AllOf, type_of as tree_type};
ghost use Rattle.dbus_value_model.specs.ValueViews.{value_tree, value_trees_of};

use crate::limits::Limits;
use crate::ranges::{basic_in_range, bytes_in_range};
use crate::typed::{all_of, has_single_type};
use crate::value::Value;
use crate::value_fault::ValueFault;
use crate::verdict::{Verdict, earlier};
use dbus_types::{SigType, TextKind, is_byte, text_break};
use std::alloc::Allocator;

/// Whether a value is well formed, as [`check_value_within`] says under the limits of the
/// specification.
///
/// `depth` arrays, structs and variants are open around it, [`DEPTH_LIMIT`] at most.
pub fn check_value<A: Allocator + Copy>(
    alloc: A,
    value: &Value<A>,
    depth: u8,
) -> Result<(), ValueFault>
    requires { depth ≤ DEPTH_LIMIT }
    ensures checks { Checks specification depth value.now result }
    ensures short { IfOk result (λ _. HasShortSignatures (value_tree value.now)) }
    ensures numbers { IfOk result (λ _. HoldsNumbers (value_tree value.now)) }
{
    check_value_within(alloc, value, depth, Limits::specification())
}

/// Whether a value is well formed if `depth` arrays, structs and variants are open around it, at
/// most as many as the limits' depth.
///
/// It is refused for the first case that holds of any part of it: `TooDeep` if more arrays, structs
/// and variants are open at once than the limits' depth; `Mixed` if an item has another type than
/// its array's, an array of BYTE is not `Bytes`, a dict entry is outside an array or its key is not
/// basic, a struct is empty, or a type spells no signature within the limits; `Name` if an object
/// path or a signature is not valid, or a text has U+0000. Nothing is allocated, so `Memory` is
/// never returned. A value that passes has short signatures, as writing and measuring ask, and as
/// every value has it, numbers in the ranges of their types. D-Bus Specification, "Type System",
/// "Valid Signatures" and "Message Protocol".
#[tactic(auto, using(crate::proofs::Formed::short_of))]
pub fn check_value_within<A: Allocator + Copy>(
    _alloc: A,
    value: &Value<A>,
    depth: u8,
    limits: Limits,
) -> Result<(), ValueFault>
    requires { depth ≤ limits.depth }
    ensures checks { Checks limits depth value.now result }
    ensures short { IfOk result (λ _. HasShortSignatures (value_tree value.now)) }
    ensures numbers { IfOk result (λ _. HoldsNumbers (value_tree value.now)) }
{
    match check_nested(value, limits.depth - depth) {
        Verdict::TooDeep => Err(ValueFault::TooDeep),
        Verdict::Mixed => Err(ValueFault::Mixed),
        Verdict::Misnamed => Err(ValueFault::Name),
        Verdict::Sound => Ok(()),
    }
}

/// What is found of a value where `depth_left` arrays, structs and variants may be open at once, in
/// one walk over it.
///
/// D-Bus Specification, "Type System" and "Valid Signatures".
#[tactic(auto, using(crate::proofs::Verdicts::whole_found))]
pub fn check_nested<A: Allocator>(value: &Value<A>, depth_left: u8) -> Verdict
    ensures { IsVerdict (NestsWithin depth_left (value_tree value.now)) (IsTyped value.now)
        (IsNamed (value_tree value.now)) (HoldsNumbers (value_tree value.now)) result }
{
    earlier(check_single(value), check_parts(value, depth_left))
}

/// What is found of a value, its own type left aside: the items of an array are of its element
/// type, which is not BYTE, and a signature spells the type of a variant's value.
#[cycle(check)]
fn check_parts<A: Allocator>(value: &Value<A>, depth_left: u8) -> Verdict
    ensures { IsPartsVerdict depth_left value.now result }
{
    match value {
        Value::Str(text) => check_text(TextKind::Text, text.as_bytes()),
        Value::Path(text) => check_text(TextKind::Path, text.as_bytes()),
        Value::Sig(text) => check_text(TextKind::Signature, text.as_bytes()),
        Value::Bytes(bytes) => {
            if depth_left == 0 {
                return Verdict::TooDeep;
            }
            bytes_in_range(bytes);
            Verdict::Sound
        }
        Value::Array(element, items) => {
            if depth_left == 0 {
                return Verdict::TooDeep;
            }
            let found = check_items(element, items);
            earlier(found, check_all(items, depth_left - 1))
        }
        Value::Struct(fields) => {
            if depth_left == 0 {
                return Verdict::TooDeep;
            }
            check_all(fields, depth_left - 1)
        }
        Value::Entry(entry) => earlier(
            check_parts(&entry.key, depth_left),
            check_parts(&entry.value, depth_left),
        ),
        Value::Variant(inner) => {
            if depth_left == 0 {
                return Verdict::TooDeep;
            }
            earlier(check_single(inner), check_parts(inner, depth_left - 1))
        }
        _ => {
            basic_in_range(value);
            Verdict::Sound
        }
    }
}

/// The earliest of what is found of the values.
#[cycle(check)]
fn check_all<A: Allocator>(values: &[Value<A>], depth_left: u8) -> Verdict
    ensures { ArePartsVerdict depth_left values.now result }
{
    let mut found = Verdict::Sound;
    for value in values {
        found = earlier(found, check_parts(value, depth_left));
    }
    found
}

/// Whether a text is of its kind.
fn check_text(kind: TextKind, text: &[u8]) -> Verdict
    ensures { IsVerdict (Unit {0}) (Unit {0}) (IsKind kind text.now) (Unit {0}) result }
{
    match text_break(kind, text) {
        None => Verdict::Sound,
        Some(_) => Verdict::Misnamed,
    }
}

/// Whether a signature spells a value's type.
fn check_single<A: Allocator>(value: &Value<A>) -> Verdict
    ensures { IsVerdict (Unit {0}) (IsSingleType (tree_type (value_tree value.now))) (Unit {0})
        (Unit {0}) result }
{
    if has_single_type(value) {
        Verdict::Sound
    } else {
        Verdict::Mixed
    }
}

/// Whether every item has its array's type, which is not BYTE.
fn check_items<A: Allocator>(element: &SigType<A>, items: &[Value<A>]) -> Verdict
    ensures { let ty = type_tree element.now in
        IsVerdict (Unit {0}) (IsTrue (not (is_byte ty)) × AllOf ty (value_trees_of items.now))
        (Unit {0}) (Unit {0}) result }
{
    if !is_byte(element) && all_of(element, items) {
        Verdict::Sound
    } else {
        Verdict::Mixed
    }
}
