//! The first field of a header that is at fault.
#![tactic(auto)]

ghost use Rattle.std.specs.Prelude.{◌≡◌, ◌↔◌, [], IsTrue, option_map};
ghost use Rattle.dbus_value_model.specs.Forming.{NestsWithin};
ghost use Rattle.dbus_value_model.specs.WantedTexts.{Of};
ghost use Rattle.dbus_build.specs.BuildFaults.{IsFirstField, IsFound, IsSoundness, HoldTypedNumbers, HoldsSound, HoldsTypedNumber, Keeps, text_wanted, twice};
ghost use Rattle.dbus_build.specs.declared.faulty_fields.Rule.TheVariants.{Nonzero, OwnType, OwnKind};
ghost use Rattle.dbus_message_model.specs.Messages.{field_array, field_struct, want};
ghost use Rattle.dbus_message_model.specs.PartsViews.{field_tree, field_trees};

use crate::build_fault::BuildFault;
use dbus_message_model::HeaderField;
use dbus_message_model::field_table::{Wanted, is_known, want};
use dbus_message_model::known_fields::{is_again, text_in};
use dbus_types::{TextKind, text_break};
use dbus_value_model::{Value, Verdict, basic_in_range, check_nested};
use std::alloc::Allocator;

/// What the value of a known field is asked for.
#[derive(Clone, Copy)]
pub enum Rule {
    /// It is not 0, if it is a REPLY_SERIAL.
    Nonzero,
    /// It is of the field's own type.
    OwnType,
    /// Its text is of the field's kind.
    OwnKind,
}

/// Whether a field is no REPLY_SERIAL of 0.
fn is_nonzero<A: Allocator>(field: &HeaderField<A>) -> bool
    ensures { IsTrue result ↔ Keeps Nonzero field.now }
{
    match want(field.code) {
        Wanted::Serial => !matches!(field.value, Value::U32(0)),
        _ => true,
    }
}

/// Whether a field is of its own type, if it is known.
fn has_own_type<A: Allocator>(field: &HeaderField<A>) -> bool
    ensures { IsTrue result ↔ Keeps OwnType field.now }
{
    match want(field.code) {
        Wanted::Anything => true,
        Wanted::Path => matches!(field.value, Value::Path(_)),
        Wanted::Name(_) => matches!(field.value, Value::Str(_)),
        Wanted::Serial | Wanted::Number => matches!(field.value, Value::U32(_)),
        Wanted::Signature => matches!(field.value, Value::Sig(_)),
    }
}

/// What the text of a known field is.
fn own_kind(code: u8) -> Option<TextKind>
    ensures { option_map Of result ≡ text_wanted (want code) }
{
    match want(code) {
        Wanted::Path => Some(TextKind::Path),
        Wanted::Name(kind) => Some(kind),
        Wanted::Signature => Some(TextKind::Signature),
        Wanted::Anything | Wanted::Serial | Wanted::Number => None,
    }
}

/// Whether the text of a field is of its kind, if it is known.
fn has_own_kind<A: Allocator>(field: &HeaderField<A>) -> bool
    ensures { IsTrue result ↔ Keeps OwnKind field.now }
{
    match own_kind(field.code) {
        None => true,
        Some(kind) => text_break(kind, text_in(&field.value)).is_none(),
    }
}

/// Whether a field keeps a rule.
fn keeps<A: Allocator>(field: &HeaderField<A>, rule: Rule) -> bool
    ensures { IsTrue result ↔ Keeps rule field.now }
{
    match rule {
        Rule::Nonzero => is_nonzero(field),
        Rule::OwnType => has_own_type(field),
        Rule::OwnKind => has_own_kind(field),
    }
}

/// The code of the first field that does not keep a rule.
pub fn first_without<A: Allocator>(fields: &[HeaderField<A>], rule: Rule) -> Option<u8>
    ensures { IsFirstField (Keeps rule) fields.now result }
{
    for field in fields {
        if !keeps(field, rule) {
            return Some(field.code);
        }
    }
    None
}

/// The code of the first known field that comes after one of its code.
pub fn first_twice<A: Allocator>(fields: &[HeaderField<A>]) -> Option<u8>
    ensures { result ≡ twice [] (field_trees fields.now) }
{
    for (i, field) in fields.iter().enumerate() {
        if is_again(&fields[..i], field.code) {
            return Some(field.code);
        }
    }
    None
}

/// What is found of a field where `depth_left` arrays, structs and variants may be open at once:
/// those of its struct, its variant and its value. The value of a known field is sound if its type
/// and its text are the field's own.
fn check_field<A: Allocator>(field: &HeaderField<A>, depth_left: u8) -> Verdict
    ensures { IsSoundness (NestsWithin depth_left (field_struct (field_tree field.now)))
        (HoldsSound field.now) (HoldsTypedNumber field.now) result }
{
    let code = field.code;
    if depth_left < 2 {
        return Verdict::TooDeep;
    }
    let found = check_nested(&field.value, depth_left - 2);
    if !is_known(code) {
        return found;
    }
    match found {
        Verdict::TooDeep => found,
        _ => {
            basic_in_range(&field.value);
            Verdict::Sound
        }
    }
}

/// The code of the first unknown field whose value is not sound, or `TooDeep` if more than
/// `depth_left` arrays, structs and variants are open at once in the field array, itself among
/// them.
pub fn first_unsound_field<A: Allocator>(
    fields: &[HeaderField<A>],
    depth_left: u8,
) -> Result<Option<u8>, BuildFault>
    ensures { IsFound (NestsWithin depth_left (field_array (field_trees fields.now)))
        (IsFirstField HoldsSound fields.now) (HoldTypedNumbers fields.now) result }
{
    if depth_left == 0 {
        return Err(BuildFault::TooDeep);
    }
    let mut first = None;
    for field in fields {
        match check_field(field, depth_left - 1) {
            Verdict::TooDeep => return Err(BuildFault::TooDeep),
            Verdict::Sound => {}
            _ => first = first.or(Some(field.code)),
        }
    }
    Ok(first)
}
