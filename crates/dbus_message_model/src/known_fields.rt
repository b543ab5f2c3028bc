//! What a message's fields are looked up for.
#![tactic(auto)]

ghost use Rattle.std.specs.Prelude.{◌≡◌, ◌&&◌};
ghost use Rattle.dbus_value_model.specs.ValueViews.{value_tree};
ghost use Rattle.dbus_message_model.specs.KnownFields.{IsMissing};
ghost use Rattle.dbus_message_model.specs.Messages.{has_code, is_known, lacks, required, text_in, body_signature, number_in, fd_count};
ghost use Rattle.dbus_message_model.specs.PartsViews.{field_trees};

use crate::field_code::{ERROR_NAME, INTERFACE, MEMBER, PATH, REPLY_SERIAL, SIGNATURE, UNIX_FDS};
use crate::field_table::is_known;
use crate::header_field::HeaderField;
use crate::message_type::{ERROR, METHOD_CALL, METHOD_RETURN, SIGNAL};
use dbus_value_model::Value;
use std::alloc::Allocator;

/// Whether a field of the code is there.
pub fn has_field<A: Allocator>(fields: &[HeaderField<A>], code: u8) -> bool
    ensures { result ≡ has_code code (field_trees fields.now) }
{
    for field in fields {
        if field.code == code {
            return true;
        }
    }
    false
}

/// Whether a code is a known field's and is among these.
pub fn is_again<A: Allocator>(before: &[HeaderField<A>], code: u8) -> bool
    ensures { result ≡ (is_known code && has_code code (field_trees before.now)) }
{
    is_known(code) && has_field(before, code)
}

/// The codes of the fields that a message of the type has. D-Bus Specification, "Header Fields".
pub fn required(kind: u8) -> &'static [u8]
    ensures { result.now ≡ required kind }
{
    match kind {
        METHOD_CALL => &[PATH, MEMBER],
        METHOD_RETURN => &[REPLY_SERIAL],
        ERROR => &[ERROR_NAME, REPLY_SERIAL],
        SIGNAL => &[PATH, INTERFACE, MEMBER],
        _ => &[],
    }
}

/// The lowest code that the message type requires and that is missing.
pub fn missing_field<A: Allocator>(kind: u8, fields: &[HeaderField<A>]) -> Option<u8>
    ensures { IsMissing (lacks (required kind) (field_trees fields.now)) result }
{
    first_missing(required(kind), fields)
}

/// The first of these codes that is missing.
#[tactic(auto, using(crate::proofs::FieldLists::lacks_here, crate::proofs::FieldLists::lacks_later, crate::proofs::FieldLists::lacks_no_more))]
fn first_missing<A: Allocator>(codes: &[u8], fields: &[HeaderField<A>]) -> Option<u8>
    ensures { IsMissing (lacks codes.now (field_trees fields.now)) result }
{
    for code in codes {
        if !has_field(fields, *code) {
            return Some(*code);
        }
    }
    None
}

/// The text that a value is, or nothing.
pub fn text_in<A: Allocator>(value: &Value<A>) -> &[u8]
    ensures { result.now ≡ text_in (value_tree value.now) }
{
    match value {
        Value::Str(text) | Value::Path(text) | Value::Sig(text) => text.as_bytes(),
        _ => &[],
    }
}

/// The signature of the body: the text of the first SIGNATURE field, or nothing.
pub fn body_signature<A: Allocator>(fields: &[HeaderField<A>]) -> &[u8]
    ensures { result.now ≡ body_signature (field_trees fields.now) }
{
    for field in fields {
        if field.code == SIGNATURE {
            return text_in(&field.value);
        }
    }
    &[]
}

/// The number that a value of four bytes is, or 0.
fn number_in<A: Allocator>(value: &Value<A>) -> u32
    ensures { result ≡ number_in (value_tree value.now) }
{
    match value {
        Value::U32(n) => *n,
        _ => 0,
    }
}

/// The number of descriptors that come with the message: the number of the first UNIX_FDS field, or
/// 0. D-Bus Specification, "Header Fields".
pub fn fd_count<A: Allocator>(fields: &[HeaderField<A>]) -> u32
    ensures { result ≡ fd_count (field_trees fields.now) }
{
    for field in fields {
        if field.code == UNIX_FDS {
            return number_in(&field.value);
        }
    }
    0
}
