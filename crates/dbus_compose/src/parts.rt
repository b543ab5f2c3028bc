//! The parts of a message, changed.
#![tactic(auto)]

ghost use Rattle.std.specs.Prelude.{◌≡◌, OnOk};
ghost use Rattle.dbus_message_model.specs.PartsViews.{field_tree, field_trees};
ghost use Rattle.dbus_compose.specs.Drafts.{Becomes, draft_in, put, with_field, with_value};

use dbus_message_model::{HeaderField, Parts};
use dbus_value_model::Value;
use std::alloc::{AllocError, Allocator};

/// Puts a field among others, in the order of their codes, and in place of one of its code.
#[tactic(auto, using(crate::proofs::FieldPlaces::put_later, crate::proofs::FieldPlaces::put_here, crate::proofs::FieldPlaces::put_before, crate::proofs::FieldPlaces::put_last))]
pub fn put_field<A: Allocator>(
    fields: &mut Vec<HeaderField<A>, A>,
    field: HeaderField<A>,
) -> Result<(), AllocError>
    ensures { OnOk result
        (field_trees fields.new.items ≡ put (field_tree field) (field_trees fields.old.items)) }
{
    for i in 0..fields.len() {
        let code = fields[i].code;
        if field.code == code {
            fields[i] = field;
            return Ok(());
        }
        if field.code < code {
            fields.insert(i, field)?;
            return Ok(());
        }
    }
    fields.push(field)?;
    Ok(())
}

/// The parts with this field.
pub fn with_field<A: Allocator>(
    parts: Result<Parts<A>, AllocError>,
    field: HeaderField<A>,
) -> Result<Parts<A>, AllocError>
    ensures { Becomes (draft_in parts) (with_field (field_tree field)) (draft_in result) }
{
    let mut parts = parts?;
    put_field(&mut parts.fields, field)?;
    Ok(parts)
}

/// The parts with this value at the end of the body.
pub fn with_value<A: Allocator>(
    parts: Result<Parts<A>, AllocError>,
    value: Value<A>,
) -> Result<Parts<A>, AllocError>
    ensures { Becomes (draft_in parts) (with_value value) (draft_in result) }
{
    let mut parts = parts?;
    parts.body.push(value)?;
    Ok(parts)
}
