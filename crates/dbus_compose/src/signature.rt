//! The SIGNATURE field of a body.
#![tactic(auto)]

ghost use Rattle.std.specs.Prelude.{◌≡◌, IfOk, string_bytes};
ghost use Rattle.dbus_texts.specs.Types.{sigs};
ghost use Rattle.dbus_value_model.specs.Values.{types_of};
ghost use Rattle.dbus_value_model.specs.ValueViews.{value_trees_of};
ghost use Rattle.dbus_message_model.specs.PartsViews.{parts_tree};
ghost use Rattle.dbus_compose.specs.Drafts.{draft_of, draft_tree};

use crate::parts::put_field;
use dbus_message_model::field_code::SIGNATURE;
use dbus_message_model::{HeaderField, Parts};
use dbus_types::push_type;
use dbus_value_model::{Value, type_of};
use std::alloc::{AllocError, Allocator};

/// The texts of the values' types, one after the other, be they a signature or none.
fn types_text<A: Allocator + Copy>(alloc: A, values: &[Value<A>]) -> Result<String<A>, AllocError>
    ensures { IfOk result (λ text.
        string_bytes text ≡ sigs (types_of (value_trees_of values.now))) }
{
    let mut text = String::new(alloc);
    for value in values {
        let ty = type_of(alloc, value)?;
        push_type(&mut text, &ty)?;
    }
    Ok(text)
}

/// The parts with the SIGNATURE field of the body, if it has values.
pub fn with_signature<A: Allocator + Copy>(
    alloc: A,
    parts: Parts<A>,
) -> Result<Parts<A>, AllocError>
    ensures signed { IfOk result (λ p. parts_tree p ≡ draft_tree (draft_of parts)) }
    ensures body { IfOk result (λ p. p.body.items ≡ parts.body.items) }
{
    if parts.body.is_empty() {
        return Ok(parts);
    }
    let mut parts = parts;
    let value = Value::Sig(types_text(alloc, &parts.body)?);
    put_field(
        &mut parts.fields,
        HeaderField {
            code: SIGNATURE,
            value,
        },
    )?;
    Ok(parts)
}
