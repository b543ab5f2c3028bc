//! Messages built from bytes that were validated. D-Bus Specification, "Message Format".
#![tactic(auto)]

ghost use Rattle.std.specs.Prelude.{◌≡◌, ℕ, List, IsTrue, IfOk};
ghost use Rattle.dbus_value_model.specs.PackedBytes.{keeps_bytes, keep_bytes};
ghost use Rattle.dbus_message_model.specs.Messages.{FieldTree, MessageTree};
ghost use Rattle.dbus_message_model.specs.PackedParts.{PartsKeepBytes, field_values};
ghost use Rattle.dbus_message_model.specs.PartsViews.{field_tree, field_trees, parts_tree};
ghost use Rattle.dbus_header.specs.MessageOutcomes.{IsWhole};
ghost use Rattle.dbus_validate.specs.Validating.{IsValidated};
ghost use Rattle.dbus_walk.specs.Fields.{FieldsStand, FieldStands, field_end};

use dbus_message_model::{HeaderField, Parts};
use dbus_unmarshal::{build_typed, build_values};
use dbus_validate::{Validated, Whole};
use dbus_value_model::Limits;
use dbus_walk::{FIELDS_START, MessageBytes, field_at, fields_end};
use std::alloc::{AllocError, Allocator};

/// For how many fields room is made at the start: most messages have no more.
const FIELD_ROOM: usize = 8;

/// The header field that begins at `at`, and the offset after it, if `depth_left` containers may be
/// open in the message.
fn build_field<A: Allocator + Copy>(
    alloc: A,
    source: &MessageBytes<'_>,
    at: usize,
    depth_left: u8,
) -> Result<(HeaderField<A>, usize), AllocError>
    requires stands { (f : FieldTree) × (rest : List ℕ) × FieldStands source.now depth_left at f rest }
    ensures built { (f : FieldTree) (rest : List ℕ) → FieldStands source.now depth_left at f rest →
        IfOk result (λ r. (field_tree r.0 ≡ f) × (r.1 ≡ field_end source.now at f)) }
    ensures packed { IfOk result (λ r. IsTrue (keeps_bytes r.0.value)) }
{
    let field = field_at(source, at, depth_left);
    let (value, after) = build_typed(alloc, source, field.at, field.types, field.depth_left)?;
    let code = field.code;
    Ok((HeaderField { code, value }, after))
}

/// The header fields of a message in which `depth_left` containers may be open.
fn build_fields<A: Allocator + Copy>(
    alloc: A,
    source: &MessageBytes<'_>,
    depth_left: u8,
) -> Result<Vec<HeaderField<A>, A>, AllocError>
    requires stand { (fs : List FieldTree) × (rest : List ℕ) × FieldsStand source.now depth_left fs rest }
    ensures built { (fs : List FieldTree) (rest : List ℕ) → FieldsStand source.now depth_left fs rest →
        IfOk result (λ fields. field_trees fields.items ≡ fs) }
    ensures packed { IfOk result (λ fields. IsTrue (keep_bytes (field_values fields.items))) }
{
    let end = fields_end(source);
    // Most fields have sixteen bytes or more.
    let some = (end - FIELDS_START).div_ceil(16).min(FIELD_ROOM);
    let mut fields = Vec::with_capacity(alloc, some)?;
    let mut place = FIELDS_START;
    while place < end {
        let (field, after) = build_field(alloc, source, place, depth_left)?;
        fields.push(field)?;
        place = after;
    }
    Ok(fields)
}

/// The message that the bytes begin with, which was validated in them under the limits: what it is
/// made of. An array of BYTE in it is `Bytes`. The one error is that an allocation failed. D-Bus
/// Specification, "Message Format".
pub fn build_message<A: Allocator + Copy>(
    alloc: A,
    bytes: &[u8],
    validated: &Validated,
    limits: Limits,
) -> Result<Parts<A>, AllocError>
    requires validated { IsValidated limits bytes.now validated.now }
    ensures built { (m : MessageTree) →
        IsWhole limits bytes.now validated.now.order m validated.now.length →
        IfOk result (λ parts. parts_tree parts ≡ m) }
    ensures packed { IfOk result PartsKeepBytes }
{
    let whole = Whole {
        bytes,
        limits,
        validated,
    };
    let source = whole.source();
    let fields = build_fields(alloc, &source, limits.depth)?;
    let mut table = [0; 255];
    let body = build_values(alloc, &source, &whole.body(&mut table))?;
    Ok(Parts {
        kind: validated.kind,
        flags: validated.flags,
        serial: validated.serial,
        fields,
        body,
    })
}
