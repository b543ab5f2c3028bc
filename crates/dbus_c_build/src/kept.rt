//! All header fields of a message appended: those that are kept, each in its place, and those that
//! are new. D-Bus Specification, "Header Fields".
#![tactic(auto)]

ghost use Rattle.std.specs.Prelude.{◌≡◌, ℕ, List, OnOk, IfErr};
ghost use Rattle.std.specs.List.{flat_map};
ghost use Rattle.dbus_value_model.specs.SizeLimits.{with_value};
ghost use Rattle.dbus_message_model.specs.Messages.{FieldTree, field_struct};
ghost use Rattle.dbus_validate.specs.Seen.{AreNoted};
ghost use Rattle.dbus_walk.specs.Fields.{FieldStands, field_end};
ghost use Rattle.dbus_c_build.specs.Building.{AreShort, with_fields};
ghost use Rattle.dbus_c_build.specs.Drafts.{AreKept, added, fields_after, in_place, known_codes, stays};
ghost use Rattle.dbus_c_build.specs.declared.draft_fault.DraftFault.TheVariants.{Memory};

use crate::draft::Draft;
use crate::draft_fault::DraftFault;
use crate::fields::append_given;
use crate::given::Given;
use dbus_body::begin_struct;
use dbus_message_model::field_code::UNIX_FDS;
use dbus_message_model::field_table::is_known;
use dbus_validate::Validated;
use dbus_value_model::gap;
use dbus_walk::{FIELDS_START, MessageBytes, Spot, field_at, fields_end, lengths_of, skip_value};
use std::alloc::{AllocError, Allocator};

/// Whether a field of the message stays as it is.
fn stays(parts: &Draft<'_>, kept: &Validated, code: u8) -> bool
    ensures { (bytes : List ℕ) (fs : List FieldTree) → AreNoted fs bytes kept.now.fields →
        result ≡ stays parts.now fs code }
{
    if is_known(code) {
        return code == UNIX_FDS && parts.unix_fds == kept.fields.fd_count();
    }
    true
}

/// Appends the field from `at` up to `end` as it is. A field begins at a multiple of 8, so its
/// bytes are the same wherever it is.
fn append_same<A: Allocator>(
    out: &mut Vec<u8, A>,
    source: &MessageBytes<'_>,
    at: usize,
    end: usize,
) -> Result<(), AllocError>
    requires stands { (depth_left : ℕ) × (f : FieldTree) × (rest : List ℕ) ×
        FieldStands source.now depth_left at f rest × (end ≡ field_end source.now at f) }
    ensures { (depth_left : ℕ) (f : FieldTree) (rest : List ℕ) →
        FieldStands source.now depth_left at f rest → end ≡ field_end source.now at f →
        OnOk result (out.new.items ≡ with_value source.now.order (field_struct f) out.old.items) }
{
    let start = at + gap(8, at);
    let field = &source.bytes[start..end];
    begin_struct(out)?;
    out.extend_from_slice(field)
}

/// Appends the fields of the message that is kept, if one is: each in its place.
fn append_kept<A: Allocator>(
    out: &mut Vec<u8, A>,
    given: &Given<'_>,
    parts: &Draft<'_>,
) -> Result<(), DraftFault>
    requires kept { (fs : List FieldTree) × AreKept given.now parts.now.order fs }
    requires short { AreShort parts.now }
    ensures appended { (fs : List FieldTree) → AreKept given.now parts.now.order fs →
        OnOk result (out.new.items ≡ with_fields parts.now.order
        (flat_map (in_place parts.now fs) fs) out.old.items) }
    ensures memory { IfErr result (λ why. why ≡ Memory) }
{
    let kept = match given.kept {
        Some(kept) => kept,
        None => return Ok(()),
    };
    let source = MessageBytes {
        bytes: &given.bytes[..kept.length],
        order: kept.order,
    };
    let end = fields_end(&source);
    let mut table = [0; 255];
    let mut place = FIELDS_START;
    while place < end {
        let at = place;
        let field = field_at(&source, at, given.limits.depth);
        let spot = Spot {
            at: field.at,
            types: field.types,
            lengths: lengths_of(field.types, &mut table),
            depth_left: field.depth_left,
        };
        place = skip_value(&source, &spot);
        if stays(parts, &kept, field.code) {
            append_same(out, &source, at, place)?;
        } else {
            append_given(out, parts, field.code)?;
        }
    }
    Ok(())
}

/// Appends the fields that the parts have and the message that is kept does not have, in the order
/// of their codes.
fn append_added<A: Allocator>(
    out: &mut Vec<u8, A>,
    given: &Given<'_>,
    parts: &Draft<'_>,
) -> Result<(), DraftFault>
    requires short { AreShort parts.now }
    ensures appended { (fs : List FieldTree) → AreKept given.now parts.now.order fs →
        OnOk result (out.new.items ≡ with_fields parts.now.order
        (flat_map (added parts.now fs) known_codes) out.old.items) }
    ensures memory { IfErr result (λ why. why ≡ Memory) }
{
    for before in 0..UNIX_FDS {
        let code = before + 1;
        if given.has(code) {
            continue;
        }
        append_given(out, parts, code)?;
    }
    Ok(())
}

/// Appends all fields.
pub(crate) fn append_fields<A: Allocator>(
    out: &mut Vec<u8, A>,
    given: &Given<'_>,
    parts: &Draft<'_>,
) -> Result<(), DraftFault>
    requires kept { (fs : List FieldTree) × AreKept given.now parts.now.order fs }
    requires short { AreShort parts.now }
    ensures appended { (fs : List FieldTree) → AreKept given.now parts.now.order fs →
        OnOk result (out.new.items ≡ with_fields parts.now.order
        (fields_after parts.now fs) out.old.items) }
    ensures memory { IfErr result (λ why. why ≡ Memory) }
{
    append_kept(out, given, parts)?;
    append_added(out, given, parts)
}
