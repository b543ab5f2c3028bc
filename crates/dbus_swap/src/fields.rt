//! Header fields, byteswapped in the copy. D-Bus Specification, "Header Fields".
#![tactic(auto)]

ghost use Rattle.std.specs.Prelude.{◌≡◌, ℕ, List, length};
ghost use Rattle.dbus_value_model.specs.Spelling.{spelling};
ghost use Rattle.dbus_message_model.specs.Messages.{FieldTree, field_array};
ghost use Rattle.dbus_walk.specs.Fields.{FieldsStand};
ghost use Rattle.dbus_swap.specs.Byteswapping.{other, Replaces};

use crate::numbers::byteswap_4;
use crate::values::byteswap_value;
use dbus_walk::{FIELDS_START, MessageBytes, Spot, field_at, fields_end, lengths_of};

/// Byteswaps a message's fields, as `byteswap_value` does: of each the value alone, since its code
/// and its signature are bytes.
pub(crate) fn byteswap_fields(
    source: &MessageBytes<'_>,
    out: &mut [u8],
    depth_left: u8,
    table: &mut [u8; 255],
)
    requires stand { (fs : List FieldTree) × (rest : List ℕ) × FieldsStand source.now depth_left fs rest }
    requires as_long { length out.old ≡ length source.now.bytes.now }
    ensures byteswapped { (fs : List FieldTree) (rest : List ℕ) → FieldsStand source.now depth_left fs rest →
        Replaces 12 (spelling source.now.order 12 (field_array fs)) (spelling (other source.now.order) 12 (field_array fs)) out.old out.new }
{
    let end = fields_end(source);
    // The fields' length is at 12.
    byteswap_4(out, 12);
    let mut place = FIELDS_START;
    while place < end {
        let field = field_at(source, place, depth_left);
        place = byteswap_value(
            source,
            out,
            &Spot {
                at: field.at,
                types: field.types,
                lengths: lengths_of(field.types, table),
                depth_left: field.depth_left,
            },
        );
    }
}
