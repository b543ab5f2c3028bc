//! Header fields and values of the body as one row of items, as far as they are there. D-Bus
//! Specification, "Message Format".
#![tactic(auto)]

ghost use Rattle.std.specs.Prelude.{ℕ, List};
ghost use Rattle.dbus_message_model.specs.Messages.{FieldTree};
ghost use Rattle.dbus_types.specs.SignatureCodes.{AreLengths};
ghost use Rattle.dbus_value_model.specs.Values.{ValueTrees};
ghost use Rattle.dbus_walk.specs.Fields.{FieldsLeft};
ghost use Rattle.dbus_walk.specs.Standing.{AllStandAt, AllStandThere};
ghost use Rattle.dbus_flatten.specs.Flattening.{ArePartsFlat};

use crate::flat_item::FlatItem;
use crate::flattener::Flattener;
use dbus_types::lengths_in;
use dbus_walk::{FIELDS_START, MessageBytes, Spot, walk_value, walk_values};

/// The type of a header field.
const FIELD: &[u8] = b"(yv)";

/// How many items a row has of parts of a message.
#[repr(C)]
#[derive(Clone, Copy)]
pub struct PartsCount {
    /// Those of the header fields, which come first.
    pub fields: u64,
    /// All.
    pub all: u64,
}

/// Writes items of header fields that stand one after another from [`FIELDS_START`] up to an end,
/// and then of values of the body that follow one another at a spot, as one row, as
/// [`crate::flatten`] does those of values: of each field a struct, its code, the variant, and the
/// value that this holds. So many containers may be open in the message. The array of the fields,
/// of which there may be more behind the end, has no item.
///
/// It validates nothing again, and its time is linear in the bytes. D-Bus Specification, "Message
/// Format".
pub fn flatten_parts(
    source: &MessageBytes<'_>,
    depth_left: u8,
    end: usize,
    body: &Spot<'_>,
    first: usize,
    out: &mut [FlatItem],
) -> PartsCount
    requires fields { (fs : List FieldTree) × (rest : List ℕ) ×
        FieldsLeft source.now depth_left 16 end fs rest }
    requires body { AllStandThere source.now body.now }
    requires noted { AreLengths body.now.types.now body.now.lengths.now }
    ensures flat { (fs : List FieldTree) (rest : List ℕ) (vs : ValueTrees) (after : List ℕ) →
        FieldsLeft source.now depth_left 16 end fs rest → AllStandAt source.now body.now vs after →
        ArePartsFlat source.now.order fs body.now.at vs first out.old out.new result }
{
    let mut table = [0; 255];
    let lengths = lengths_in(FIELD, &mut table);
    let mut flattener = Flattener {
        out,
        first,
        count: 0,
    };
    let mut at = FIELDS_START;
    while at < end {
        let spot = Spot {
            at,
            types: FIELD,
            lengths,
            // The array is open.
            depth_left: depth_left - 1,
        };
        match walk_value(&mut flattener, &mut 0, source, &spot) {
            Ok(after) => at = after,
            Err(never) => match never {},
        }
    }
    let fields = flattener.total();
    match walk_values(&mut flattener, &mut 0, source, body) {
        Ok(_) => PartsCount {
            fields: fields as u64,
            all: flattener.total() as u64,
        },
        Err(never) => match never {},
    }
}
