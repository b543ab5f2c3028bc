//! What of a refused message is whole before the place of its fault. D-Bus Specification, "Message
//! Format".
#![tactic(auto)]

ghost use Rattle.std.specs.Prelude.{◌≡◌, ◌<◌, ◌≤◌, ℕ, List, None, IfSome, length, min};
ghost use Rattle.dbus_message_model.specs.Messages.{FieldTree};
ghost use Rattle.dbus_texts.specs.Types.{TypeTrees};
ghost use Rattle.dbus_types.specs.SignatureCodes.{AreLengths};
ghost use Rattle.dbus_value_model.specs.Values.{ValueTrees};
ghost use Rattle.dbus_value_model.specs.declared.limits.TheConstants.{DEPTH_LIMIT as DEPTH};
ghost use Rattle.dbus_value_text.specs.Runs.{AreInRun, IsRun};
ghost use Rattle.dbus_walk.specs.Standing.{AllStand, AllStandAt};
ghost use Rattle.dbus_explain.specs.Before.{AreValuesBefore, AreWholeValues};
ghost use Rattle.dbus_explain.specs.Explained.{place_in};
ghost use Rattle.dbus_explain.specs.Heads.{AreWhole};
ghost use Rattle.dbus_explain.specs.Places.{AreBodyTypes, body_begin, fields_end, order_of};

use crate::head::whole_fields;
use crate::message::place_in;
use crate::places::{FIELDS, body_begin, body_types, end_of_fields, order_of};
use crate::search::{Search, ValuePlace};
use dbus_types::lengths_in;
use dbus_value_model::{DEPTH_LIMIT, Fault};
use dbus_value_text::FieldRun;
use dbus_walk::Spot;

/// What of a refused message is whole before the place of its fault.
#[derive(Clone, Copy)]
pub struct WholeParts<'a> {
    /// Where its header fields are, which stand one after another from the first on.
    pub fields: FieldRun<'a>,
    /// Where the values of its body are, with their types.
    pub body: Spot<'a>,
}

/// The header fields and the values of the body that are whole before the place of a fault, or
/// before the end of the bytes if that comes first. `None` if the first 16 bytes are not.
///
/// A value of the body is there if it ends at that place or before it, and so do all before it; the
/// parts of one that does not are not. The table gets how long the types of the values are. Any
/// bytes and any fault are safe, and it allocates nothing. D-Bus Specification, "Message Format".
pub fn parts_before<'a>(
    bytes: &'a [u8],
    fault: Fault,
    table: &'a mut [u8; 255],
) -> Option<WholeParts<'a>>
    ensures none { result ≡ None → place_in bytes.now fault < 16 }
    ensures begun { IfSome result (λ parts. 16 ≤ place_in bytes.now fault) }
    ensures order { IfSome result (λ parts. parts.fields.source.order ≡ order_of bytes.now) }
    ensures stand { IfSome result (λ parts. IsRun parts.fields) }
    ensures fields { IfSome result (λ parts. (fs : List FieldTree) × (rest : List ℕ) ×
        AreInRun parts.fields fs rest ×
        AreWhole bytes.now (min (place_in bytes.now fault) (fields_end bytes.now)) fs) }
    ensures noted { IfSome result (λ parts.
        AreLengths parts.body.types.now parts.body.lengths.now) }
    ensures values { IfSome result (λ parts. (vs : ValueTrees) × (rest : List ℕ) ×
        AllStandAt parts.fields.source parts.body vs rest ×
        AreValuesBefore bytes.now (place_in bytes.now fault) parts.body.at vs) }
{
    let at = place_in(bytes, fault);
    if at < FIELDS {
        return None;
    }
    let order = order_of(bytes);
    let values = values_before(&Search { bytes, order, at });
    Some(WholeParts {
        fields: whole_fields(bytes, at),
        body: Spot {
            at: values.place,
            types: values.types,
            lengths: lengths_in(values.types, table),
            depth_left: DEPTH_LIMIT,
        },
    })
}

// Where the values of the body are that are whole before the place of a search, and their types.
fn values_before<'a>(search: &Search<'a>) -> ValuePlace<'a>
    requires { 16 ≤ search.now.at }
    ensures few { length result.types.now ≤ 255 }
    ensures values { (vs : ValueTrees) × (rest : List ℕ) ×
        AllStand search.now.order DEPTH result.types.now result.place search.now.bytes.now vs rest ×
        AreValuesBefore search.now.bytes.now search.now.at result.place vs }
{
    match whole_values(search) {
        Some(values) => values,
        None => ValuePlace {
            types: &[],
            place: FIELDS,
        },
    }
}

// The same, if the header fields say which types they have.
fn whole_values<'a>(search: &Search<'a>) -> Option<ValuePlace<'a>>
    requires { 16 ≤ search.now.at }
    ensures none { result ≡ None → body_begin search.now.bytes.now ≤ search.now.at →
        (ts : TypeTrees) →
        AreBodyTypes search.now.bytes.now (fields_end search.now.bytes.now) ts → ⊥ }
    ensures few { IfSome result (λ values. length values.types.now ≤ 255) }
    ensures begins { IfSome result (λ values.
        (values.place ≡ body_begin search.now.bytes.now) × (values.place ≤ search.now.at)) }
    ensures values { IfSome result (λ values. (vs : ValueTrees) × (rest : List ℕ) ×
        AllStand search.now.order DEPTH values.types.now values.place search.now.bytes.now vs rest ×
        AreWholeValues search.now.bytes.now search.now.at vs) }
{
    let place = body_begin(search.bytes);
    if search.at < place {
        return None;
    }
    let header = Search {
        bytes: search.bytes,
        order: search.order,
        at: end_of_fields(search.bytes),
    };
    let types = body_types(&header)?;
    let (_, left) = search.after_each(ValuePlace { types, place });
    let whole = types.len() - left.types.len();
    Some(ValuePlace {
        types: &types[..whole],
        place,
    })
}
