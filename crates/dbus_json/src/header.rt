//! Headers of messages as JSON. RFC 8259; D-Bus Specification, "Message Format", "Header Fields".
#![tactic(auto)]

ghost use Rattle.std.specs.Prelude.{◌≡◌, ◌++◌, ℕ, List, [], codes, drop, nat_lt};
ghost use Rattle.std.specs.List.{list_all, list_any};
ghost use Rattle.dbus_message_model.specs.Messages.{FieldTree, is_known};
ghost use Rattle.dbus_value_text.specs.Forms.{led};
ghost use Rattle.dbus_value_text.specs.Runs.{AreInRun, IsRun};
ghost use Rattle.dbus_json.specs.JsonIntegers.{integers_of};
ghost use Rattle.dbus_json.specs.JsonMessages.{AreFields, AreOthers, IsJsonHeader, fields_text};
ghost use Rattle.dbus_json.specs.JsonMessages.{front_members, head_members, type_text};
ghost use Rattle.dbus_json.specs.JsonValues.{listed, object};

use crate::fields::{KnownFields, OtherFields};
use dbus_message_model::message_type::type_name;
use dbus_message_model::order_byte;
use dbus_show::{Draft, write_integer};
use dbus_value_model::Order;
use dbus_value_text::{FieldRun, FieldsTaken, write_field_run};

/// Appends the name of a message type, or its number if it has none.
fn write_type<D: Draft>(draft: &mut D, kind: u8)
    ensures { D.gains draft.old (type_text kind) draft.new }
{
    match type_name(kind) {
        Some(name) => {
            draft.push_code(b'"');
            draft.push_str(name);
            draft.push_code(b'"');
        }
        None => write_integer(draft, kind),
    }
}

/// Appends the byte order and the message type, as members.
fn write_front<D: Draft>(draft: &mut D, order: Order, kind: u8)
    ensures { D.gains draft.old (listed (front_members order kind)) draft.new }
{
    draft.push_str("\"order\":\"");
    draft.push_code(order_byte(order));
    draft.push_str("\",\"type\":");
    write_type(draft, kind);
}

/// Appends the byte order, the message type, the flags and the serial, as members.
pub(crate) fn write_head<D: Draft>(draft: &mut D, order: Order, kind: u8, flags: u8, serial: u32)
    ensures { D.gains draft.old (listed (head_members order kind flags serial)) draft.new }
{
    write_front(draft, order, kind);
    draft.push_str(",\"flags\":");
    write_integer(draft, flags);
    draft.push_str(",\"serial\":");
    write_integer(draft, serial);
}

/// Appends the fields that are not known, with commas between them, unless all are known. It is
/// given which are.
fn write_others<const SAFE: bool, D: Draft>(draft: &mut D, run: &FieldRun<'_>, known: FieldsTaken)
    requires stand { IsRun run.now }
    requires all { (fs : List FieldTree) (rest : List ℕ) → AreInRun run.now fs rest →
        known.all ≡ list_all (λ f. is_known f.code) fs }
    requires end { (fs : List FieldTree) (rest : List ℕ) → AreInRun run.now fs rest →
        (place : ℕ) →
        list_any (λ f. is_known f.code) (drop place fs) ≡ nat_lt place known.end }
    ensures written { (fs : List FieldTree) (rest : List ℕ) → AreInRun run.now fs rest →
        (texts : List (List ℕ)) × AreOthers (integers_of SAFE) fs texts ×
        D.gains draft.old (led [] (codes ",") texts) draft.new }
{
    if known.all {
        return;
    }
    let others: OtherFields<SAFE> = OtherFields {
        known_end: known.end,
    };
    write_field_run(draft, run, &others, "", ",");
}

/// Appends the header fields of a run as members, each after a comma: each known one by its name,
/// and all others in the array `fields`.
pub(crate) fn write_header_fields<const SAFE: bool, D: Draft>(draft: &mut D, run: &FieldRun<'_>)
    requires stand { IsRun run.now }
    ensures written { (fs : List FieldTree) (rest : List ℕ) → AreInRun run.now fs rest →
        (known others : List (List ℕ)) × AreFields (integers_of SAFE) fs known others ×
        D.gains draft.old (fields_text known others) draft.new }
{
    let known = write_field_run(draft, run, &KnownFields::<SAFE>, ",", ",");
    draft.push_str(",\"fields\":[");
    write_others::<SAFE, D>(draft, run, known);
    draft.push_code(b']');
}

/// Appends the front of a header as an object of JSON: its `order` and its `type`, as [`write_json`]
/// has them.
///
/// [`write_json`]: crate::write_json
///
/// D-Bus Specification, "Message Format".
pub fn write_header_front<D: Draft>(draft: &mut D, order: Order, kind: u8)
    ensures { D.gains draft.old (object (front_members order kind)) draft.new }
{
    draft.push_code(b'{');
    write_front(draft, order, kind);
    draft.push_code(b'}');
}

/// Appends a header as an object of JSON: its `order`, `type`, `flags` and `serial`, and the header
/// fields of the run, each known one by its name and all others in the array `fields`, as
/// [`write_json`] has them.
///
/// [`write_json`]: crate::write_json
///
/// D-Bus Specification, "Message Format" and "Header Fields".
pub fn write_header<D: Draft>(
    draft: &mut D,
    order: Order,
    kind: u8,
    flags: u8,
    serial: u32,
    run: &FieldRun<'_>,
)
    requires stand { IsRun run.now }
    ensures written { (fs : List FieldTree) (rest : List ℕ) → AreInRun run.now fs rest →
        (text : List ℕ) × IsJsonHeader order kind flags serial fs text ×
        D.gains draft.old text draft.new }
{
    draft.push_code(b'{');
    write_head(draft, order, kind, flags, serial);
    write_header_fields::<false, D>(draft, run);
    draft.push_code(b'}');
}
