//! Messages as lines of JSON, from their bytes. RFC 8259; D-Bus Specification, "Message Format".
#![tactic(auto)]

ghost use Rattle.std.specs.Prelude.{◌≡◌, ℕ, List, [], codes, drop, nat_lt};
ghost use Rattle.std.specs.List.{list_all, list_any};
ghost use Rattle.dbus_message_model.specs.Messages.{MessageTree, is_known};
ghost use Rattle.dbus_header.specs.MessageOutcomes.{IsWhole};
ghost use Rattle.dbus_validate.specs.Validating.{IsValidated, WasValidated, IsWholeOf};
ghost use Rattle.dbus_value_text.specs.Forms.{led};
ghost use Rattle.dbus_json.specs.JsonIntegers.{integers_of};
ghost use Rattle.dbus_json.specs.JsonMessages.{AreOthers, IsJsonLine, type_text, start_text};

use crate::header::{write_head, write_header_fields};
use crate::integers::Integers;
use crate::json::Json;
use crate::place::LinePlace;
use crate::times::write_time;
use dbus_show::{Draft, write_integer};
use dbus_validate::{Validated, Whole};
use dbus_value_model::Limits;
use dbus_value_text::{FieldRun, write_body};

/// Appends what comes before the header fields.
fn write_start<D: Draft>(draft: &mut D, validated: &Validated, place: LinePlace)
    ensures { D.gains draft.old (start_text validated.now place) draft.new }
{
    draft.push_str("{\"number\":");
    write_integer(draft, place.number);
    draft.push_str(",\"offset\":");
    write_integer(draft, place.offset);
    write_time(draft, place.time);
    draft.push_str(",\"length\":");
    write_integer(draft, validated.length);
    draft.push_code(b',');
    write_head(
        draft,
        validated.order,
        validated.kind,
        validated.flags,
        validated.serial,
    );
}

// Appends the line of JSON of the message that the bytes begin with, with safe integers or not.
fn write_json_in<const SAFE: bool, D: Draft>(
    draft: &mut D,
    bytes: &[u8],
    limits: Limits,
    validated: &Validated,
    place: LinePlace,
)
    requires validated { IsValidated limits bytes.now validated.now }
    ensures written { (m : MessageTree) →
        IsWhole limits bytes.now validated.now.order m validated.now.length →
        (text : List ℕ) × IsJsonLine (integers_of SAFE) validated.now.order m place text ×
        D.gains draft.old text draft.new }
{
    let whole = Whole {
        bytes,
        limits,
        validated,
    };
    write_start(draft, validated, place);
    write_header_fields::<SAFE, D>(draft, &FieldRun::of(&whole));
    draft.push_str(",\"body\":[");
    write_body::<Json<SAFE>, D>(draft, &whole, "", ",");
    draft.push_str("]}\n");
}

/// Appends the message that the bytes begin with as a line of JSON, which ends in a line feed. It
/// was validated in them under the limits.
///
/// The line is one object: the message's `number` and `offset`, as they are given; its `time`, if
/// one is given, a string of seconds with nine digits behind the point; its length in bytes, its
/// order as `"l"` or `"B"`, its type by name, its flags and its serial; each known header field by
/// its name; all other fields in the array `fields`, and the values of the body in the array
/// `body`. A field in `fields` that a known field stands after has its `place` among all fields,
/// counted from 0. An INT64 or UINT64 is a number or a string as [`Integers`] has it. No message is
/// built from the bytes, and only the draft allocates.
///
/// ```text
/// {"number":1,"offset":0,"length":96,"order":"l","type":"signal","flags":0,"serial":2,"path":"/a","fields":[],"body":["hi",[1,2]]}
/// ```
///
/// RFC 8259; D-Bus Specification, "Message Format" and "Header Fields".
pub fn write_json<D: Draft>(
    draft: &mut D,
    bytes: &[u8],
    limits: Limits,
    validated: &Validated,
    place: LinePlace,
    integers: Integers,
)
    requires validated { IsValidated limits bytes.now validated.now }
    ensures written { (m : MessageTree) →
        IsWhole limits bytes.now validated.now.order m validated.now.length →
        (text : List ℕ) × IsJsonLine integers validated.now.order m place text ×
        D.gains draft.old text draft.new }
{
    match integers {
        Integers::Exact => write_json_in::<false, D>(draft, bytes, limits, validated, place),
        Integers::Safe => write_json_in::<true, D>(draft, bytes, limits, validated, place),
    }
}
