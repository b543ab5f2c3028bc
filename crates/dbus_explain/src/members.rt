//! What is said of a refused message as JSON. RFC 8259.
#![tactic(auto)]

ghost use Rattle.std.specs.Prelude.{◌≡◌, ◌≤◌, ◌++◌, ℕ, List, Option, length};
ghost use Rattle.dbus_show.specs.Escapes.{escaped};
ghost use Rattle.dbus_show.specs.declared.escapes.Escapes.TheVariants.{Json};
ghost use Rattle.dbus_explain.specs.Members.{AreMembersOf, IsJsonHead};
ghost use Rattle.dbus_explain.specs.Names.{IsNameOf, text_part};
ghost use Rattle.dbus_explain.specs.declared.search.StatedText.{StatedText as StatedIn};

use crate::escaping::Escaping;
use crate::head::{TYPE_END, first_part, whole_fields};
use crate::message::{Refused, place_in};
use crate::places::{FIELDS, order_of, write_name, write_text_part};
use crate::reasons::rule_of;
use dbus_json::{write_header, write_header_front, write_string};
use dbus_show::{Draft, Escapes};
use dbus_value_model::Reason;

/// Appends what is said of a refused message as members of an object of JSON, with commas between
/// them.
///
/// `place` is the name of the place of its fault, and `rule` what has to be there, with its section
/// of the D-Bus Specification, both as [`explain_message`](crate::explain_message) has them.
/// `header` is an object of what is whole of the header before the place, as the program's JSON has
/// it: its `order` and its `type`, if these are; and, if the first 16 bytes are, its `flags`, its
/// `serial`, each known header field that is, by its name, and all others in the array `fields`.
///
/// ```text
/// "place":"the serial","rule":"a serial is not 0 (..)","header":{"order":"l","type":"error"}
/// ```
///
/// Any bytes and any fault are safe, and only the draft allocates. There is one such text, but for
/// the digits of DOUBLEs in header fields ([`laws::one_refusal`](crate::laws::one_refusal)). RFC
/// 8259; D-Bus Specification, "Message Format" and "Header Fields".
pub fn write_refusal_members<D: Draft>(draft: &mut D, refused: &Refused)
    ensures { (text : List ℕ) × AreMembersOf refused.now text × D.gains draft.old text draft.new }
{
    let at = place_in(refused.bytes, refused.fault);
    draft.push_str("\"place\":\"");
    write_place(draft, refused.bytes, refused.fault.reason, at);
    draft.push_str("\",\"rule\":");
    write_string(draft, rule_of(refused.fault.reason));
    draft.push_str(",\"header\":");
    write_whole_header(draft, refused.bytes, at);
}

// Appends what is told of the place with the escapes of JSON.
fn write_place<D: Draft>(draft: &mut D, bytes: &[u8], reason: Reason, at: usize)
    requires { at ≤ length bytes.now }
    ensures { (name : List ℕ) × (text : Option StatedIn) × IsNameOf bytes.now reason at name text ×
        D.gains draft.old (escaped Json (name ++ text_part text)) draft.new }
{
    let mut line = Escaping {
        draft,
        escapes: Escapes::Json,
    };
    write_told(&mut line, bytes, reason, at);
}

// Appends what is told of the place.
fn write_told<D: Draft>(draft: &mut D, bytes: &[u8], reason: Reason, at: usize)
    requires { at ≤ length bytes.now }
    ensures { (name : List ℕ) × (text : Option StatedIn) × IsNameOf bytes.now reason at name text ×
        D.gains draft.old (name ++ text_part text) draft.new }
{
    let text = write_name(draft, bytes, reason, at);
    write_text_part(draft, text);
}

// Appends what is whole of the header.
fn write_whole_header<D: Draft>(draft: &mut D, bytes: &[u8], at: usize)
    requires { at ≤ length bytes.now }
    ensures { (text : List ℕ) × IsJsonHead bytes.now at text ×
        D.gains draft.old text draft.new }
{
    if at < TYPE_END {
        draft.push_str("{}");
        return;
    }
    if at < FIELDS {
        write_header_front(draft, order_of(bytes), bytes[1]);
        return;
    }
    let first = first_part(bytes);
    let run = whole_fields(bytes, at);
    write_header(
        draft,
        first.order,
        first.kind,
        first.flags,
        first.serial,
        &run,
    );
}
