//! The head of a message that is refused, as the message is shown. D-Bus Specification, "Message
//! Format", "Header Fields".
#![tactic(auto)]

ghost use Rattle.std.specs.Prelude.{◌≡◌, ◌≤◌, ℕ, List, Option, Some, length};
ghost use Rattle.std.specs.Prelude.{min};
ghost use Rattle.dbus_message_model.specs.Messages.{FieldTree};
ghost use Rattle.dbus_show.specs.Escapes.{escaped};
ghost use Rattle.dbus_show.specs.declared.escapes.Escapes.TheVariants.{Line};
ghost use Rattle.dbus_value_text.specs.Runs.{AreInRun, IsRun};
ghost use Rattle.dbus_room.specs.Counting.{Counts};
ghost use Rattle.dbus_explain.specs.Heads.{AreWhole, IsHead, IsHeadPart, first_part_of};
ghost use Rattle.dbus_explain.specs.Heads.{head_part};
ghost use Rattle.dbus_explain.specs.Places.{fields_end, order_of};

use crate::escaping::Escaping;
use crate::explanation::LinesPart;
use crate::places::{FIELD, FIELDS, end_of_fields, order_of};
use crate::search::{Search, ValuePlace};
use dbus_room::Counted;
use dbus_show::{Draft, Escapes, write_front, write_start};
use dbus_show_view::write_shown_fields;
use dbus_value_model::{DEPTH_LIMIT, Order};
use dbus_value_text::FieldRun;
use dbus_walk::MessageBytes;

/// The offset after the message type.
pub(crate) const TYPE_END: usize = 2;

/// What a head has of the first sixteen bytes of a message.
#[derive(Clone, Copy)]
pub(crate) struct FirstPart {
    /// The byte order.
    pub(crate) order: Order,
    /// The message type.
    pub(crate) kind: u8,
    /// The flags.
    pub(crate) flags: u8,
    /// The serial.
    pub(crate) serial: u32,
}

/// Appends the line of the head, behind the line before it, if the message type is whole before the
/// place, and returns where the head is in all lines.
pub(crate) fn write_head<D: Draft>(
    lines: &mut Counted<'_, D>,
    bytes: &[u8],
    number: u64,
    at: usize,
) -> Option<LinesPart>
    requires { at ≤ length bytes.now }
    ensures { (head : Option (List ℕ)) × IsHead bytes.now at number head ×
        Counts D.gains lines.old (head_part head) lines.new ×
        IsHeadPart lines.old.len head result }
{
    if at < TYPE_END {
        return None;
    }
    lines.push_str("\n  ");
    let start = lines.len;
    write_line(lines, bytes, number, at);
    Some(LinesPart {
        start,
        end: lines.len,
    })
}

// Appends what is whole of the head, in one line.
fn write_line<D: Draft>(draft: &mut D, bytes: &[u8], number: u64, at: usize)
    requires typed { 2 ≤ at }
    requires within { at ≤ length bytes.now }
    ensures { (head : List ℕ) × IsHead bytes.now at number (Some head) ×
        D.gains draft.old (escaped Line head) draft.new }
{
    let mut line = Escaping {
        draft,
        escapes: Escapes::Line,
    };
    write_parts(&mut line, bytes, number, at);
}

// Appends what is whole of the head.
fn write_parts<D: Draft>(draft: &mut D, bytes: &[u8], number: u64, at: usize)
    requires typed { 2 ≤ at }
    requires within { at ≤ length bytes.now }
    ensures { (head : List ℕ) × IsHead bytes.now at number (Some head) ×
        D.gains draft.old head draft.new }
{
    if at < FIELDS {
        write_front(draft, order_of(bytes), bytes[1], number);
        return;
    }
    let first = first_part(bytes);
    write_start(
        draft,
        first.order,
        first.kind,
        first.serial,
        first.flags,
        number,
    );
    write_shown_fields(draft, &whole_fields(bytes, at));
}

/// What a head has of the first sixteen bytes.
pub(crate) fn first_part(bytes: &[u8]) -> FirstPart
    requires { 16 ≤ length bytes.now }
    ensures { result ≡ first_part_of bytes.now }
{
    let order = order_of(bytes);
    FirstPart {
        order,
        kind: bytes[1],
        flags: bytes[2],
        serial: order.u32_at(bytes, 8),
    }
}

/// Where the header fields are that are whole before the place.
pub(crate) fn whole_fields(bytes: &[u8], at: usize) -> FieldRun<'_>
    requires begun { 16 ≤ at }
    requires within { at ≤ length bytes.now }
    ensures bytes { result.source.bytes.now ≡ bytes.now }
    ensures order { result.source.order ≡ order_of bytes.now }
    ensures stand { IsRun result }
    ensures fields { (fs : List FieldTree) × (rest : List ℕ) × AreInRun result fs rest ×
        AreWhole bytes.now (min at (fields_end bytes.now)) fs }
{
    fields_passed(&Search {
        bytes,
        order: order_of(bytes),
        at: at.min(end_of_fields(bytes)),
    })
}

// The same before the place of a search.
fn fields_passed<'a>(search: &Search<'a>) -> FieldRun<'a>
    requires { 16 ≤ search.now.at }
    ensures bytes { result.source.bytes.now ≡ search.now.bytes.now }
    ensures order { result.source.order ≡ search.now.order }
    ensures fields { (fs : List FieldTree) × (rest : List ℕ) × AreInRun result fs rest ×
        AreWhole search.now.bytes.now search.now.at fs }
{
    let first = ValuePlace {
        types: FIELD,
        place: FIELDS,
    };
    let (_, next) = search.after_values(first);
    FieldRun {
        source: MessageBytes {
            bytes: search.bytes,
            order: search.order,
        },
        // The array of the fields is open around them.
        depth_left: DEPTH_LIMIT + 1,
        end: next.place,
    }
}
