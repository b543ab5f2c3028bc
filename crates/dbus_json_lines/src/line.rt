//! The message that a line spells.
#![tactic(auto)]

ghost use Rattle.std.specs.Prelude.{◌≡◌, ◌<◌, ◌≤◌, ◌↔◌, ◌^◌, Err, IfOk, IsTrue, length, option_map};
ghost use Rattle.std.specs.Str.{IsUtf8};
ghost use Rattle.json.specs.Value.{value_view};
ghost use Rattle.dbus_texts.specs.Kinds.{IsBreakIn};
ghost use Rattle.dbus_value_model.specs.declared.order.Order.{Order as TheOrder};
ghost use Rattle.dbus_message_model.specs.Messages.{MessageTree};
ghost use Rattle.dbus_message_model.specs.MessageViews.{message_tree};
ghost use Rattle.dbus_json_reader.specs.declared.unread.Broken.{Broken as TheBroken};
ghost use Rattle.dbus_json_lines.specs.JsonLines.{IsBlank, IsLineOf, json_of};
ghost use Rattle.dbus_json_lines.specs.LineFaults.{IsPlaceOf, IsPlaced};
ghost use Rattle.dbus_json_lines.specs.declared.fault.LineFault.{LineFault as TheFault};

use crate::broken::broken_at;
use crate::fault::{LineFault, NoMessage};
use crate::places::offset_of;
use dbus_json::Integers;
use dbus_json_reader::{JsonReason, Unread, read_message};
use dbus_message_model::Message;
use dbus_texts::{TextKind, first_break};
use dbus_value_model::{Limits, Order};
use json::{Error, Reader, Scratch, Value};
use std::alloc::{AllocError, Allocator};

/// How deep the arrays and objects of a line may nest.
const LINE_DEPTH: usize = 130;

/// Whether a line has only white space: spaces, tabs, line feeds and carriage returns. RFC 8259,
/// section 2.
pub fn is_blank(line: &[u8]) -> bool
    ensures { IsTrue result ↔ IsBlank line.now }
{
    line.iter()
        .all(|byte| matches!(*byte, b' ' | b'\t' | b'\n' | b'\r'))
}

// The JSON value that a text is, if it is one.
fn json_of<'a, A: Allocator + Copy>(
    alloc: A,
    text: &'a str,
    scratch: &'a mut Scratch<A>,
) -> Result<Option<Value<'a, A>>, AllocError>
    ensures { IfOk result (λ json. json_of text.now ≡ option_map (λ v. value_view v) json) }
{
    let mut reader = match Reader::new(text, scratch) {
        Ok(reader) => reader,
        Err(_) => return Err(AllocError),
    };
    let json = match Value::read(alloc, &mut reader, LINE_DEPTH) {
        Ok(json) => json,
        Err(Error::OutOfMemory) => return Err(AllocError),
        Err(_) => return Ok(None),
    };
    if reader.next().is_some() {
        return Ok(None);
    }
    Ok(Some(json))
}

// The first byte of a line that no UTF-8 has there, or its end. RFC 3629, section 4.
fn broken_utf8(line: &[u8]) -> usize
    requires { IsUtf8 line.now → ⊥ }
    ensures { IsBreakIn IsUtf8 line.now result }
{
    let Err(fault) = simdutf8::compat::from_utf8(line) else {
        return line.len();
    };
    let at = fault.valid_up_to();
    at + first_break(TextKind::Text, &line[at..])
}

// Where a text is no JSON.
fn not_json<A: Allocator + Copy>(alloc: A, text: &str) -> NoMessage
    ensures { (fault : TheFault) → result ≡ NoMessage.Refused fault →
        (fault.reason ≡ JsonReason.NotJson) × (fault.at ≤ length text.now) }
{
    let mut scratch = Scratch::new(alloc);
    match broken_at(alloc, text, LINE_DEPTH, &mut scratch) {
        Ok(at) => NoMessage::Refused(LineFault {
            reason: JsonReason::NotJson,
            at,
        }),
        Err(AllocError) => NoMessage::Memory,
    }
}

// Why a line's JSON spells no message, and where that is in the line.
fn in_line(line: &[u8], why: Unread) -> NoMessage
    ensures placed { IsPlaced line.now why result }
    ensures few { (broken : TheBroken) → why ≡ Unread.Unspelled broken → length line.now < 2 ^ 64 }
{
    match why {
        Unread::Memory => NoMessage::Memory,
        Unread::Unspelled(broken) => NoMessage::Refused(LineFault {
            reason: broken.reason,
            at: offset_of(line, broken.at),
        }),
    }
}

/// The message that a line spells, which has no line feed, and the byte order that it names. The
/// line is one JSON value, RFC 8259, with white space anywhere between its tokens; it is an object
/// as `json` writes it, with its members in any order and its integers of 64 bits as [`Integers`]
/// has them. A message with no serial has this number as one. Room for texts with escapes is in the
/// scratch, and is used again.
///
/// `Refused` exactly if it spells no message that is valid within the limits, with the reason and
/// its place: `NotUtf8` at the first byte that no UTF-8 has there, `NotJson` at the token that no
/// JSON value has there, or at the end, and any other at the token that shows it. Of several it is
/// the first of: the object's form; the names of its members, in their order; `order`, `type`,
/// `flags`, `serial`; the known fields in the order of their members; `fields`; `body`; and the
/// rules of whole messages in the order of `dbus_message::BuildFault`. `Memory` if an allocation
/// failed. D-Bus Specification, "Message Format".
///
/// ```rust
/// use dbus_json::Integers;
/// use dbus_json_lines::message_of_line;
/// use dbus_message::encode;
/// use dbus_value::Limits;
/// use json::Scratch;
/// use std::io::Write;
///
/// let line = br#"{"type":"signal","path":"/a","interface":"a.b","member":"C"}"#;
/// let mut scratch = Scratch::new(alloc);
/// let limits = Limits::specification();
/// let (order, message) =
///     message_of_line(alloc, line, limits, 1, Integers::Exact, &mut scratch)?;
/// rt.stdout().write_all(&encode(alloc, &message, order)?)?;
/// ```
pub fn message_of_line<A: Allocator + Copy>(
    alloc: A,
    line: &[u8],
    limits: Limits,
    number: u32,
    integers: Integers,
    scratch: &mut Scratch<A>,
) -> Result<(Order, Message<A>), NoMessage>
    ensures ok { IfOk result (λ r.
        IsLineOf integers limits number line.now r.0 (message_tree r.1)) }
    ensures refused { (fault : TheFault) → result ≡ Err (NoMessage.Refused fault) →
        (order : TheOrder) (m : MessageTree) → IsLineOf integers limits number line.now order m → ⊥ }
    ensures place { (fault : TheFault) → result ≡ Err (NoMessage.Refused fault) →
        IsPlaceOf line.now fault }
{
    let Ok(text) = simdutf8::basic::from_utf8(line) else {
        return Err(NoMessage::Refused(LineFault {
            reason: JsonReason::NotUtf8,
            at: broken_utf8(line),
        }));
    };
    let json = match json_of(alloc, text, scratch) {
        Ok(Some(json)) => json,
        Ok(None) => return Err(not_json(alloc, text)),
        Err(AllocError) => return Err(NoMessage::Memory),
    };
    match read_message(alloc, &json, limits, number, integers) {
        Ok(read) => Ok(read),
        Err(why) => Err(in_line(line, why)),
    }
}
