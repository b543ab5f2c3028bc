//! Why a message is refused.
#![tactic(auto)]

ghost use Rattle.std.specs.Prelude.{◌≡◌, ◌≤◌, ◌+◌, ◌++◌, ℕ, List, length};
ghost use Rattle.dbus_room.specs.Counting.{Counts, counted};
ghost use Rattle.dbus_explain.specs.Explained.{ArePartsOf, IsExplained, before_name, place_in};
ghost use Rattle.dbus_explain.specs.Explained.{place_line};
ghost use Rattle.dbus_explain.specs.Names.{IsNameOf, text_part};

use crate::explanation::{Explanation, LinesPart};
use crate::head::write_head;
use crate::looks::look_in;
use crate::places::{write_name, write_text_part};
use crate::reasons::rule_of;
use crate::search::StatedText;
use crate::window::write_window;
use dbus_room::Counted;
use dbus_show::{Draft, write_integer};
use dbus_value_model::Fault;

/// A message that is refused.
#[derive(Clone, Copy)]
pub struct Refused<'a> {
    /// Its bytes, as far as they were read.
    pub bytes: &'a [u8],
    /// Its fault, whose place counts from its first byte.
    pub fault: Fault,
    /// Its number among the messages of its input, from 1.
    pub number: u64,
    /// Where it begins in its input, in bytes.
    pub offset: u64,
}

/// Appends four lines that explain why a message is refused, each ended by a line feed, with no
/// other one in it; three if the message type is not whole before the place of the fault.
///
/// The first has the message's number and where it begins, the place of the fault from there, and
/// its name: a part of the header, a header field, or the path to a value, the longest of at most
/// 128 steps, such as `body[1][3].key`, in which arrays and structs count from 0, and a dict entry
/// is named by its key, as in `body[1]["Title"].value`, if that is a text of 64 bytes at most, of
/// printable ASCII, that is whole before the place; and if the place is in a text, behind its
/// length, where the text begins and the length that is stated. The second is the head of the
/// message as it is shown, as far as it is whole before the place: its number, byte order and type,
/// and, if the first 16 bytes are whole, the serial, the flags, and the header fields that are;
/// control characters of ASCII there are `\x1b` and hidden characters `\u{202e}`. The third has the
/// bytes around the place in hexadecimal, and the one there between brackets, which are empty at
/// the end of what was read. The last says what has to be there, and names the section of the D-Bus
/// Specification; if the very first byte of the input is refused, it also says what begins with that
/// byte, as a handshake, an ELF program, a gzip, xz or zstd file, or text, and what to do; and of a
/// signal with serial 0 that libdbus makes it.
///
/// ```text
///   message 2 at 96, byte 72: body[1][3].key
///   #2 l signal serial=7 flags=00 path=/org/a interface=org.a.B member=Changed signature=ya{sb}
///   00 00 00 00 07 00 00 00 [02] 00 00 00
///   a BOOLEAN is 0 or 1 (D-Bus Specification, "Marshaling (Wire Format)")
/// ```
///
/// It returns where their parts are. Of a place past the bytes, their end is named and shown. Any
/// bytes and any fault are safe, and only the draft allocates. There is one such text
/// ([`laws::one_explanation`](crate::laws::one_explanation)). D-Bus Specification, "Message
/// Protocol".
pub fn explain_message<D: Draft>(draft: &mut D, refused: &Refused) -> Explanation
    ensures { (text : List ℕ) × (is : IsExplained refused.now text) ×
        ArePartsOf is result × D.gains draft.old text draft.new }
{
    write_lines(&mut Counted { draft, len: 0 }, refused)
}

// Appends the lines, of which there is none yet.
fn write_lines<D: Draft>(lines: &mut Counted<'_, D>, refused: &Refused) -> Explanation
    requires { lines.old.len ≡ 0 }
    ensures { (text : List ℕ) × (is : IsExplained refused.now text) ×
        ArePartsOf is result × Counts D.gains lines.old text lines.new }
{
    let at = place_in(refused.bytes, refused.fault);
    let (name, text) = write_place(lines, refused, at);
    let head = write_head(lines, refused.bytes, refused.number, at);
    lines.push_str("\n ");
    write_window(lines, refused.bytes, at);
    lines.push_str("\n  ");
    let start = lines.len;
    lines.push_str(rule_of(refused.fault.reason));
    let rule = LinesPart {
        start,
        end: lines.len,
    };
    lines.push_str(look_in(refused));
    lines.push_str("\n");
    Explanation {
        length: lines.len,
        name,
        head,
        rule,
        text,
    }
}

/// The place of the fault, or the end of the bytes if it is past them.
pub(crate) fn place_in(bytes: &[u8], fault: Fault) -> usize
    ensures { result ≡ place_in bytes.now fault }
{
    fault.at.min(bytes.len() as u64) as usize
}

// Appends the line of the place, and returns where the name is in all lines, and the text that the
// place is in.
fn write_place<D: Draft>(
    lines: &mut Counted<'_, D>,
    refused: &Refused,
    at: usize,
) -> (LinesPart, Option<StatedText>)
    requires { at ≤ length refused.now.bytes.now }
    ensures { (name : List ℕ) ×
        IsNameOf refused.now.bytes.now refused.now.fault.reason at name result.1 ×
        Counts D.gains lines.old (place_line refused.now at (name ++ text_part result.1))
        lines.new ×
        (result.0.start ≡ counted (lines.old.len + length (before_name refused.now at))) ×
        (result.0.end ≡
        counted (lines.old.len + length (before_name refused.now at) + length name)) }
{
    lines.push_str("  message ");
    write_integer(lines, refused.number);
    lines.push_str(" at ");
    write_integer(lines, refused.offset);
    lines.push_str(", byte ");
    write_integer(lines, at);
    lines.push_str(": ");
    let start = lines.len;
    let text = write_name(lines, refused.bytes, refused.fault.reason, at);
    let name = LinesPart {
        start,
        end: lines.len,
    };
    write_text_part(lines, text);
    (name, text)
}
