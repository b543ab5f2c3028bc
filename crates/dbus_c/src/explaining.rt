//! Why bytes are refused, explained for a reader.
#![tactic(auto)]

ghost use Rattle.std.specs.Prelude.{◌≡◌};
ghost use Rattle.dbus_c.specs.Checking.{IsChecked};
ghost use Rattle.dbus_c.specs.Explaining.{IsExplainedIn, IsRefusedAt, checked_answer};
ghost use Rattle.dbus_c.specs.Explaining.{explained_told, part_told, text_told};
ghost use Rattle.dbus_c.specs.GivenLimits.{limits_of};
ghost use Rattle.dbus_c.specs.Outcomes.{IsTold};
ghost use Rattle.dbus_explain.specs.declared.message.Refused.{Refused as RefusedBytes};
ghost use Rattle.dbus_header.specs.MessageOutcomes.{IsRefused};
ghost use Rattle.dbus_value_model.specs.declared.fault.Fault.{Fault as FaultOf};

use crate::answers::{NO_VALUE, PARTIAL};
use crate::checking::{Checked, check_all};
use crate::given_limits::{WireLimits, given_limits};
use crate::parts::{TextPlace, no_place};
use crate::written::end_text;
use dbus_check::Check;
use dbus_explain::{Explanation, LinesPart, Refused, StatedText, explain_message};
use dbus_room::Room;

/// Which message of its input bytes begin with.
#[repr(C)]
#[derive(Clone, Copy)]
pub struct InputPlace {
    /// Its number, from 1.
    pub number: u64,
    /// Where it begins, in bytes from the first.
    pub offset: u64,
}

/// Where the parts of an explanation are. A number over 2^64 - 1 is told as that.
#[repr(C)]
#[derive(Clone, Copy)]
pub struct Explained {
    /// The number of bytes of its text, without the 0 behind it.
    pub length: u64,
    /// In the text: the name of the place of the fault, such as `body[1]["Title"].value`.
    pub name: TextPlace,
    /// In the text: the head of the message, as far as it is whole before the place. There is none
    /// if the message type is not.
    pub head: TextPlace,
    /// In the text: what has to be at the place, with its section of the D-Bus Specification.
    pub rule: TextPlace,
    /// In the message: the text that the place is in, behind its length, if it is in one; its
    /// length is the one that is stated, and may reach past the bytes.
    pub text: TextPlace,
}

/// Writes why the bytes begin with no message within the limits to the start of `out`, and a 0
/// after it, as much of this as it has room for: the lines that `dbus-wire check --explain` writes
/// of a message at this place of its input, with more of the bytes behind the fault. Writes to
/// `explained` where their parts are.
///
/// [`crate::WHOLE`] if there is room for the lines and the 0, and [`crate::NO_ROOM`] if there is not. If the
/// bytes begin with a message, [`NO_VALUE`], and [`PARTIAL`] if they show no fault yet; then `out`
/// and `explained` stay as they are. `told` has what [`crate::dbus_wire_check`] reports.
///
/// It allocates nothing. The time is that of checking the bytes before the fault, for each
/// container that the fault is in. D-Bus Specification, "Message Protocol".
#[unsafe(no_mangle)]
pub extern "C" fn dbus_wire_explain(
    bytes: &[u8],
    limits: &WireLimits,
    place: &InputPlace,
    out: &mut [u8],
    explained: &mut Explained,
    told: &mut Checked,
) -> u32
    ensures checked { IsChecked (limits_of limits.now) bytes.now (checked_answer result) told.new }
    ensures refused { (fault : FaultOf) → IsRefused (limits_of limits.now) bytes.now fault →
        IsTold result }
    ensures explained { IsTold result → (refused : RefusedBytes) ×
        IsRefusedAt (limits_of limits.now) bytes.now place.now refused ×
        IsExplainedIn refused out.old out.new explained.new result }
    ensures unchanged { (IsTold result → ⊥) →
        (out.new ≡ out.old) × (explained.new ≡ explained.old) }
{
    match check_all(bytes, given_limits(limits), told) {
        Check::Done(_) => NO_VALUE,
        Check::Partial => PARTIAL,
        Check::Refused(fault) => {
            let refused = Refused {
                bytes,
                fault,
                number: place.number,
                offset: place.offset,
            };
            write_explained(&refused, out, explained)
        }
    }
}

// Writes the lines, and where their parts are. Whether there is room for them and the 0.
fn write_explained(refused: &Refused, out: &mut [u8], explained: &mut Explained) -> u32
    ensures { IsExplainedIn refused.now out.old out.new explained.new result }
{
    let mut room = Room::new(out);
    let parts = explain_message(&mut room, refused);
    *explained = explained_told(parts);
    end_text(&mut room)
}

// Where the parts of an explanation are, in numbers.
fn explained_told(parts: Explanation) -> Explained
    ensures { result ≡ explained_told parts }
{
    Explained {
        length: parts.length,
        name: part_told(Some(parts.name)),
        head: part_told(parts.head),
        rule: part_told(Some(parts.rule)),
        text: text_told(parts.text),
    }
}

// Where a part is in the text, if it is there.
fn part_told(part: Option<LinesPart>) -> TextPlace
    ensures { result ≡ part_told part }
{
    match part {
        Some(part) => TextPlace {
            offset: part.start,
            length: part.end.saturating_sub(part.start),
            is_there: 1,
        },
        None => no_place(),
    }
}

// Where a text of the message is, if it is there.
fn text_told(text: Option<StatedText>) -> TextPlace
    ensures { result ≡ text_told text }
{
    match text {
        Some(text) => TextPlace {
            offset: text.start as u64,
            length: u64::from(text.stated),
            is_there: 1,
        },
        None => no_place(),
    }
}
