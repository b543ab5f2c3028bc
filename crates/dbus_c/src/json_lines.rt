//! A message as a line of JSON.
#![tactic(auto)]

ghost use Rattle.std.specs.Prelude.{◌≡◌, ℕ, List, length};
ghost use Rattle.dbus_c.specs.Checking.{IsChecked};
ghost use Rattle.dbus_c.specs.GivenLimits.{limits_of};
ghost use Rattle.dbus_c.specs.JsonLines.{line_place};
ghost use Rattle.dbus_c.specs.Outcomes.{IsTold, with_room};
ghost use Rattle.dbus_c.specs.Written.{IsWritten};
ghost use Rattle.dbus_header.specs.MessageOutcomes.{IsWhole};
ghost use Rattle.dbus_json.specs.declared.integers.Integers.TheVariants.{Exact};
ghost use Rattle.dbus_json.specs.JsonMessages.{IsJsonLine};
ghost use Rattle.dbus_message_model.specs.Messages.{MessageTree};
ghost use Rattle.dbus_room.specs.Counting.{counted};
ghost use Rattle.dbus_room.specs.Rooms.{Gains};
ghost use Rattle.dbus_validate.specs.Validating.{IsValidated};
ghost use Rattle.dbus_value_model.specs.declared.order.Order.{Order};

use crate::checking::{Checked, first_validated};
use crate::given_limits::{WireLimits, given_limits};
use crate::written::end_text;
use dbus_json::{Integers, LinePlace, write_json};
use dbus_room::{Counted, Room};
use dbus_validate::Validated;
use dbus_value_model::Limits;

/// What a line of JSON says of where its message stands. It is written as it is given.
#[repr(C)]
#[derive(Drop)]
pub struct WireLinePlace {
    /// The number of the message, counted from 1.
    pub number: u64,
    /// Where it begins, in bytes from the start of the input.
    pub offset: u64,
    /// When it was captured, in nanoseconds since 1970 began in UTC, if that is known.
    pub time: u64,
    /// 0 if it is not known.
    pub has_time: u64,
}

// The same, as a line takes it.
fn line_place(place: &WireLinePlace) -> LinePlace
    ensures { result ≡ line_place place.now }
{
    LinePlace {
        number: place.number,
        offset: place.offset,
        time: if place.has_time == 0 {
            None
        } else {
            Some(place.time)
        },
    }
}

/// Writes the message within the limits that the bytes begin with as a line of JSON, which ends in
/// a line feed, to the start of `out`, and a 0 after it: the line that `dbus-wire json` writes of a
/// message at this place. Writes to `count` how many bytes the line has without the 0, or 2^64 - 1
/// if they are more.
///
/// [`crate::WHOLE`] if `out` has room for the line and the 0, else [`crate::NO_ROOM`]: then it has as much of
/// them as it can. What is behind them stays as it was. [`crate::PARTIAL`] or [`crate::REFUSED`] if
/// the bytes begin with no message; then `out` and `count` stay as they are. `told` has what
/// [`crate::dbus_wire_check`] reports.
///
/// It allocates nothing. RFC 8259; D-Bus Specification, "Message Format" and "Header Fields".
#[unsafe(no_mangle)]
pub extern "C" fn dbus_wire_json(
    bytes: &[u8],
    limits: &WireLimits,
    place: &WireLinePlace,
    out: &mut [u8],
    count: &mut u64,
    told: &mut Checked,
) -> u32
    ensures checked { IsChecked (limits_of limits.now) bytes.now (with_room result) told.new }
    ensures written { (order : Order) (m : MessageTree) (n : ℕ) →
        IsWhole (limits_of limits.now) bytes.now order m n →
        (line : List ℕ) × IsJsonLine Exact order m (line_place place.now) line ×
        IsWritten line out.old out.new result × (count.new ≡ counted (length line)) }
    ensures unchanged { (IsTold result → ⊥) → (out.new ≡ out.old) × (count.new ≡ count.old) }
{
    match first_validated(bytes, limits, told) {
        Ok(validated) => {
            let mut room = Room::new(out);
            *count = write_line(&mut room, bytes, given_limits(limits), &validated, place);
            end_text(&mut room)
        }
        Err(answer) => answer,
    }
}

// Appends the line of a message that was validated to a room, and returns how many bytes it has.
fn write_line(
    room: &mut Room<'_>,
    bytes: &[u8],
    limits: Limits,
    validated: &Validated,
    place: &WireLinePlace,
) -> u64
    requires validated { IsValidated limits bytes.now validated.now }
    ensures { (m : MessageTree) →
        IsWhole limits bytes.now validated.now.order m validated.now.length →
        (line : List ℕ) × IsJsonLine Exact validated.now.order m (line_place place.now) line ×
        Gains room.old line room.new × (result ≡ counted (length line)) }
{
    let mut draft = Counted {
        draft: room,
        len: 0,
    };
    write_json(
        &mut draft,
        bytes,
        limits,
        validated,
        line_place(place),
        Integers::Exact,
    );
    draft.len
}
