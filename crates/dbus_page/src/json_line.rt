//! A message as a line of JSON.
#![tactic(auto)]

ghost use Rattle.std.specs.Prelude.{◌≡◌, ℕ, List};
ghost use Rattle.dbus_header.specs.MessageOutcomes.{IsWhole};
ghost use Rattle.dbus_header.specs.NoMessage.{BeginsWithNone};
ghost use Rattle.dbus_json.specs.declared.integers.Integers.TheVariants.{Exact};
ghost use Rattle.dbus_json.specs.JsonMessages.{IsJsonLine};
ghost use Rattle.dbus_message_model.specs.Messages.{MessageTree};
ghost use Rattle.dbus_value_model.specs.Specification.{specification};
ghost use Rattle.dbus_value_model.specs.declared.order.Order.{Order};
ghost use Rattle.dbus_page.specs.Places.{line_place};
ghost use Rattle.dbus_page.specs.Written.{IsWritten, IsNoText};

use crate::answers::NO_TEXT;
use crate::room::end;
use crate::time::time_if;
use dbus_json::{Integers, LinePlace, write_json};
use dbus_room::Room;
use dbus_validate::validate;
use dbus_value_model::Limits;

/// What a line says of where its message stands.
#[repr(C)]
#[derive(Drop)]
pub struct PagePlace {
    /// The number of the message, counted from 1.
    pub number: u64,
    /// Where it begins, in bytes from the start of the input.
    pub offset: u64,
    /// When it was captured, in nanoseconds since 1970 began in UTC, if that is known.
    pub time: u64,
    /// 0 if it is not known, else 1.
    pub has_time: u64,
}

/// The same, as a line takes it.
pub(crate) fn line_place(place: &PagePlace) -> LinePlace
    ensures { result ≡ line_place place.now }
{
    LinePlace {
        number: place.number,
        offset: place.offset,
        time: time_if(place.has_time, place.time),
    }
}

/// Writes the message within the limits of the specification that the bytes begin with as a line of
/// JSON, which ends in a line feed, to the start of the room, and its number of bytes to `count`:
/// the line that `dbus-wire json` writes of a message at this place.
///
/// [`crate::WHOLE`] if there is room for the line. [`crate::NO_ROOM`] if there is not: then the
/// room has as much of the line as it can. [`NO_TEXT`] if the bytes begin with no message; then
/// nothing is written. It allocates nothing. RFC 8259; D-Bus Specification, "Message Format".
#[unsafe(no_mangle)]
pub extern "C" fn dbus_page_json(
    bytes: &[u8],
    place: &PagePlace,
    room: &mut [u8],
    count: &mut u64,
) -> u32
    ensures written { (order : Order) (m : MessageTree) (n : ℕ) →
        IsWhole specification bytes.now order m n →
        (text : List ℕ) × IsJsonLine Exact order m (line_place place.now) text ×
        IsWritten text room.old room.new count.new result }
    ensures none { BeginsWithNone specification bytes.now →
        IsNoText room.old room.new count.new result }
{
    let limits = Limits::specification();
    match validate(bytes, limits) {
        Some(validated) => {
            let mut draft = Room::new(room);
            let place = line_place(place);
            write_json(
                &mut draft,
                bytes,
                limits,
                &validated,
                place,
                Integers::Exact,
            );
            end(&draft, count)
        }
        None => {
            *count = 0;
            NO_TEXT
        }
    }
}
