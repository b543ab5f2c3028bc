//! A message as one line for a reader.
#![tactic(auto)]

ghost use Rattle.std.specs.Prelude.{◌≡◌, ℕ, List, length, take, drop, MatchOption, option_map};
ghost use Rattle.dbus_header.specs.MessageOutcomes.{IsWhole};
ghost use Rattle.dbus_list.specs.Lines.{IsLine};
ghost use Rattle.dbus_list.specs.Pairs.{call_seen};
ghost use Rattle.dbus_list.specs.Told.{told_seen};
ghost use Rattle.dbus_message_model.specs.Messages.{MessageTree};
ghost use Rattle.dbus_validate.specs.Validating.{IsValidatedWhole};
ghost use Rattle.dbus_value_model.specs.Specification.{specification};
ghost use Rattle.dbus_value_model.specs.declared.order.Order.{Order};
ghost use Rattle.dbus_page.specs.Beside.{AreTexts, HasText, call_given, if_any, told_given};
ghost use Rattle.dbus_page.specs.Places.{IsMessage, line_place};
ghost use Rattle.dbus_page.specs.Written.{IsNoText, IsWritten};

use crate::answers::NO_TEXT;
use crate::json_line::{PagePlace, line_place};
use crate::room::end;
use crate::time::time_if;
use dbus_call_lines::time_between;
use dbus_list::{AnsweredCall, Beside, write_line};
use dbus_room::Room;
use dbus_validate::{Validated, Whole, validate};
use dbus_value_model::Limits;

/// What the line of a message tells beside what the message says. Its texts are given one after
/// another.
#[repr(C)]
#[derive(Drop)]
pub struct PageBeside {
    /// The number of the call that the message answers, counted from 1; 0 if it answers none that
    /// is known.
    pub call: u64,
    /// When the call was captured, in nanoseconds since 1970 began in UTC, if that is known.
    pub call_time: u64,
    /// 0 if it is not known, else 1.
    pub has_call_time: u64,
    /// The number of bytes of the first text: the call's MEMBER, or `-`.
    pub member: u64,
    /// Of the second: the name by which the connection of the SENDER is known; 0 if it is by none.
    pub sender: u64,
    /// Of the third: the same of the DESTINATION.
    pub destination: u64,
    /// The most cells of the line; 0 for as many as it takes.
    pub width: u16,
}

// The text of this length that the bytes begin with, if they do, and the bytes after it.
fn first_text(bytes: &[u8], length: u64) -> Option<(&str, &[u8])>
    ensures { MatchOption result (HasText length bytes.now → ⊥) (λ t. HasText length bytes.now ×
        (t.0.now ≡ take length bytes.now) × (t.1.now ≡ drop length bytes.now)) }
{
    let (text, rest) = bytes.split_at_checked(length as usize)?;
    match str::from_utf8(text) {
        Ok(text) => Some((text, rest)),
        Err(_) => None,
    }
}

// The text, if it has any bytes.
fn if_any(text: &str) -> Option<&str>
    ensures { option_map (λ t. t.now) result ≡ if_any text.now }
{
    if text.is_empty() { None } else { Some(text) }
}

// The call that the message answers, whose member this is, if it answers one.
fn call_given<'a>(
    place: &PagePlace,
    beside: &PageBeside,
    member: &'a str,
) -> Option<AnsweredCall<'a>>
    ensures { (texts : List ℕ) → member.now ≡ take beside.now.member texts →
        option_map call_seen result ≡ call_given place.now beside.now texts }
{
    if beside.call == 0 {
        return None;
    }
    Some(AnsweredCall {
        number: beside.call,
        member,
        took: time_between(
            time_if(beside.has_call_time, beside.call_time),
            time_if(place.has_time, place.time),
        ),
    })
}

// What the line tells beside its message, if the texts are there.
fn told_given<'a>(place: &PagePlace, beside: &PageBeside, texts: &'a [u8]) -> Option<Beside<'a>>
    ensures { MatchOption result (AreTexts beside.now texts.now → ⊥) (λ told.
        AreTexts beside.now texts.now ×
        (told_seen told ≡ told_given place.now beside.now texts.now)) }
{
    let (member, rest) = first_text(texts, beside.member)?;
    let (sender, rest) = first_text(rest, beside.sender)?;
    let (destination, _rest) = first_text(rest, beside.destination)?;
    Some(Beside {
        answered: call_given(place, beside, member),
        sender: if_any(sender),
        destination: if_any(destination),
    })
}

// The bytes as a message, if they are one, all of them.
fn whole_message(bytes: &[u8]) -> Option<Validated>
    ensures { MatchOption result (IsMessage bytes.now → ⊥) (λ validated.
        IsValidatedWhole specification bytes.now validated) }
{
    let validated = validate(bytes, Limits::specification())?;
    if validated.length == bytes.len() {
        Some(validated)
    } else {
        None
    }
}

/// Writes the line of the message within the limits of the specification that the bytes are, all of
/// them, to the start of the room, and its number of bytes to `count`: the line that
/// `dbus-wire list` writes of a message at this place, which tells this beside it.
///
/// [`crate::WHOLE`] if there is room for the line. [`crate::NO_ROOM`] if there is not: then the
/// room has as much of the line as it can. [`NO_TEXT`] if the bytes are no message, or `texts` has
/// not the three texts in UTF-8; then nothing is written. It allocates nothing. D-Bus
/// Specification, "Message Types" and "Header Fields".
#[unsafe(no_mangle)]
pub extern "C" fn dbus_page_line(
    bytes: &[u8],
    place: &PagePlace,
    beside: &PageBeside,
    texts: &[u8],
    room: &mut [u8],
    count: &mut u64,
) -> u32
    ensures written { AreTexts beside.now texts.now → (order : Order) (m : MessageTree) →
        IsWhole specification bytes.now order m (length bytes.now) →
        (line : List ℕ) × IsLine beside.now.width (line_place place.now)
        (told_given place.now beside.now texts.now) order m line ×
        IsWritten line room.old room.new count.new result }
    ensures no_message { (IsMessage bytes.now → ⊥) → IsNoText room.old room.new count.new result }
    ensures no_texts { (AreTexts beside.now texts.now → ⊥) → IsNoText room.old room.new count.new result }
{
    *count = 0;
    let Some(told) = told_given(place, beside, texts) else {
        return NO_TEXT;
    };
    let Some(validated) = whole_message(bytes) else {
        return NO_TEXT;
    };
    let whole = Whole {
        bytes,
        limits: Limits::specification(),
        validated: &validated,
    };
    let mut draft = Room::new(room);
    write_line(&mut draft, beside.width, &whole, line_place(place), told);
    end(&draft, count)
}
