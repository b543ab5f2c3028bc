//! A message as text, as a line of JSON, and as a line for a reader.
ghost use Rattle.std.specs.Prelude.{◌≡◌, ℕ, List, length};
ghost use Rattle.dbus_value_model.specs.declared.order.Order.{Order};
ghost use Rattle.dbus_message_model.specs.Messages.{MessageTree};
ghost use Rattle.dbus_header.specs.MessageOutcomes.{IsWhole};
ghost use Rattle.dbus_validate.specs.Validating.{IsValidatedWhole};
ghost use Rattle.dbus_json.specs.JsonIntegers.{integers_of};
ghost use Rattle.dbus_json.specs.JsonMessages.{IsJsonLine};
ghost use Rattle.cli_run.specs.Output.{line_place, seen_if, shown_text, time_text, told_place};

use crate::place::{Lent, MessagePlace};
use dbus_json::{Integers, LinePlace, write_json, write_seconds};
use dbus_show::{Draft, Visible};
use dbus_show_view::write_message;

// Appends the time that stands before the text of a message, if it has one.
fn write_time<D: Draft>(draft: &mut D, time: Option<u64>)
    ensures { D.gains draft.old (time_text time) draft.new }
{
    if let Some(nanoseconds) = time {
        write_seconds(draft, nanoseconds);
        draft.push_code(b' ');
    }
}

// Appends the text of the message, which has this place, after its time if it has one.
fn write_shown<D: Draft>(draft: &mut D, lent: &Lent<'_>, place: MessagePlace)
    requires { IsValidatedWhole lent.now.limits lent.now.bytes.now lent.now.validated }
    ensures { (order : Order) (m : MessageTree) →
        IsWhole lent.now.limits lent.now.bytes.now order m (length lent.now.bytes.now) →
        D.gains draft.old (shown_text order m place) draft.new }
{
    write_time(draft, place.time);
    write_message(
        draft,
        lent.bytes,
        lent.limits,
        &lent.validated,
        place.number,
    );
}

/// Appends the text of the message, after its time if that is wanted and it has one, with its hidden
/// characters escaped if that is wanted.
pub(crate) fn show<D: Draft>(draft: &mut D, lent: &Lent<'_>, times: bool, escapes: bool)
    requires { IsValidatedWhole lent.now.limits lent.now.bytes.now lent.now.validated }
    ensures { (order : Order) (m : MessageTree) →
        IsWhole lent.now.limits lent.now.bytes.now order m (length lent.now.bytes.now) →
        D.gains draft.old
        (seen_if escapes (shown_text order m (told_place times lent.now.place))) draft.new }
{
    let place = lent.place.told(times);
    if escapes {
        write_shown(&mut Visible { draft }, lent, place);
    } else {
        write_shown(draft, lent, place);
    }
}

/// What a line says of where its message stands.
pub(crate) fn line_place(place: MessagePlace) -> LinePlace
    ensures { result ≡ line_place place }
{
    LinePlace {
        number: place.number,
        offset: place.offset,
        time: place.time,
    }
}

/// Appends the line of JSON of the message, with its time if that is wanted and it has one, and with
/// safe integers or not.
pub(crate) fn write_json_line<D: Draft>(draft: &mut D, lent: &Lent<'_>, times: bool, safe: bool)
    requires { IsValidatedWhole lent.now.limits lent.now.bytes.now lent.now.validated }
    ensures { (order : Order) (m : MessageTree) →
        IsWhole lent.now.limits lent.now.bytes.now order m (length lent.now.bytes.now) →
        (text : List ℕ) ×
        IsJsonLine (integers_of safe) order m (line_place (told_place times lent.now.place)) text ×
        D.gains draft.old text draft.new }
{
    write_json(
        draft,
        lent.bytes,
        lent.limits,
        &lent.validated,
        line_place(lent.place.told(times)),
        Integers::of(safe),
    );
}
