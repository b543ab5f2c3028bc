//! Messages as lines for a reader, from their bytes. D-Bus Specification, "Message Format".
#![tactic(auto)]

ghost use Rattle.dbus_value_model.specs.declared.order.Order.{Order};
ghost use Rattle.dbus_message_model.specs.Messages.{MessageTree};
ghost use Rattle.dbus_validate.specs.Validating.{IsValidatedWhole, IsWholeOf};
ghost use Rattle.dbus_value_text.specs.Gaining.{GainsSome};
ghost use Rattle.dbus_view.specs.Views.{Views};
ghost use Rattle.dbus_list.specs.Lines.{IsLine, IsListed, columns, time_part};
ghost use Rattle.dbus_list.specs.Told.{told_seen};

use crate::about::write_about;
use crate::beside::Beside;
use crate::brief::Brief;
use crate::columns::{write_clock, write_right};
use crate::connections::write_column;
use crate::cut_draft::CutDraft;
use crate::joined_draft::JoinedDraft;
use crate::line_draft::LineDraft;
use crate::names::{destination_of, sender_of};
use dbus_json::LinePlace;
use dbus_show::Draft;
use dbus_validate::Whole;
use dbus_value_text::write_body;
use dbus_view::MessageView;

/// The cells of a message's number, if it has no more digits.
const NUMBER_CELLS: usize = 4;

/// The cells of its size in bytes, if that has no more digits.
const SIZE_CELLS: usize = 5;

/// Appends a time, if there is one.
fn write_time<D: Draft>(draft: &mut D, time: Option<u64>)
    ensures { D.gains draft.old (time_part time) draft.new }
{
    if let Some(nanoseconds) = time {
        write_clock(draft, nanoseconds);
        draft.push_code(b' ');
    }
}

/// Appends the columns of the line of the message of the view.
fn write_columns<D: Draft>(
    draft: &mut D,
    line: u16,
    place: LinePlace,
    beside: Beside<'_>,
    view: &MessageView,
)
    ensures { (order : Order) (m : MessageTree) → Views view.now order m →
        D.gains draft.old (columns line place (told_seen beside.entry) order m) draft.new }
{
    write_right(draft, place.number, NUMBER_CELLS);
    draft.push_code(b' ');
    write_time(draft, place.time);
    write_right(draft, view.bytes().len() as u64, SIZE_CELLS);
    draft.push_code(b' ');
    write_column(draft, line, sender_of(view), beside.sender);
    draft.push_str(" > ");
    write_column(draft, line, destination_of(view), beside.destination);
    draft.push_code(b' ');
}

/// Appends the text of a message, of which a line has what fits.
fn write_text<D: Draft>(
    draft: &mut D,
    line: u16,
    whole: &Whole<'_>,
    place: LinePlace,
    beside: Beside<'_>,
)
    requires { IsValidatedWhole whole.now.limits whole.now.bytes.now whole.now.validated.now }
    ensures { (m : MessageTree) → IsWholeOf whole.now m →
        GainsSome D.gains draft.old
        (IsListed line place (told_seen beside.entry) whole.now.validated.now.order m)
        draft.new }
{
    let view = MessageView::of_validated(whole.bytes, whole.limits, *whole.validated);
    write_columns(draft, line, place, beside, &view);
    let types = whole.validated.fields.signature(whole.bytes);
    write_about(draft, line, beside.answered, &view, types);
    write_body::<Brief, D>(draft, whole, " ", ", ");
}

/// Appends it with its pieces joined.
fn write_joined<D: Draft>(
    draft: &mut D,
    line: u16,
    whole: &Whole<'_>,
    place: LinePlace,
    beside: Beside<'_>,
)
    requires { IsValidatedWhole whole.now.limits whole.now.bytes.now whole.now.validated.now }
    ensures { (m : MessageTree) → IsWholeOf whole.now m →
        GainsSome D.gains draft.old
        (IsListed line place (told_seen beside.entry) whole.now.validated.now.order m)
        draft.new }
{
    let mut joined = JoinedDraft::new(draft);
    write_text(&mut joined, line, whole, place, beside);
    joined.finish();
}

/// Appends a validated message as one line for a reader, which ends in a line feed. `beside` is
/// what is known of the message and its line tells too.
///
/// The line has `width` cells of a terminal at most, or for 0 as many as it takes: what does not
/// fit is cut, and `~` is in the last cell. It is the message's number; its time of day in UTC, if
/// one is given; its size in bytes; its sender and destination, each with the name by which it is
/// known in brackets, if that fits; for a call and a signal its member with the types of its
/// values, for a reply the number and the member of the call, and how long it took, or if the call
/// is not known its serial; and its values. Names are shortened by `~` to their last elements. No
/// message is built from the bytes, and only the draft allocates.
///
/// ```text
///   25 08:15:59.178   146 :1.3         > ~example.Lab ~example.Lab.Quick(s) "world"
///   26 08:15:59.179    81 :1.2(~Lab)   > :1.3         reply to #25 Quick 0.514 ms "Hello world"
/// ```
///
/// D-Bus Specification, "Message Types" and "Header Fields".
pub fn write_line<D: Draft>(
    draft: &mut D,
    width: u16,
    whole: &Whole<'_>,
    place: LinePlace,
    beside: Beside<'_>,
)
    requires { IsValidatedWhole whole.now.limits whole.now.bytes.now whole.now.validated.now }
    ensures { (m : MessageTree) → IsWholeOf whole.now m →
        GainsSome D.gains draft.old
        (IsLine width place (told_seen beside.entry) whole.now.validated.now.order m)
        draft.new }
{
    let mut line = CutDraft::new(draft, width);
    write_joined(
        &mut LineDraft { cut: &mut line },
        width,
        whole,
        place,
        beside,
    );
    line.finish();
    draft.push_code(b'\n');
}
