//! Where the header fields of a message and the values of its body stand in its bytes.
#![tactic(auto)]

ghost use Rattle.std.specs.Prelude.{◌≡◌, ℕ, length};
ghost use Rattle.dbus_header.specs.MessageOutcomes.{IsWhole};
ghost use Rattle.dbus_header.specs.NoMessage.{BeginsWithNone};
ghost use Rattle.dbus_message_model.specs.Messages.{MessageTree};
ghost use Rattle.dbus_validate.specs.Validating.{IsWholeOf, WasValidated};
ghost use Rattle.dbus_value_model.specs.Specification.{specification};
ghost use Rattle.dbus_value_model.specs.declared.order.Order.{Order};
ghost use Rattle.dbus_page.specs.Items.{AreItems, AreNoItems, room_answer};

use crate::answers::{NO_ROOM, NO_TEXT, WHOLE};
use dbus_flatten::{FlatItem, PartsCount, flatten_parts};
use dbus_validate::{Whole, validate};
use dbus_value_model::Limits;
use dbus_walk::fields_end;

/// Writes items of the message within the limits of the specification that the bytes begin with to
/// the start of `items`, as many as there is room for, and how many there are to `count`: those of
/// its header fields, of each a struct, its code, the variant and the value that this holds, and
/// then those of the values of its body. So a page can show which bytes are of which of them.
///
/// [`WHOLE`] if there is room for all, else [`NO_ROOM`]. [`NO_TEXT`] if the bytes begin with no
/// message; then nothing is written. It allocates nothing. D-Bus Specification, "Header Fields" and
/// "Message Format".
#[unsafe(no_mangle)]
pub extern "C" fn dbus_page_items(
    bytes: &[u8],
    items: &mut [FlatItem],
    count: &mut PartsCount,
) -> u32
    ensures written { (order : Order) (m : MessageTree) (n : ℕ) →
        IsWhole specification bytes.now order m n →
        AreItems order m items.old items.new count.new }
    ensures answered { (order : Order) (m : MessageTree) (n : ℕ) →
        IsWhole specification bytes.now order m n → result ≡ room_answer (length items.old) count.new }
    ensures none { BeginsWithNone specification bytes.now →
        AreNoItems items.old items.new count.old count.new result }
{
    let limits = Limits::specification();
    let Some(validated) = validate(bytes, limits) else {
        return NO_TEXT;
    };
    let room = items.len();
    let whole = Whole {
        bytes,
        limits,
        validated: &validated,
    };
    *count = write_items(&whole, items);
    room_answer(room, count)
}

// Whether there is room for all items.
fn room_answer(room: usize, count: &PartsCount) -> u32
    ensures { result ≡ room_answer room count.now }
{
    if count.all <= room as u64 {
        WHOLE
    } else {
        NO_ROOM
    }
}

// Writes the items of a message, and returns how many there are.
fn write_items(whole: &Whole<'_>, items: &mut [FlatItem]) -> PartsCount
    requires validated { WasValidated whole.now }
    ensures { (m : MessageTree) → IsWholeOf whole.now m →
        AreItems whole.now.validated.now.order m items.old items.new result }
{
    let mut table = [0; 255];
    let source = whole.source();
    let end = fields_end(&source);
    let whole = *whole;
    let body = whole.body(&mut table);
    flatten_parts(&source, whole.limits.depth, end, &body, 0, items)
}
