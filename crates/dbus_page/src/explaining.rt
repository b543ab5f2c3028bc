//! Why bytes begin with no message.
#![tactic(auto)]

ghost use Rattle.std.specs.Prelude.{◌≡◌, ℕ, List};
ghost use Rattle.dbus_explain.specs.Explained.{IsExplained};
ghost use Rattle.dbus_explain.specs.declared.message.Refused.{Refused};
ghost use Rattle.dbus_header.specs.MessageOutcomes.{IsWhole};
ghost use Rattle.dbus_header.specs.NoMessage.{BeginsWithNone};
ghost use Rattle.dbus_message_model.specs.Messages.{MessageTree};
ghost use Rattle.dbus_value_model.specs.Specification.{specification};
ghost use Rattle.dbus_value_model.specs.declared.order.Order.{Order};
ghost use Rattle.dbus_page.specs.Places.{IsRefusedAt};
ghost use Rattle.dbus_page.specs.Written.{IsWritten, IsNoText};

use crate::answers::NO_TEXT;
use crate::room::end;
use dbus_check::fault_at_end;
use dbus_explain::{Refused, explain_message};
use dbus_room::Room;
use dbus_validate::validate;
use dbus_value_model::Limits;

/// Writes why the bytes, which are all that there is, begin with no message within the limits of
/// the specification, to the start of the room, and the number of bytes of that to `count`: the
/// lines that `dbus-wire check --explain` writes of a message of this number and offset, with more
/// of the bytes behind the fault, which is that of [`crate::dbus_page_next`].
///
/// [`crate::WHOLE`] if there is room for the lines. [`crate::NO_ROOM`] if there is not: then the
/// room has as much of them as it can. [`NO_TEXT`] if the bytes begin with a message; then nothing
/// is written. It allocates nothing. D-Bus Specification, "Message Protocol".
#[unsafe(no_mangle)]
pub extern "C" fn dbus_page_explain(
    bytes: &[u8],
    number: u64,
    offset: u64,
    room: &mut [u8],
    count: &mut u64,
) -> u32
    ensures written { BeginsWithNone specification bytes.now →
        (refused : Refused) × IsRefusedAt bytes.now number offset refused ×
        ((text : List ℕ) × IsExplained refused text ×
        IsWritten text room.old room.new count.new result) }
    ensures none { (order : Order) (m : MessageTree) (n : ℕ) →
        IsWhole specification bytes.now order m n →
        IsNoText room.old room.new count.new result }
{
    let limits = Limits::specification();
    if validate(bytes, limits).is_some() {
        *count = 0;
        return NO_TEXT;
    }
    let refused = Refused {
        bytes,
        fault: fault_at_end(bytes, limits),
        number,
        offset,
    };
    let mut draft = Room::new(room);
    explain_message(&mut draft, &refused);
    end(&draft, count)
}
