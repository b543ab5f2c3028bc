//! The name of the reason why bytes begin with no message.
#![tactic(auto)]

ghost use Rattle.std.specs.Prelude.{◌≡◌, ℕ};
ghost use Rattle.dbus_header.specs.MessageOutcomes.{IsWhole};
ghost use Rattle.dbus_header.specs.NoMessage.{BeginsWithNone, IsFaultAtEnd};
ghost use Rattle.dbus_message_model.specs.Messages.{MessageTree};
ghost use Rattle.dbus_value_model.specs.FaultTexts.{reason_text};
ghost use Rattle.dbus_value_model.specs.Specification.{specification};
ghost use Rattle.dbus_value_model.specs.declared.fault.Fault.{Fault};
ghost use Rattle.dbus_value_model.specs.declared.order.Order.{Order};
ghost use Rattle.dbus_page.specs.Written.{IsNoText, IsWritten};

use crate::answers::NO_TEXT;
use crate::room::end;
use dbus_check::fault_at_end;
use dbus_room::Room;
use dbus_show::{Draft, write_integer};
use dbus_validate::validate;
use dbus_value_model::{Limits, Reason};

/// Writes the name of the reason why the bytes, which are all that there is, begin with no message
/// within the limits of the specification, to the start of the room, and its number of bytes to
/// `count`: the `NAME` of `refused at P: NAME`, as `dbus-wire check` writes it.
///
/// [`crate::WHOLE`] if there is room for the name. [`crate::NO_ROOM`] if there is not: then the
/// room has as much of it as it can. [`NO_TEXT`] if the bytes begin with a message; then nothing is
/// written. It allocates nothing. D-Bus Specification, "Message Protocol".
#[unsafe(no_mangle)]
pub extern "C" fn dbus_page_reason(bytes: &[u8], room: &mut [u8], count: &mut u64) -> u32
    ensures written { BeginsWithNone specification bytes.now →
        (fault : Fault) × IsFaultAtEnd specification bytes.now fault ×
        IsWritten (reason_text fault.reason) room.old room.new count.new result }
    ensures none { (order : Order) (m : MessageTree) (n : ℕ) →
        IsWhole specification bytes.now order m n →
        IsNoText room.old room.new count.new result }
{
    let limits = Limits::specification();
    if validate(bytes, limits).is_some() {
        *count = 0;
        return NO_TEXT;
    }
    let fault = fault_at_end(bytes, limits);
    let mut draft = Room::new(room);
    write_reason(&mut draft, fault.reason);
    end(&draft, count)
}

// Appends the name of a reason, as its `Display` does.
fn write_reason<D: Draft>(draft: &mut D, reason: Reason)
    ensures { D.gains draft.old (reason_text reason) draft.new }
{
    match reason {
        Reason::FieldMissing(code) => {
            draft.push_str("FieldMissing(");
            write_integer(draft, code);
            draft.push_str(")");
        }
        Reason::ByteOrder => draft.push_str("ByteOrder"),
        Reason::Kind => draft.push_str("Kind"),
        Reason::Version => draft.push_str("Version"),
        Reason::ZeroSerial => draft.push_str("ZeroSerial"),
        Reason::ArrayTooLong => draft.push_str("ArrayTooLong"),
        Reason::MessageTooLong => draft.push_str("MessageTooLong"),
        Reason::Padding => draft.push_str("Padding"),
        Reason::Overrun => draft.push_str("Overrun"),
        Reason::Bool => draft.push_str("Bool"),
        Reason::Text => draft.push_str("Text"),
        Reason::Nul => draft.push_str("Nul"),
        Reason::Path => draft.push_str("Path"),
        Reason::Signature => draft.push_str("Signature"),
        Reason::Interface => draft.push_str("Interface"),
        Reason::Member => draft.push_str("Member"),
        Reason::ErrorName => draft.push_str("ErrorName"),
        Reason::BusName => draft.push_str("BusName"),
        Reason::NameTooLong => draft.push_str("NameTooLong"),
        Reason::FieldCode => draft.push_str("FieldCode"),
        Reason::FieldTwice => draft.push_str("FieldTwice"),
        Reason::FieldType => draft.push_str("FieldType"),
        Reason::Trailing => draft.push_str("Trailing"),
        Reason::TooDeep => draft.push_str("TooDeep"),
        Reason::Truncated => draft.push_str("Truncated"),
        Reason::FdIndex => draft.push_str("FdIndex"),
        Reason::NotYet => draft.push_str("NotYet"),
    }
}
