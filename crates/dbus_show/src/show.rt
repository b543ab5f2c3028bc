//! The line of a message's header as far as its fields.
#![tactic(auto)]

ghost use Rattle.dbus_show.specs.ShownMessages.{front_text, kind_text, start_text};

use crate::draft::Draft;
use crate::hexadecimal::write_byte;
use crate::numbers::write_integer;
use dbus_message_model::message_type::type_name;
use dbus_message_model::order_byte;
use dbus_value_model::Order;

/// Appends the name of a message type, or `kind` and its number if it has none.
pub fn write_kind<D: Draft>(draft: &mut D, kind: u8)
    ensures { D.gains draft.old (kind_text kind) draft.new }
{
    match type_name(kind) {
        Some(name) => draft.push_str(name),
        None => {
            draft.push_str("kind");
            write_integer(draft, kind);
        }
    }
}

/// Appends the line of a message's header as far as its type: `#`, the number, the byte order as
/// `l` or `B`, and the message type, as in `#1 l signal`. D-Bus Specification, "Message Format".
pub fn write_front<D: Draft>(draft: &mut D, order: Order, kind: u8, number: u64)
    ensures { D.gains draft.old (front_text order kind number) draft.new }
{
    draft.push_code(b'#');
    write_integer(draft, number);
    draft.push_code(b' ');
    draft.push_code(order_byte(order));
    draft.push_code(b' ');
    write_kind(draft, kind);
}

/// Appends the line of a message's header as far as its fields: `#`, the number, the byte order as
/// `l` or `B`, the message type, the serial and the flags, as in `#1 l signal serial=2 flags=01`.
///
/// The number is that of the message among those that are shown. D-Bus Specification, "Message
/// Format".
pub fn write_start<D: Draft>(
    draft: &mut D,
    order: Order,
    kind: u8,
    serial: u32,
    flags: u8,
    number: u64,
)
    ensures { D.gains draft.old (start_text order kind serial flags number) draft.new }
{
    write_front(draft, order, kind, number);
    draft.push_str(" serial=");
    write_integer(draft, serial);
    draft.push_str(" flags=");
    write_byte(draft, flags);
}
