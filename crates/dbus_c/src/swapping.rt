//! A message written in the byte order that a caller in C asks for.
#![tactic(auto)]

ghost use Rattle.std.specs.Prelude.{◌≡◌, ◌≤◌, ◌++◌, drop, length};
ghost use Rattle.dbus_c.specs.GivenLimits.{limits_of};
ghost use Rattle.dbus_c.specs.Checking.{IsChecked};
ghost use Rattle.dbus_c.specs.Outcomes.{Swaps, order_named, with_room};
ghost use Rattle.dbus_header.specs.MessageOutcomes.{IsWhole};
ghost use Rattle.dbus_validate.specs.Validating.{IsValidated};
ghost use Rattle.dbus_message_model.specs.Messages.{MessageTree, message_bytes};

use crate::answers::{NO_ROOM, WHOLE};
use crate::checking::{Checked, first_validated};
use crate::given_limits::{WireLimits, given_limits};
use dbus_swap::byteswap;
use dbus_validate::Validated;
use dbus_value_model::{Limits, Order};

/// Writes the message within the limits that the bytes begin with to the start of `out`, in the
/// byte order that `order` names: big if it is `B`, else little. A message has the same length in
/// both.
///
/// [`WHOLE`] if it is written; `told` has its length, and the order that it was read in.
/// [`crate::PARTIAL`] and [`crate::REFUSED`] as [`crate::dbus_wire_check`] returns them.
/// [`NO_ROOM`] if `out` has fewer bytes than the message, whose length and order are given. In
/// these three cases `out` stays as it was. It allocates nothing. D-Bus Specification, "Message
/// Format".
#[unsafe(no_mangle)]
pub extern "C" fn dbus_wire_swap(
    bytes: &[u8],
    limits: &WireLimits,
    order: u32,
    out: &mut [u8],
    told: &mut Checked,
) -> u32
    ensures checked { IsChecked (limits_of limits.now) bytes.now (with_room result) told.new }
    ensures swaps { Swaps (limits_of limits.now) bytes.now (order_named order) result out.old out.new }
{
    match first_validated(bytes, limits, told) {
        Ok(validated) => {
            if out.len() < validated.length {
                return NO_ROOM;
            }
            write_in(
                bytes,
                &validated,
                given_limits(limits),
                order_of(order),
                out,
            );
            WHOLE
        }
        Err(answer) => answer,
    }
}

// Writes a message that was validated to the start of bytes that have room for it, in this order.
fn write_in(bytes: &[u8], validated: &Validated, limits: Limits, order: Order, out: &mut [u8])
    requires validated { IsValidated limits bytes.now validated.now }
    requires room { validated.now.length ≤ length out.old }
    ensures { (m : MessageTree) → IsWhole limits bytes.now validated.now.order m validated.now.length →
        out.new ≡ message_bytes order m ++ drop validated.now.length out.old }
{
    let copy = &mut out[..validated.length];
    copy.copy_from_slice(&bytes[..validated.length]);
    if validated.order != order {
        byteswap(bytes, copy, validated, limits);
    }
}

// The order that a number names.
pub(crate) fn order_of(number: u32) -> Order
    ensures { result ≡ order_named number }
{
    if number == u32::from(b'B') {
        Order::Big
    } else {
        Order::Little
    }
}
