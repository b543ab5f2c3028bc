//! A UINT32 of a known field at the front of some bytes, after its signature.
//!
//! The bytes begin at the offset `offset` of a message, and more may follow them. The call says how
//! many bytes the signature and the value have; `Partial` if the bytes end within them; or
//! `Refused` with their fault, as soon as they show it. It takes no memory.
#![tactic(auto)]

ghost use Rattle.std.specs.Prelude.{◌≡◌, ◌+◌, ◌<◌, ◌≤◌, length, IfOk, IfErr};
ghost use Rattle.dbus_value_model.specs.declared.limits.Limits.{Limits};
ghost use Rattle.dbus_value_model.specs.declared.stop.Stop.TheVariants.{Partial};
ghost use Rattle.dbus_header.specs.HeaderReading.{wanted_value};
ghost use Rattle.dbus_message_model.specs.Messages.{number_in};
ghost use Rattle.dbus_value_checker.specs.Fronts.{Fronts};
ghost use Rattle.dbus_check.specs.Heading.{uint32_wanted, seen_as};

use crate::field_fronts::{only_front, uint32_front};
use dbus_value_checker::rest_after;
use dbus_value_model::{Order, Stop};

/// A UINT32: a REPLY_SERIAL, or how many descriptors come with the message.
pub fn uint32_field(
    serial: bool,
    bytes: &[u8],
    offset: usize,
    end: usize,
    order: Order,
) -> Result<(u32, usize), Stop>
    requires at_most { offset ≤ end }
    requires near { end < 4294967296 }
    ensures gives { (limits : Limits) →
        Fronts (λ x. x) offset bytes.now result
        (seen_as number_in (wanted_value limits order end (uint32_wanted serial))) }
    ensures moves { IfOk result (λ x. (x.1 ≤ length bytes.now) × (offset + x.1 ≤ end)) }
    ensures short { IfErr result (λ e. e ≡ Partial → length bytes.now < 11) }
{
    only_front(b'u', bytes, offset, end)?;
    let (count, n) = uint32_front(serial, rest_after(bytes, 3), offset + 3, end, order)?;
    Ok((count, n + 3))
}
