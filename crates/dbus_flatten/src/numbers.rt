//! Numbers where they stand.
#![tactic(auto)]

ghost use Rattle.std.specs.Prelude.{◌≡◌, ◌+◌, ◌≤◌, length, take, drop};
ghost use Rattle.dbus_texts.specs.Types.{NumberCode};
ghost use Rattle.dbus_types.specs.Alignments.{width};
ghost use Rattle.dbus_value_model.specs.Reading.{number_of};

use dbus_walk::MessageBytes;

/// The number that begins at `start`, of so many bytes as a type of numbers has.
pub(crate) fn number_at(source: &MessageBytes<'_>, start: usize, size: u8) -> u64
    requires inside { start + size ≤ length source.now.bytes.now }
    requires wide { (k : NumberCode) × (width k ≡ size) }
    ensures { result ≡ number_of source.now.order (take size (drop start source.now.bytes.now)) }
{
    let order = source.order;
    match size {
        1 => u64::from(source.bytes[start]),
        2 => u64::from(order.u16_at(source.bytes, start)),
        4 => u64::from(order.u32_at(source.bytes, start)),
        _ => order.u64_at(source.bytes, start),
    }
}
