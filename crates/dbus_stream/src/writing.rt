//! Messages to a sink.
ghost use Rattle.std.specs.Prelude.{◌≡◌};
ghost use Rattle.dbus_message_model.specs.Messages.{message_bytes};
ghost use Rattle.dbus_message_model.specs.MessageViews.{message_tree};
ghost use Rattle.dbus_stream.specs.Write.{WritesMessage};

use crate::write_fault::WriteFault;
use dbus_device::{Sink, WrittenOnly, write_all};
use dbus_encode::encode;
use dbus_message_model::Message;
use dbus_value_model::Order;
use std::alloc::Allocator;

/// Writes the bytes that spell the message in this order.
///
/// `Memory`: an allocation failed, and nothing was written. `Device`: a call failed or took none,
/// and the bytes before it went out. Then the sink is not called again.
///
/// ```rust
/// use dbus_message::{Answer, decode};
/// use dbus_stream::{FromWrite, write_message};
///
/// if let Answer::Whole { order, message, .. } = decode(alloc, bytes)? {
///     write_message(alloc, &mut FromWrite::new(rt.stdout()), order, &message)?;
/// }
/// ```
pub fn write_message<A: Allocator + Copy, W: Sink>(
    alloc: A,
    sink: &mut W,
    order: Order,
    message: &Message<A>,
) -> Result<(), WriteFault>
    ensures writes { WritesMessage W.held W.failures sink.old
        (message_bytes order (message_tree message.now)) sink.new result }
    ensures same_reference { W.reference sink.new ≡ W.reference sink.old }
{
    let Ok(bytes) = encode(alloc, message, order) else {
        return Err(WriteFault::Memory);
    };
    match write_all(sink, bytes.as_slice()) {
        Ok(()) => Ok(()),
        Err(WrittenOnly(written)) => Err(WriteFault::Device { written }),
    }
}
