//! Bytes to a sink.
ghost use Rattle.std.specs.Prelude.{◌≡◌};
ghost use Rattle.dbus_device.specs.Device.{WritesAll};

use crate::sink::Sink;

/// Only this many of the first bytes were written.
#[derive(Clone, Copy, Debug, PartialEq, Eq)]
pub struct WrittenOnly(pub usize);

/// Writes all the bytes, in as many calls as the sink takes.
///
/// `WrittenOnly`: a call failed or took none, and the bytes before it went out. Then the sink is
/// not called again.
pub fn write_all<W: Sink>(sink: &mut W, bytes: &[u8]) -> Result<(), WrittenOnly>
    ensures writes { WritesAll W.held W.failures sink.old bytes.now sink.new result }
    ensures same_reference { W.reference sink.new ≡ W.reference sink.old }
{
    let mut rest = bytes;
    'writing: while !rest.is_empty() {
        match sink.write(rest) {
            Ok(count) => {
                if count == 0 {
                    return Err(WrittenOnly(bytes.len() - rest.len()));
                }
                rest = &rest[count..];
            }
            Err(_) => return Err(WrittenOnly(bytes.len() - rest.len())),
        }
    }
    Ok(())
}
