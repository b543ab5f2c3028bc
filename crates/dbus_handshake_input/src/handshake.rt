//! The handshake of a side.
ghost use Rattle.std.specs.Prelude.{◌≡◌, ◌≤◌, [], false};
ghost use Rattle.dbus_handshake_input.specs.Ahead.{Took, idle_unless, source_of};
ghost use Rattle.dbus_device.specs.Device.{ReadCounts};
ghost use Rattle.dbus_handshake_input.specs.Heard.{Reads};
ghost use Rattle.dbus_handshake_input.specs.Passing.{Counts, Greets, IsShort, Passes, SeesMessages, placed};

use crate::fault::{HandshakeFault, HandshakeReason};
use crate::lines::{Said, hear_line, next_line};
use crate::read_ahead::ReadAhead;
use crate::side::Side;
use crate::size::HandshakeSize;
use crate::unheard::Unheard;
use crate::visitor::LineVisitor;
use dbus_device::{DeviceFault, Source};
use std::alloc::Allocator;

// How many lines a handshake has at most.
const MOST_LINES: usize = 1024;

/// Takes the handshake of a side from the source, and no byte after it. It reads ahead at most 512
/// bytes, and keeps the bytes of one line beside these. D-Bus Specification, "Authentication
/// Protocol".
///
/// A client's handshake is the byte 0 and then its lines up to `BEGIN`. A server's is its lines, of
/// which one is `OK`, up to the first byte after such a line that is `l` or `B`, or up to the end
/// of the input. Each line is a command of its side, of at most 16,384 bytes with its CR LF. There
/// are at most 1,024.
///
/// Each byte that follows is still of the packet that the source says of it.
///
/// `Refused`: the bytes begin with no handshake of the side; the place counts from the first byte
/// that was taken. `Device`: a read failed. `Memory`: an allocation failed. After each of them the
/// bytes before the place that was reached are taken, and the call is not to be made again.
///
/// ```rust
/// use dbus_handshake_input::{HandshakeFault, ReadAhead, Side, pass_handshake};
/// use dbus_stream::{FromRead, MessageReader};
///
/// let mut input = ReadAhead::new(FromRead::new(rt.stdin()));
/// match pass_handshake(alloc, Side::Client, &mut input) {
///     Ok(()) => {
///         let mut reader = MessageReader::new(alloc, input);
///         if let Some((_, message)) = reader.next()? {
///             println!(rt; "serial {}", message.parts().serial)?;
///         }
///     }
///     Err(HandshakeFault::Refused { at, reason }) => {
///         println!(rt; "handshake refused at {at}: {reason}")?;
///     }
///     Err(fault) => return Err(fault.into()),
/// }
/// ```
#[tactic(auto, using(crate::proofs::HandshakeSteps::passes_by, crate::proofs::HandshakeSteps::passes_not))]
pub fn pass_handshake<A: Allocator + Copy, R: Source>(
    alloc: A,
    side: Side,
    input: &mut ReadAhead<R>,
) -> Result<(), HandshakeFault>
    ensures passes { Passes R.left R.calls R.packets R.packet side input.old input.new result }
    ensures failed { Counts (R.failures (source_of input.old)) (R.failures (source_of input.new))
        result }
    ensures same_reference { R.reference (source_of input.new) ≡
        R.reference (source_of input.old) }
{
    read_handshake(alloc, side, input, &mut Unheard)?;
    Ok(())
}

/// Takes the handshake of a side from the source, as [`pass_handshake`] does, hands each line of it
/// to the visitor, and returns how many lines and bytes it has. The visitor has a line before the
/// next one is sought, but bytes after it may be read by then: one read of the source takes what it
/// gives, up to 512 bytes.
///
/// `Refused`, `Device`, `Memory`: as [`pass_handshake`] says; the visitor has the lines before that
/// place.
pub fn read_handshake<A: Allocator + Copy, R: Source, V: LineVisitor>(
    alloc: A,
    side: Side,
    input: &mut ReadAhead<R>,
    visitor: &mut V,
) -> Result<HandshakeSize, HandshakeFault>
    ensures reads { Reads V.hears side R.left R.calls R.packets R.packet input.old input.new
        visitor.old visitor.new result }
    ensures failed { Counts (R.failures (source_of input.old)) (R.failures (source_of input.new))
        result }
    ensures same_reference { R.reference (source_of input.new) ≡
        R.reference (source_of input.old) }
{
    let mut bytes = match greeted(side, input) {
        Ok(count) => count,
        Err(fault) => return Err(fault),
    };
    let mut accepted = false;
    'lines: for count in 0..MOST_LINES {
        let line = match next_line(alloc, side, input) {
            Ok(line) => line,
            Err(fault) => return Err(placed(bytes, fault)),
        };
        let start = bytes;
        bytes += line.len() + 2;
        match hear_line(alloc, side, start, line.as_slice(), visitor) {
            Ok(Said::GoesOn { is_ok }) => accepted |= is_ok,
            Ok(Said::Begin) => {
                return Ok(HandshakeSize {
                    lines: count + 1,
                    bytes,
                });
            }
            Ok(Said::Nothing) => return Err(refused(start, HandshakeReason::NoCommand)),
            Err(_) => return Err(HandshakeFault::Memory),
        }
        match sees_messages(accepted, input) {
            Ok(true) => {
                return Ok(HandshakeSize {
                    lines: count + 1,
                    bytes,
                });
            }
            Ok(false) => {}
            Err(DeviceFault) => return Err(HandshakeFault::Device),
        }
    }
    Err(refused(bytes, HandshakeReason::TooManyLines))
}

// Takes what comes before the lines of a side, and returns how many bytes that is.
fn greeted<R: Source>(side: Side, input: &mut ReadAhead<R>) -> Result<usize, HandshakeFault>
    ensures greets { Greets R.left R.calls R.packets R.packet side input.old input.new result }
    ensures failed { Counts (R.failures (source_of input.old)) (R.failures (source_of input.new))
        result }
    ensures same_reference { R.reference (source_of input.new) ≡
        R.reference (source_of input.old) }
{
    match side {
        Side::Server => Ok(0),
        Side::Client => {
            match input.has_more() {
                Ok(true) => {}
                Ok(false) => return Err(refused(0, HandshakeReason::Truncated)),
                Err(DeviceFault) => return Err(HandshakeFault::Device),
            }
            if input.kept()[0] != 0 {
                return Err(refused(0, HandshakeReason::FirstByte));
            }
            input.pass(1);
            Ok(1)
        }
    }
}

// Whether a server's messages follow a line that was accepted: the input ends, or the next byte is
// one that begins a message and no line.
fn sees_messages<R: Source>(accepted: bool, input: &mut ReadAhead<R>) -> Result<bool, DeviceFault>
    ensures sees { SeesMessages R.left accepted input.new result }
    ensures took { Took R.left R.calls R.packets R.packet (idle_unless false result)
        input.old input.new [] }
    ensures failed { ReadCounts (R.failures (source_of input.old))
        (R.failures (source_of input.new)) result }
    ensures same_reference { R.reference (source_of input.new) ≡
        R.reference (source_of input.old) }
{
    if !accepted {
        return Ok(false);
    }
    if !input.has_more()? {
        return Ok(true);
    }
    let next = input.kept()[0];
    Ok(next == b'l' || next == b'B')
}

// A refusal at this place.
fn refused(at: usize, reason: HandshakeReason) -> HandshakeFault
    ensures { result ≡ HandshakeFault.Refused at reason }
{
    HandshakeFault::Refused { at, reason }
}

// The fault of a line that begins at this place.
fn placed(start: usize, fault: HandshakeFault) -> HandshakeFault
    requires low { start ≤ 16777217 }
    requires short { IsShort fault }
    ensures { result ≡ placed start fault }
{
    match fault {
        HandshakeFault::Refused { at, reason } => refused(start + at, reason),
        HandshakeFault::Memory | HandshakeFault::Device => fault,
    }
}
