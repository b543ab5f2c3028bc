//! The lines of a fault, and of a cause.
ghost use Rattle.std.specs.Prelude.{◌≡◌, ◌+◌, IfOk, string_bytes};
ghost use Rattle.cli_report.specs.Telling.{refused_line, cause_line};

use crate::ending::Cause;
use dbus_value_model::Fault;
use std::alloc::{AllocError, Allocator};
use std::fmt;

/// What is written of a fault after messages of this size: `refused at P: NAME`, ` in packet K` if
/// it is of a packet of this number, and LF. The place counts from the start of the input.
///
/// `AllocError`: an allocation failed.
pub fn refused_line<A: Allocator + Copy>(
    alloc: A,
    size: u64,
    fault: Fault,
    packet: Option<u64>,
) -> Result<String<A>, AllocError>
    ensures { IfOk result (λ line. string_bytes line ≡
        refused_line (size + fault.at) fault.reason packet) }
{
    let place = size as u128 + fault.at as u128;
    let reason = fault.reason;
    let in_packet = InPacket(packet);
    format!(in alloc; "refused at {place}: {reason}{in_packet}\n")
}

// The packet of a fault, at the end of its line.
#[derive(Clone, Copy)]
pub(crate) struct InPacket(pub(crate) Option<u64>);

impl fmt::Display for InPacket {
    ghost use Rattle.std.specs.Prelude.{Some};
    ghost use Rattle.cli_report.specs.Telling.{in_packet};

    ghost output = { λ packet. Some (in_packet packet.0) };

    fn fmt<W: fmt::Write>(&self, f: &mut fmt::Formatter<W>) -> fmt::Result {
        match self.0 {
            Some(number) => write!(f, " in packet {number}"),
            None => Ok(()),
        }
    }
}

// The packet of a fault, as a member of an object of JSON that has others before it.
#[derive(Clone, Copy)]
pub(crate) struct PacketMember(pub(crate) Option<u64>);

impl fmt::Display for PacketMember {
    ghost use Rattle.std.specs.Prelude.{Some};
    ghost use Rattle.cli_report.specs.Telling.{packet_member};

    ghost output = { λ packet. Some (packet_member packet.0) };

    fn fmt<W: fmt::Write>(&self, f: &mut fmt::Formatter<W>) -> fmt::Result {
        let Some(number) = self.0 else {
            return Ok(());
        };
        write!(f, ",\"packet\":{number}")
    }
}

// The line of a cause.
pub(crate) fn cause_line(cause: Cause) -> &'static str
    ensures { result.now ≡ cause_line cause }
{
    match cause {
        Cause::Memory => "out of memory\n",
        Cause::ReadFailed => "read failed\n",
        Cause::WriteFailed => "write failed\n",
        Cause::TooManyReads => "too many reads\n",
    }
}
