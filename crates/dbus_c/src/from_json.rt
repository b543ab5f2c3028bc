//! A line of JSON read back into a message.
#![tactic(auto)]

ghost use Rattle.std.specs.Prelude.{◌≡◌, Err, IfOk};
ghost use Rattle.dbus_c.specs.GivenLimits.{limits_of};
ghost use Rattle.dbus_c.specs.LinesRead.{ReadsLine, line_fault_told};
ghost use Rattle.dbus_json.specs.declared.integers.Integers.TheVariants.{Exact};
ghost use Rattle.dbus_json_lines.specs.JsonLines.{IsLineOf};
ghost use Rattle.dbus_json_lines.specs.LineFaults.{IsPlaceOf};
ghost use Rattle.dbus_json_lines.specs.declared.fault.LineFault.{LineFault as TheFault};
ghost use Rattle.dbus_message_model.specs.Messages.{MessageTree, message_bytes};
ghost use Rattle.dbus_value_model.specs.declared.order.Order.{Order as TheOrder};

use crate::answers::{NO_MEMORY, REFUSED};
use crate::building::write_built;
use crate::checking::{Checked, nothing_told};
use crate::given_limits::{WireLimits, given_limits};
use crate::json_reasons::{json_field_named, json_reason_number};
use dbus_encode::encode;
use dbus_json::Integers;
use dbus_json_lines::{LineFault, NoMessage, message_of_line};
use dbus_value_model::{Limits, Order};
use json::Scratch;
use std::alloc::Global;

/// Writes the message within the limits that a line of JSON spells to the start of `out`, in the
/// byte order that the line names: what `dbus-wire encode` writes of the line. It is read as
/// [`dbus_json_lines::message_of_line`] says; a message whose line tells no serial has this one. So
/// the line that [`crate::dbus_wire_json`] writes of a message gives that message back.
///
/// [`crate::WHOLE`] if it is written; `told` has its length and order. What is behind it in `out`
/// stays as it was. [`crate::NO_ROOM`] if `out` has fewer bytes than the message, with the same in
/// `told`. [`REFUSED`] if the line spells no message within the limits: `told` has the reason, the
/// place, in bytes from the start of the line, and of a missing field its code. [`NO_MEMORY`] if
/// memory runs out. In these three cases `out` stays as it was.
///
/// It takes memory for the line's values, for the message's, and for the message's bytes. RFC 8259;
/// D-Bus Specification, "Message Format" and "Header Fields".
#[unsafe(no_mangle)]
pub extern "C" fn dbus_wire_from_json(
    alloc: Global,
    line: &[u8],
    limits: &WireLimits,
    serial: u32,
    out: &mut [u8],
    told: &mut Checked,
) -> u32
    ensures { ReadsLine (limits_of limits.now) serial line.now result told.new out.old out.new }
{
    match bytes_of_line(alloc, line, given_limits(limits), serial) {
        Ok((order, bytes)) => write_built(bytes.as_slice(), order, out, told),
        Err(NoMessage::Refused(fault)) => {
            *told = line_fault_told(fault);
            REFUSED
        }
        Err(NoMessage::Memory) => {
            *told = nothing_told();
            NO_MEMORY
        }
    }
}

// The bytes of the message that a line spells, in the order that it names.
fn bytes_of_line(
    alloc: Global,
    line: &[u8],
    limits: Limits,
    serial: u32,
) -> Result<(Order, Vec<u8, Global>), NoMessage>
    ensures ok { IfOk result (λ r. (m : MessageTree) × IsLineOf Exact limits serial line.now r.0 m ×
        (r.1.items ≡ message_bytes r.0 m)) }
    ensures refused { (fault : TheFault) → result ≡ Err (NoMessage.Refused fault) →
        (order : TheOrder) (m : MessageTree) → IsLineOf Exact limits serial line.now order m → ⊥ }
    ensures place { (fault : TheFault) → result ≡ Err (NoMessage.Refused fault) →
        IsPlaceOf line.now fault }
{
    let mut scratch = Scratch::new(alloc);
    let (order, message) = match message_of_line(
        alloc,
        line,
        limits,
        serial,
        Integers::Exact,
        &mut scratch,
    ) {
        Ok(read) => read,
        Err(why) => return Err(why),
    };
    let bytes = encode(alloc, &message, order)?;
    Ok((order, bytes))
}

// What is told of a line that spells no message.
fn line_fault_told(fault: LineFault) -> Checked
    ensures { result ≡ line_fault_told fault }
{
    Checked {
        length: 0,
        offset: fault.at as u64,
        order: 0,
        reason: json_reason_number(fault.reason),
        field: json_field_named(fault.reason),
        reserved: 0,
    }
}
