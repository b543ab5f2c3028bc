//! A message built of a draft, or changed by it.
#![tactic(auto)]

ghost use Rattle.std.specs.Prelude.{◌≡◌, ℕ, ◌<◌, ◌≤◌, ◌++◌, length, drop, nat_eq, if◌then◌else◌};
ghost use Rattle.dbus_value_model.specs.declared.fault.Reason.TheVariants.{MessageTooLong, Signature};
ghost use Rattle.dbus_c.specs.Building.{Builds, ComesBack, IsOwnDraft, Keeps, Kept, Nothing, Rebuilds, Replies, field_told, refusal_told, reply_draft};
ghost use Rattle.dbus_c.specs.Checking.{whole_told};
ghost use Rattle.dbus_c.specs.GivenLimits.{limits_of};

use crate::answers::{NO_MEMORY, NO_ROOM, REFUSED, WHOLE};
use crate::checking::{Checked, fault_told, first_validated, first_view, nothing_told};
use crate::drafts::{DraftText, WireDraft, parts_given, sender_of};
use crate::given_limits::{WireLimits, given_limits};
use crate::parts::order_byte;
use crate::reasons::reason_number;
use dbus_c_build::{DraftFault, Given, build};
use dbus_message_model::field_code::SIGNATURE;
use dbus_message_model::flag::NO_REPLY_EXPECTED;
use dbus_message_model::message_type::{ERROR, METHOD_RETURN};
use dbus_value_model::{Order, Reason};
use std::alloc::Global;

/// Writes the message that has exactly the parts of the draft to the start of `out`, in the byte
/// order that it names: the header fields that are there, in the order of their codes, and the body.
/// It is not the inverse of [`crate::dbus_wire_parts_of`], as [`dbus_wire_rebuild`] is: a message
/// comes back from its parts exactly if it has no header fields beside the known ones, these in the
/// order of their codes, and no UNIX_FDS of 0.
///
/// [`WHOLE`] if it is written; `told` has its length and order. [`NO_ROOM`] if `out` has fewer
/// bytes than the message, with the same in `told`. [`REFUSED`] if no message within the limits has
/// these parts. Then `told` has the reason and the field: what [`crate::dbus_wire_check`] finds in
/// the bytes that the draft spells; or `Overrun` if a number over 255 stands for a byte;
/// `MessageTooLong` or `Signature` if a text is too long for any message; `ByteOrder` if no order is
/// named. Of several faults the first is reported: the order, the numbers, the body, each field in
/// the order of the codes, all fields, the bytes. [`NO_MEMORY`] if memory runs out, of which it
/// takes one block for a header of up to 512 bytes. In these three cases `out` stays as it was.
/// D-Bus Specification, "Message Format" and "Header Fields".
#[unsafe(no_mangle)]
pub extern "C" fn dbus_wire_build(
    alloc: Global,
    draft: &WireDraft<'_>,
    limits: &WireLimits,
    out: &mut [u8],
    told: &mut Checked,
) -> u32
    ensures { Builds (limits_of limits.now) Nothing draft.now result told.new out.old out.new }
{
    let given = Given {
        bytes: b"",
        limits: given_limits(limits),
        kept: None,
    };
    build_given(alloc, draft, &given, out, told)
}

/// Writes the message that the bytes begin with to the start of `out`, changed as the draft says:
/// each header field stays in its place, one of a known code as the draft has it, or not at all if
/// it has none, and one of another code as it is. Then come the fields that the message does not
/// have, in the order of their codes. A draft that has the parts of the message leaves it as it is,
/// byte for byte.
///
/// It returns what [`dbus_wire_build`] does, but takes the byte order of the message alone: for any
/// other it reports `ByteOrder`. A UNIX_FDS of 0 stays if the draft has 0. If the bytes begin with
/// no message within the limits, it returns what [`crate::dbus_wire_check`] does, and `out` stays
/// as it was. D-Bus Specification, "Message Format" and "Header Fields".
#[unsafe(no_mangle)]
pub extern "C" fn dbus_wire_rebuild(
    alloc: Global,
    bytes: &[u8],
    limits: &WireLimits,
    draft: &WireDraft<'_>,
    out: &mut [u8],
    told: &mut Checked,
) -> u32
    ensures rebuilds { Rebuilds (limits_of limits.now) bytes.now draft.now result told.new out.old out.new }
    ensures same { (own : IsOwnDraft (limits_of limits.now) bytes.now draft.now) →
        ComesBack bytes.now own.count result out.old out.new }
{
    match first_validated(bytes, limits, told) {
        Ok(validated) => {
            let given = Given {
                bytes,
                limits: given_limits(limits),
                kept: Some(validated),
            };
            build_given(alloc, draft, &given, out, told)
        }
        Err(answer) => answer,
    }
}

/// Writes the reply to the call that the bytes begin with to the start of `out`, which is what
/// [`dbus_wire_build`] writes of this draft with others in place of five: an ERROR if the draft has
/// an error name, else a METHOD_RETURN, with NO_REPLY_EXPECTED, in the byte order of the call, whose
/// serial is the REPLY_SERIAL, and whose SENDER, if it has one, the DESTINATION. The message that
/// the bytes begin with may have any type.
///
/// It returns what [`dbus_wire_build`] does. If the bytes begin with no message within the limits,
/// it returns what [`crate::dbus_wire_check`] does, and `out` stays as it was. D-Bus Specification,
/// "Message Types".
#[unsafe(no_mangle)]
pub extern "C" fn dbus_wire_reply_to(
    alloc: Global,
    bytes: &[u8],
    limits: &WireLimits,
    draft: &WireDraft<'_>,
    out: &mut [u8],
    told: &mut Checked,
) -> u32
    ensures { Replies (limits_of limits.now) bytes.now draft.now result told.new out.old out.new }
{
    match first_validated(bytes, limits, told) {
        Ok(validated) => {
            let call = first_view(bytes, limits, validated);
            let given = Given {
                bytes: b"",
                limits: given_limits(limits),
                kept: None,
            };
            let reply = reply_draft(call.order(), call.serial(), sender_of(&call), draft);
            build_given(alloc, &reply, &given, out, told)
        }
        Err(answer) => answer,
    }
}

// The draft of a reply to a call of this order and serial, to whom it came from.
fn reply_draft<'a>(
    order: Order,
    serial: u32,
    to: DraftText<'a>,
    draft: &WireDraft<'a>,
) -> WireDraft<'a>
    ensures { result ≡ reply_draft order serial to.entry draft.now }
{
    let kind = if draft.error_name.is_there == 0 {
        METHOD_RETURN
    } else {
        ERROR
    };
    WireDraft {
        order: order_byte(order),
        kind: u32::from(kind),
        flags: u32::from(NO_REPLY_EXPECTED),
        reply_serial: serial,
        destination: to,
        ..*draft
    }
}

// Builds the message of a draft and of what is given, and writes it.
fn build_given(
    alloc: Global,
    draft: &WireDraft<'_>,
    given: &Given<'_>,
    out: &mut [u8],
    told: &mut Checked,
) -> u32
    requires { (k : Kept) × Keeps given.now k }
    ensures { (k : Kept) → Keeps given.now k →
        Builds given.now.limits k draft.now result told.new out.old out.new }
{
    let parts = match parts_given(draft, given) {
        Ok(parts) => parts,
        Err(reason) => {
            *told = field_told(reason, 0);
            return REFUSED;
        }
    };
    match build(alloc, given, &parts) {
        Ok(message) => write_built(message.as_slice(), parts.order, out, told),
        Err(why) => {
            *told = refusal_told(why);
            match why {
                DraftFault::Memory => NO_MEMORY,
                _ => REFUSED,
            }
        }
    }
}

// Writes a message in this order to the start of `out`, if it has room.
pub(crate) fn write_built(message: &[u8], order: Order, out: &mut [u8], told: &mut Checked) -> u32
    ensures told { told.new ≡ whole_told order (length message.now) }
    ensures written { length message.now ≤ length out.old →
        (result ≡ WHOLE) × (out.new ≡ message.now ++ drop (length message.now) out.old) }
    ensures no_room { length out.old < length message.now → (result ≡ NO_ROOM) × (out.new ≡ out.old) }
{
    *told = Checked {
        length: message.len() as u64,
        offset: 0,
        order: order_byte(order),
        reason: 0,
        field: 0,
        reserved: 0,
    };
    if out.len() < message.len() {
        return NO_ROOM;
    }
    out[..message.len()].copy_from_slice(message);
    WHOLE
}

// What is told of a field, or under 0 of no field.
fn field_told(reason: Reason, code: u8) -> Checked
    ensures { result ≡ field_told reason code }
{
    Checked {
        length: 0,
        offset: 0,
        order: 0,
        reason: reason_number(reason),
        field: u32::from(code),
        reserved: 0,
    }
}

// What is told of parts of which nothing is built.
fn refusal_told(why: DraftFault) -> Checked
    ensures { result ≡ refusal_told why }
{
    match why {
        DraftFault::Memory => nothing_told(),
        DraftFault::TooLong(code) => field_told(too_long(code), code),
        DraftFault::Format(fault, code) => Checked {
            field: u32::from(code),
            ..fault_told(fault)
        },
    }
}

// The reason why the text of a field is too long.
fn too_long(code: u8) -> Reason
    ensures { result ≡ (if nat_eq code 8 then Signature else MessageTooLong) }
{
    if code == SIGNATURE {
        Reason::Signature
    } else {
        Reason::MessageTooLong
    }
}
