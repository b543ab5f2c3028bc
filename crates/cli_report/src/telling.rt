//! The report of a message that is refused.
ghost use Rattle.std.specs.Prelude.{◌≡◌, ◌++◌, ℕ, IfOk, List, OnOk, string_bytes};
ghost use Rattle.cli_report.specs.Explaining.{IsExplainedIn};
ghost use Rattle.cli_report.specs.Telling.{Explains, IsJsonRefusal, IsToldBy, line_of};

use crate::fault_front::fault_front;
use crate::lines::{InPacket, PacketMember, refused_line};
use dbus_explain::{Refused, explain_message, write_refusal_members};
use dbus_show::{Draft, StringDraft};
use dbus_value_model::{Fault, Limits};
use std::alloc::{AllocError, Allocator};

/// A message that is refused.
#[derive(Clone, Copy, Debug, PartialEq, Eq)]
pub struct RefusedMessage {
    /// Its number among the messages of its input, from 1.
    pub number: u64,
    /// The place of its first byte, in bytes from the start of the input.
    pub offset: u64,
    /// Its fault, whose place counts from its first byte.
    pub fault: Fault,
    /// The number of the packet that has the byte by which it is refused, if the input has packets.
    pub packet: Option<u64>,
}

/// The report of a message that is refused: its line, which has its number if the run goes on after
/// it, and the number of its packet if there is one; and, if that is wanted, the lines that explain
/// it. `kept` are its bytes, as far as they were read, in two slices, as `RawReader::kept` lends
/// them. They are explained by the first of them that show the fault under these limits, so the
/// report is the same however many were read behind it.
///
/// `AllocError`: an allocation failed.
pub fn refusal_text<A: Allocator + Copy>(
    alloc: A,
    goes_on: bool,
    explains: bool,
    limits: Limits,
    refusal: RefusedMessage,
    kept: (&[u8], &[u8]),
) -> Result<String<A>, AllocError>
    ensures { IfOk result (λ text.
        IsToldBy goes_on explains limits refusal (kept.entry.0.now ++ kept.entry.1.now) (string_bytes text)) }
{
    let mut text = line_of(alloc, goes_on, refusal)?;
    if explains {
        let explained = explanation(alloc, Form::Lines, limits, refusal, kept)?;
        text.push_str(explained.as_str())?;
    }
    Ok(text)
}

// The line of a message that is refused.
fn line_of<A: Allocator + Copy>(
    alloc: A,
    goes_on: bool,
    refusal: RefusedMessage,
) -> Result<String<A>, AllocError>
    ensures { IfOk result (λ line. string_bytes line ≡ line_of goes_on refusal) }
{
    let RefusedMessage {
        number,
        offset,
        fault,
        packet,
    } = refusal;
    if !goes_on {
        return refused_line(alloc, offset, fault, packet);
    }
    let place = offset as u128 + fault.at as u128;
    let reason = fault.reason;
    let in_packet = InPacket(packet);
    format!(in alloc; "refused at {place}: {reason} in message {number} at {offset}{in_packet}\n")
}

/// The report of a message that is refused as a line of JSON, by the same bytes: an object, and a
/// line feed.
///
/// It has the name of the fault as `refused`; its place in the input as `offset`; the message's
/// number as `message`, and where it begins as `begins`; the number of its packet as `packet`, if
/// there is one; and then the members of [`write_refusal_members`].
///
/// `AllocError`: an allocation failed. RFC 8259.
pub fn refusal_json<A: Allocator + Copy>(
    alloc: A,
    limits: Limits,
    refusal: RefusedMessage,
    kept: (&[u8], &[u8]),
) -> Result<String<A>, AllocError>
    ensures { IfOk result (λ text.
        IsJsonRefusal limits refusal (kept.entry.0.now ++ kept.entry.1.now) (string_bytes text)) }
{
    let RefusedMessage {
        number,
        offset,
        fault,
        packet,
    } = refusal;
    let place = offset as u128 + fault.at as u128;
    let reason = fault.reason;
    let in_packet = PacketMember(packet);
    let members = explanation(alloc, Form::Members, limits, refusal, kept)?;
    format!(in alloc;
        "{{\"refused\":\"{reason}\",\"offset\":{place},\"message\":{number},\"begins\":{offset}{in_packet},{members}}}\n"
    )
}

// In which form a message that is refused is explained.
#[derive(Clone, Copy)]
enum Form {
    // As lines.
    Lines,
    // As members of an object of JSON.
    Members,
}

// What explains a message that is refused, by its bytes in two slices.
fn explanation<A: Allocator + Copy>(
    alloc: A,
    form: Form,
    limits: Limits,
    refusal: RefusedMessage,
    kept: (&[u8], &[u8]),
) -> Result<String<A>, AllocError>
    ensures { IfOk result (λ text.
        Explains (IsExplainedIn form) limits refusal (kept.entry.0.now ++ kept.entry.1.now)
        (string_bytes text)) }
{
    let (held, part) = kept;
    if held.is_empty() {
        return explained_by(alloc, form, limits, refusal, part);
    }
    let mut joined = Vec::new(alloc);
    joined.extend_from_slice(held)?;
    joined.extend_from_slice(part)?;
    explained_by(alloc, form, limits, refusal, joined.as_slice())
}

// What explains a message that is refused, by those of its bytes that show the fault.
fn explained_by<A: Allocator + Copy>(
    alloc: A,
    form: Form,
    limits: Limits,
    refusal: RefusedMessage,
    bytes: &[u8],
) -> Result<String<A>, AllocError>
    ensures { IfOk result (λ text.
        Explains (IsExplainedIn form) limits refusal bytes.now (string_bytes text)) }
{
    let refused = Refused {
        bytes: fault_front(bytes, limits),
        fault: refusal.fault,
        number: refusal.number,
        offset: refusal.offset,
    };
    let mut text = String::new(alloc);
    explain_into(&mut text, form, &refused)?;
    Ok(text)
}

// Writes what explains a message that is refused into a string.
fn explain_into<A: Allocator>(
    out: &mut String<A>,
    form: Form,
    refused: &Refused,
) -> Result<(), AllocError>
    ensures { OnOk result (IsExplainedIn form refused.now (string_bytes out.new)) }
{
    let mut draft = StringDraft::new(out);
    write_explained(&mut draft, form, refused);
    draft.finish()
}

// Appends what explains a message that is refused.
fn write_explained<D: Draft>(draft: &mut D, form: Form, refused: &Refused)
    ensures { (text : List ℕ) × IsExplainedIn form refused.now text ×
        D.gains draft.old text draft.new }
{
    match form {
        Form::Lines => {
            explain_message(draft, refused);
        }
        Form::Members => write_refusal_members(draft, refused),
    }
}
