//! A message built of its parts.
#![tactic(auto)]

ghost use Rattle.std.specs.Prelude.{◌≡◌, ◌≤◌, List, [], ◌++◌, length, take, drop, OnOk, IfOk, IfErr};
ghost use Rattle.dbus_value_model.specs.Bytes.{num};
ghost use Rattle.dbus_message_model.specs.Messages.{FieldTree};
ghost use Rattle.dbus_c_build.specs.Building.{HaveBytes, HaveNoBytes, IsBuilt, IsRefusal, fixed_items, spelled};
ghost use Rattle.dbus_c_build.specs.Drafts.{AreKept};

use crate::draft::{BODY, Draft};
use crate::draft_fault::DraftFault;
use crate::given::Given;
use crate::kept::append_fields;
use crate::lengths::check_lengths;
use dbus_body::{begin_struct, put_number};
use dbus_check::fault_at_end;
use dbus_explain::field_of;
use dbus_marshal::writing::overwrite_32;
use dbus_message_model::order_byte;
use dbus_validate::validate;
use dbus_value_model::{ARRAY_LIMIT, Order};
use dbus_walk::FIELDS_START;
use std::alloc::{AllocError, Allocator};

/// The protocol version.
const VERSION: u8 = 1;

/// How many bytes most headers have at most: room that is made at the start.
const HEADER_ROOM: usize = 512;

/// Appends the items up to the fields' length, for which 0 stands.
fn put_fixed<A: Allocator>(
    out: &mut Vec<u8, A>,
    parts: &Draft<'_>,
    body_length: u32,
) -> Result<(), AllocError>
    requires { out.old.items ≡ [] }
    ensures { OnOk result (out.new.items ≡ fixed_items parts.now.order parts.now.kind
        parts.now.flags parts.now.serial body_length) }
{
    let order = parts.order;
    out.extend_from_slice(&[order_byte(order), parts.kind, parts.flags, VERSION])?;
    put_number(out, order, 4, u64::from(body_length))?;
    put_number(out, order, 4, u64::from(parts.serial))?;
    put_number(out, order, 4, 0)
}

/// Writes the fields' length in its place, which is there.
fn set_length<A: Allocator>(out: &mut Vec<u8, A>, order: Order, fields_length: u32)
    requires { 16 ≤ length out.old.items }
    ensures { out.new.items ≡
        take 12 out.old.items ++ (num order 4 fields_length ++ drop 16 out.old.items) }
{
    overwrite_32(out.as_mut_slice(), 12, order, fields_length);
}

/// The bytes that the parts spell, whether or not they are a message.
fn spell<A: Allocator + Copy>(
    alloc: A,
    given: &Given<'_>,
    parts: &Draft<'_>,
) -> Result<Vec<u8, A>, DraftFault>
    requires kept { (fs : List FieldTree) × AreKept given.now parts.now.order fs }
    ensures spelled { (fs : List FieldTree) → AreKept given.now parts.now.order fs →
        IfOk result (λ v. v.items ≡ spelled fs parts.now) }
    ensures bounded { (fs : List FieldTree) → AreKept given.now parts.now.order fs →
        IfOk result (λ v. HaveBytes fs parts.now) }
    ensures refused { (fs : List FieldTree) → AreKept given.now parts.now.order fs →
        IfErr result (λ why. HaveNoBytes fs parts.now why) }
{
    let (_kind, _flags, _serial) = (parts.kind, parts.flags, parts.serial);
    let (_reply_serial, _unix_fds) = (parts.reply_serial, parts.unix_fds);
    check_lengths(parts)?;
    let body = parts.body;
    let mut out = Vec::with_capacity(alloc, body.len() + HEADER_ROOM)?;
    put_fixed(&mut out, parts, body.len() as u32)?;
    append_fields(&mut out, given, parts)?;
    let length = out.len() - FIELDS_START;
    if length > ARRAY_LIMIT as usize {
        return Err(DraftFault::TooLong(BODY));
    }
    set_length(&mut out, parts.order, length as u32);
    // A body begins where a struct could.
    begin_struct(&mut out)?;
    out.extend_from_slice(body)?;
    Ok(out)
}

/// The message that has exactly these parts: in the byte order that they name, with their body and
/// their header fields. If the fields of a message are kept, which is in the same order, each stays
/// in its place: one of a known code as the parts have it, or nothing, and one of another code as
/// it is, as is a UNIX_FDS of 0 of which the parts have 0. Then come the fields that it did not
/// have, in the order of their codes.
///
/// Some message within the limits has these parts exactly if it returns one. Else it returns the
/// [`DraftFault`], which says why; that of `Format` is the fault of the bytes that the parts
/// spell. It takes one block of memory for a header of up to 512 bytes, and a few for a longer one.
/// D-Bus Specification, "Message Format".
pub fn build<A: Allocator + Copy>(
    alloc: A,
    given: &Given<'_>,
    parts: &Draft<'_>,
) -> Result<Vec<u8, A>, DraftFault>
    requires kept { (fs : List FieldTree) × AreKept given.now parts.now.order fs }
    ensures built { (fs : List FieldTree) → AreKept given.now parts.now.order fs →
        IfOk result (λ v. IsBuilt given.now.limits fs parts.now v.items) }
    ensures refused { (fs : List FieldTree) → AreKept given.now parts.now.order fs →
        IfErr result (λ why. IsRefusal given.now.limits fs parts.now why) }
{
    let out = spell(alloc, given, parts)?;
    match validate(out.as_slice(), given.limits) {
        Some(_) => Ok(out),
        None => {
            let fault = fault_at_end(out.as_slice(), given.limits);
            Err(DraftFault::Format(fault, field_of(out.as_slice(), fault)))
        }
    }
}
