//! Encoding a message.
#![tactic(auto, using(dbus_marshal::proofs::Written::lengths))]

ghost use Rattle.std.specs.Prelude.{◌≡◌, ◌<◌, ◌≤◌, ◌^◌, length, take, vec_capacity, map, IfOk, OnOk, OnErr};
ghost use Rattle.dbus_value_model.specs.SizeLimits.{with_value, with_values};
ghost use Rattle.dbus_value_model.specs.Sizes.{HasShortSignatures, HaveShortSignatures};
ghost use Rattle.dbus_value_model.specs.declared.limits.TheConstants.{MESSAGE_LIMIT};
ghost use Rattle.dbus_value_model.specs.Values.{value_trees};
ghost use Rattle.dbus_encode.specs.FixedBytes.{fixed_bytes};
ghost use Rattle.dbus_message_model.specs.Messages.{field_struct, message_bytes};
ghost use Rattle.dbus_message_model.specs.MessageViews.{message_tree};
ghost use Rattle.dbus_message_model.specs.PartsViews.{field_tree, field_trees};

use dbus_marshal::writing::{overwrite_32, write_32, write_byte, write_padding};
use dbus_marshal::{write_value, write_values, write_variant_signature};
use dbus_message_model::{HeaderField, Message, order_byte};
use dbus_value_model::Order;
use std::alloc::{AllocError, Allocator};

/// The protocol version.
const VERSION: u8 = 1;

/// Writes the items that have fixed places, with 0 for the lengths of the body and of the fields.
#[tactic(auto, using(crate::proofs::FieldWriting::fixed), unfolding(crate::specs::FixedBytes::fixed_bytes))]
fn write_fixed(out: &mut [u8], order: Order, kind: u8, flags: u8, serial: u32) -> usize
    requires space { 16 ≤ length out.old }
    ensures written { take result out.new ≡ fixed_bytes order kind flags serial }
    ensures ends { result ≡ 16 }
{
    let place = write_byte(out, 0, order_byte(order));
    let place = write_byte(out, place, kind);
    let place = write_byte(out, place, flags);
    let place = write_byte(out, place, VERSION);
    let place = write_32(out, place, order, 0);
    let place = write_32(out, place, order, serial);
    write_32(out, place, order, 0)
}

/// Writes a field: its code, and its value in a variant.
#[tactic(auto, using(crate::proofs::FieldWriting::field_lengths))]
fn write_field<A: Allocator>(
    out: &mut [u8],
    at: usize,
    order: Order,
    field: &HeaderField<A>,
) -> usize
    requires start { at ≤ length out.old }
    requires space { length
        (with_value order (field_struct (field_tree field.now)) (take at out.old)) ≤
        length out.old }
    requires fits { length out.old < 2 ^ 32 }
    requires signed { HasShortSignatures (field_struct (field_tree field.now)) }
    ensures written { take result out.new ≡
        with_value order (field_struct (field_tree field.now)) (take at out.old) }
    ensures within { result ≤ length out.new }
{
    let code = field.code;
    let place = write_padding(out, at, 8);
    let place = write_byte(out, place, code);
    let place = write_variant_signature(out, place, &field.value);
    write_value(out, place, order, &field.value)
}

/// Writes fields one after the other.
fn write_fields<A: Allocator>(
    out: &mut [u8],
    at: usize,
    order: Order,
    fields: &[HeaderField<A>],
) -> usize
    requires start { at ≤ length out.old }
    requires space { length (with_values order
        (value_trees (map field_struct (field_trees fields.now))) (take at out.old)) ≤
        length out.old }
    requires fits { length out.old < 2 ^ 32 }
    requires signed { HaveShortSignatures
        (value_trees (map field_struct (field_trees fields.now))) }
    ensures written { take result out.new ≡
        with_values order (value_trees (map field_struct (field_trees fields.now)))
        (take at out.old) }
    ensures within { result ≤ length out.new }
{
    let mut place = at;
    for field in fields {
        place = write_field(out, place, order, field);
    }
    place
}

/// Writes a whole message over as many bytes as it has.
fn write_whole<A: Allocator>(out: &mut [u8], message: &Message<A>, order: Order)
    requires size { length out.old ≡ length (message_bytes order (message_tree message.now)) }
    requires within { length out.old ≤ MESSAGE_LIMIT }
    ensures { out.new ≡ message_bytes order (message_tree message.now) }
{
    let parts = message.parts();
    let fields_start = write_fixed(out, order, parts.kind, parts.flags, parts.serial);
    let fields_end = write_fields(out, fields_start, order, &parts.fields);
    overwrite_32(out, 12, order, (fields_end - fields_start) as u32);
    let start = write_padding(out, fields_end, 8);
    let end = write_values(out, start, order, &parts.body);
    overwrite_32(out, 4, order, (end - start) as u32);
}

/// Encodes a message in a byte order. D-Bus Specification, "Message Format".
///
/// It allocates once, for the whole message. The error is that this allocation failed.
///
/// ```rust
/// use dbus_message::{Answer, decode, encode};
/// use dbus_value::Order;
/// use std::io::Write;
///
/// if let Answer::Whole { message, .. } = decode(alloc, bytes)? {
///     rt.stdout().write_all(&encode(alloc, &message, Order::Big)?)?;
/// }
/// ```
pub fn encode<A: Allocator + Copy>(
    alloc: A,
    message: &Message<A>,
    order: Order,
) -> Result<Vec<u8, A>, AllocError>
    ensures { IfOk result (λ bytes. bytes.items ≡ message_bytes order (message_tree message.now)) }
{
    let mut out = Vec::new(alloc);
    encode_into(&mut out, message, order)?;
    Ok(out)
}

/// Encodes a message as [`encode`] does, into a vector in place of what that holds.
///
/// It allocates only if the vector's capacity is too small, and at most once. The error is that
/// this allocation failed; then the vector holds what it held.
pub fn encode_into<A: Allocator>(
    out: &mut Vec<u8, A>,
    message: &Message<A>,
    order: Order,
) -> Result<(), AllocError>
    ensures written { OnOk result (out.new.items ≡ message_bytes order (message_tree message.now)) }
    ensures unchanged { OnErr result (out.new.items ≡ out.old.items) }
    ensures small { OnErr result
        (vec_capacity out.old < length (message_bytes order (message_tree message.now))) }
{
    out.resize(message.size(), 0)?;
    write_whole(out.as_mut_slice(), message, order);
    Ok(())
}
