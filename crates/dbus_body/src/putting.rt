//! Basic values, and the padding before the fields of a struct.
#![tactic(auto, using(dbus_marshal::proofs::Written::lengths, dbus_value_model::proofs::Periods::gap_below))]

ghost use Rattle.std.specs.Prelude.{◌≡◌, ◌+◌, ◌<◌, ◌≤◌, ◌^◌, ◌++◌, length, vec_capacity, OnOk, OnErr, IfErr};
ghost use Rattle.dbus_texts.specs.Types.{STRING, SIGNATURE};
ghost use Rattle.dbus_value_model.specs.SizeLimits.{with_padding, with_value};
ghost use Rattle.dbus_value_model.specs.Bytes.{num};
ghost use Rattle.dbus_value_model.specs.Values.{TextValue};
ghost use Rattle.dbus_value_model.specs.declared.order.Order.{Order};
ghost use Rattle.dbus_body.specs.Arrays.{IsTextRefused};

use crate::put_fault::PutFault;
use dbus_marshal::writing::write_unpadded;
use dbus_value_model::{Order, gap};
use std::alloc::{AllocError, Allocator};

/// Appends zeros up to the next multiple of `alignment`.
#[tactic(auto, using(dbus_value_model::proofs::Periods::gap_below), unfolding(dbus_value_model::specs::SizeLimits::with_padding))]
pub(crate) fn put_padding<A: Allocator>(
    out: &mut Vec<u8, A>,
    alignment: u8,
) -> Result<(), AllocError>
    requires { 0 < alignment }
    ensures written { OnOk result (out.new.items ≡ with_padding alignment out.old.items) }
    ensures unchanged { OnErr result (out.new.items ≡ out.old.items) }
    ensures small { OnErr result (vec_capacity out.old < length (with_padding alignment out.old.items)) }
    ensures capacity { vec_capacity out.old ≤ vec_capacity out.new }
{
    let end = out.len() + gap(alignment, out.len());
    out.resize(end, 0)
}

/// Appends a number of `width` bytes, which is its alignment too, after its padding. `bits` are the
/// bytes of a signed number or a DOUBLE as those of an unsigned one, and 0 or 1 stand for a
/// BOOLEAN; higher bits are left out.
///
/// The width is 1, 2, 4 or 8, that of the type. The error is that an allocation failed, only if the
/// capacity was too small; then the bytes are as they were. D-Bus Specification, "Marshaling (Wire
/// Format)".
#[inline]
#[tactic(auto, using(dbus_marshal::proofs::Written::lengths, dbus_value_model::proofs::Periods::gap_below), unfolding(dbus_value_model::specs::SizeLimits::with_padding))]
pub fn put_number<A: Allocator>(
    out: &mut Vec<u8, A>,
    order: Order,
    width: u8,
    bits: u64,
) -> Result<(), AllocError>
    requires some { 0 < width }
    requires few { width ≤ 8 }
    ensures written { OnOk result
        (out.new.items ≡ with_padding width out.old.items ++ num order width bits) }
    ensures unchanged { OnErr result (out.new.items ≡ out.old.items) }
    ensures small { OnErr result
        (vec_capacity out.old < length (with_padding width out.old.items) + width) }
    ensures capacity { vec_capacity out.old ≤ vec_capacity out.new }
{
    let mut bytes = [0; 16];
    let end = write_unpadded(&mut bytes, gap(width, out.len()), order, width, bits);
    out.extend_from_slice(&bytes[..end])
}

/// Appends a STRING or an OBJECT_PATH: padding, the length of the text in four bytes, the text and
/// a zero byte. It does not check the text.
///
/// `TooLong` exactly if the text has 4,294,967,296 bytes or more. `Memory` if an allocation failed,
/// only if the capacity was too small. After an error the bytes are as they were. D-Bus
/// Specification, "Marshaling (Wire Format)".
#[tactic(auto, using(dbus_marshal::proofs::Written::texts, dbus_value_model::proofs::Periods::gap_below))]
pub fn put_text<A: Allocator>(
    out: &mut Vec<u8, A>,
    order: Order,
    text: &[u8],
) -> Result<(), PutFault>
    ensures written { OnOk result
        (out.new.items ≡ with_value order (TextValue STRING text.now) out.old.items) }
    ensures fits { OnOk result (length text.now < 2 ^ 32) }
    ensures unchanged { OnErr result (out.new.items ≡ out.old.items) }
    ensures refused { IfErr result (IsTextRefused (2 ^ 32) (length text.now) (vec_capacity out.old)
        (length (with_value order (TextValue STRING text.now) out.old.items))) }
{
    if text.len() > u32::MAX as usize {
        return Err(PutFault::TooLong);
    }
    out.reserve(gap(4, out.len()) + 4 + text.len() + 1)?;
    put_number(out, order, 4, text.len() as u64)?;
    out.extend_from_slice(text)?;
    out.push_reserved(0);
    Ok(())
}

/// Appends a SIGNATURE, or what comes before the value in a variant: the length of the text in one
/// byte, the text and a zero byte, which are the same in either byte order. It does not check the
/// text.
///
/// `TooLong` exactly if the text has more than 255 bytes. `Memory` if an allocation failed, only if
/// the capacity was too small. After an error the bytes are as they were. D-Bus Specification,
/// "Marshaling (Wire Format)".
#[tactic(auto, using(dbus_marshal::proofs::Written::texts))]
pub fn put_signature<A: Allocator>(out: &mut Vec<u8, A>, text: &[u8]) -> Result<(), PutFault>
    ensures written { (order : Order) → OnOk result
        (out.new.items ≡ with_value order (TextValue SIGNATURE text.now) out.old.items) }
    ensures fits { OnOk result (length text.now < 256) }
    ensures unchanged { OnErr result (out.new.items ≡ out.old.items) }
    ensures refused { IfErr result (IsTextRefused 256 (length text.now) (vec_capacity out.old)
        (length out.old.items + length text.now + 2)) }
{
    if text.len() > 255 {
        return Err(PutFault::TooLong);
    }
    out.reserve(text.len() + 2)?;
    out.push_reserved(text.len() as u8);
    out.extend_from_slice(text)?;
    out.push_reserved(0);
    Ok(())
}

/// Appends the padding before a struct or a dict entry, whose fields come next.
///
/// The error is that an allocation failed, only if the capacity was too small; then the bytes are
/// as they were. D-Bus Specification, "Marshaling (Wire Format)".
#[tactic(auto, using(dbus_value_model::proofs::Periods::gap_below), unfolding(dbus_value_model::specs::SizeLimits::with_padding))]
pub fn begin_struct<A: Allocator>(out: &mut Vec<u8, A>) -> Result<(), AllocError>
    ensures written { OnOk result (out.new.items ≡ with_padding 8 out.old.items) }
    ensures unchanged { OnErr result (out.new.items ≡ out.old.items) }
    ensures small { OnErr result (vec_capacity out.old < length (with_padding 8 out.old.items)) }
{
    put_padding(out, 8)
}
