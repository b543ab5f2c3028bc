//! Arrays, whose length is written once their elements are.
#![tactic(auto, using(dbus_marshal::proofs::Written::lengths, dbus_value_model::proofs::Periods::gap_below))]

ghost use Rattle.std.specs.Prelude.{◌≡◌, ◌<◌, length, vec_capacity, OnOk, OnErr, IfOk, IfErr};
ghost use Rattle.dbus_body.specs.Arrays.{IsOpen, closed, opened, place_of, IsArrayRefused, IsLengthWritten};

use crate::put_fault::PutFault;
use crate::putting::put_padding;
use dbus_marshal::writing::overwrite_32;
use dbus_value_model::{Order, gap};
use std::alloc::{AllocError, Allocator};

/// The place of an array whose elements are still to come.
#[derive(Clone, Copy, PartialEq, Eq, Debug, Drop)]
pub struct OpenArray {
    /// The offset of the four bytes of its length.
    pub length_at: usize,
    /// The offset of its first element.
    pub start: usize,
}

/// Appends what comes before the elements of an array: padding, four zero bytes for the length, and
/// the padding before an element of this alignment, also if there is none. The alignment is 1, 2, 4
/// or 8, that of the elements' type.
///
/// The error is that an allocation failed, only if the capacity was too small; then the bytes are
/// as they were. D-Bus Specification, "Marshaling (Wire Format)".
///
/// ```rust
/// use dbus_body::{close_array, open_array, put_text};
/// use dbus_value::Order;
///
/// let mut body = Vec::new(alloc);
/// let names = open_array(&mut body, 4)?;
/// for name in ["org.example.A", "org.example.B"] {
///     put_text(&mut body, Order::Little, name.as_bytes())?;
/// }
/// close_array(body.as_mut_slice(), Order::Little, names)?;
/// println!(rt; "{} bytes of the type as", body.len())?;
/// ```
pub fn open_array<A: Allocator>(
    out: &mut Vec<u8, A>,
    alignment: u8,
) -> Result<OpenArray, AllocError>
    requires { 0 < alignment }
    ensures opened { OnOk result (out.new.items ≡ opened alignment out.old.items) }
    ensures place { IfOk result (λ a. a ≡ place_of alignment out.old.items) }
    ensures unchanged { OnErr result (out.new.items ≡ out.old.items) }
    ensures small { OnErr result (vec_capacity out.old < length (opened alignment out.old.items)) }
{
    let end = out.len() + gap(4, out.len()) + 4;
    out.reserve(end - out.len() + gap(alignment, end))?;
    put_padding(out, 4)?;
    let length_at = out.len();
    out.extend_from_slice(&[0; 4])?;
    put_padding(out, alignment)?;
    Ok(OpenArray {
        length_at,
        start: out.len(),
    })
}

/// Writes the length of the array that was opened at this place: the number of bytes from its first
/// element to the end.
///
/// `TooLong` if these are 4,294,967,296 bytes or more. `NotOpen` if the place does not lie within
/// the bytes. After an error the bytes are as they were. It allocates nothing. D-Bus Specification,
/// "Marshaling (Wire Format)".
pub fn close_array(out: &mut [u8], order: Order, array: OpenArray) -> Result<(), PutFault>
    ensures closed { OnOk result (out.new ≡ closed order array out.old) }
    ensures written { OnOk result (IsLengthWritten array out.old) }
    ensures unchanged { OnErr result (out.new ≡ out.old) }
    ensures refused { IfErr result (IsArrayRefused array out.old) }
{
    if array.start > out.len() || array.start < 4 || array.start - 4 < array.length_at {
        return Err(PutFault::NotOpen);
    }
    let length = out.len() - array.start;
    if length > u32::MAX as usize {
        return Err(PutFault::TooLong);
    }
    overwrite_32(out, array.length_at, order, length as u32);
    Ok(())
}
