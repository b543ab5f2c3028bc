//! A body spelled value by value into the caller's bytes.
#![tactic(auto)]

ghost use Rattle.std.specs.Prelude.{◌≡◌, ◌≢◌, ◌<◌, ◌≤◌, ◌^◌, ◌++◌, List, ℕ, length, IsTrue};
ghost use Rattle.std.specs.Prelude.{IsFalse, MatchOption};
ghost use Rattle.dbus_texts.specs.Types.{STRING, SIGNATURE};
ghost use Rattle.dbus_value_model.specs.SizeLimits.{with_padding, with_value};
ghost use Rattle.dbus_value_model.specs.Bytes.{num};
ghost use Rattle.dbus_value_model.specs.Values.{TextValue};
ghost use Rattle.dbus_value_model.specs.declared.order.Order.{Order};
ghost use Rattle.dbus_body.specs.Arrays.{opened, place_of};
ghost use Rattle.dbus_c.specs.Outcomes.{order_named};
ghost use Rattle.dbus_c.specs.Writers.{Appends, Closes, Declines, IsTold, is_width, spelled};
ghost use Rattle.dbus_c.specs.Writers.{words_of};

use crate::answers::{NO_KIND, NO_ROOM, REFUSED, WHOLE};
use crate::swapping::order_of;
use dbus_body::room::{array_in, number_in, signature_in, struct_in, text_in};
use dbus_body::{OpenArray, close_array};

/// A body that is being spelled. To begin one, its length is 0.
#[repr(C)]
#[derive(Drop)]
pub struct WireWriter {
    /// The number of bytes that are spelled, from the first on.
    pub length: u64,
    /// The byte order: big if it is `B`, else little.
    pub order: u32,
    /// 0.
    pub reserved: u32,
}

/// The place of an array whose elements are still to come.
#[repr(C)]
#[derive(Drop)]
pub struct WireArray {
    /// The offset of the four bytes of its length.
    pub length_at: u64,
    /// The offset of its first element.
    pub start: u64,
}

// Notes where what is put ends, if it is.
fn put_to(writer: &mut WireWriter, end: Option<usize>) -> u32
    ensures { IsTold end writer.old result writer.new }
{
    match end {
        Some(end) => {
            writer.length = end as u64;
            WHOLE
        }
        None => NO_ROOM,
    }
}

// The width that a number names, if numbers have it.
fn width_named(number: u32) -> Option<u8>
    ensures { MatchOption result (IsFalse (is_width number))
        (λ w. (w ≡ number) × ((0 < w) × ((w ≤ 8) × IsTrue (is_width number)))) }
{
    match number {
        1 => Some(1),
        2 => Some(2),
        4 => Some(4),
        8 => Some(8),
        _ => None,
    }
}

/// Puts a number of `width` bytes, 1, 2, 4 or 8, after what is spelled, with the padding before it.
/// `bits` are the bytes of a signed number or a DOUBLE as those of an unsigned one, and 0 or 1
/// stand for a BOOLEAN; higher bits are left out.
///
/// [`WHOLE`] if it is put. [`NO_ROOM`] if `out` has fewer bytes than what would be spelled, and
/// [`NO_KIND`] if no number has this width; in these two cases all stays. The bytes of `out` after
/// what is put may change. It allocates nothing. D-Bus Specification, "Marshaling (Wire Format)".
#[unsafe(no_mangle)]
pub extern "C" fn dbus_wire_put_number(
    out: &mut [u8],
    writer: &mut WireWriter,
    width: u32,
    bits: u64,
) -> u32
    ensures put { IsTrue (is_width width) →
        Appends (λ (l : List ℕ). with_padding width l ++ num (order_named writer.old.order) width
        bits)
        writer.old out.old result writer.new out.new }
    ensures no_kind { IsFalse (is_width width) →
        Declines NO_KIND writer.old out.old result writer.new out.new }
{
    let width = match width_named(width) {
        Some(width) => width,
        None => return NO_KIND,
    };
    let order = order_of(writer.order);
    let end = number_in(out, writer.length as usize, order, width, bits);
    put_to(writer, end)
}

/// Puts a STRING or an OBJECT_PATH after what is spelled: padding, the length of the text in four
/// bytes, the text and a zero byte. It does not check the text.
///
/// [`WHOLE`] if it is put. [`NO_ROOM`] if `out` has fewer bytes than what would be spelled, and
/// [`REFUSED`] if the text has 4,294,967,296 bytes or more; in these two cases all stays. The bytes
/// of `out` after what is put may change. It allocates nothing. D-Bus Specification, "Marshaling
/// (Wire Format)".
#[unsafe(no_mangle)]
pub extern "C" fn dbus_wire_put_text(out: &mut [u8], writer: &mut WireWriter, text: &[u8]) -> u32
    ensures put { length text.now < 2 ^ 32 →
        Appends (with_value (order_named writer.old.order) (TextValue STRING text.now))
        writer.old out.old result writer.new out.new }
    ensures too_long { 2 ^ 32 ≤ length text.now →
        Declines REFUSED writer.old out.old result writer.new out.new }
{
    if text.len() > u32::MAX as usize {
        return REFUSED;
    }
    let order = order_of(writer.order);
    let end = text_in(out, writer.length as usize, order, text);
    put_to(writer, end)
}

/// Puts a SIGNATURE after what is spelled, or what comes before the value in a variant: the length
/// of the text in one byte, the text and a zero byte. It does not check the text.
///
/// [`WHOLE`] if it is put. [`NO_ROOM`] if `out` has fewer bytes than what would be spelled, and
/// [`REFUSED`] if the text has more than 255 bytes; in these two cases all stays. The bytes of
/// `out` after what is put may change. It allocates nothing. D-Bus Specification, "Marshaling (Wire
/// Format)".
#[unsafe(no_mangle)]
pub extern "C" fn dbus_wire_put_signature(
    out: &mut [u8],
    writer: &mut WireWriter,
    text: &[u8],
) -> u32
    ensures put { length text.now < 256 → (order : Order) →
        Appends (with_value order (TextValue SIGNATURE text.now))
        writer.old out.old result writer.new out.new }
    ensures too_long { 256 ≤ length text.now →
        Declines REFUSED writer.old out.old result writer.new out.new }
{
    if text.len() > 255 {
        return REFUSED;
    }
    let end = signature_in(out, writer.length as usize, text);
    put_to(writer, end)
}

/// Puts the padding before a struct or a dict entry after what is spelled. The fields come next.
///
/// [`WHOLE`] if it is put. [`NO_ROOM`] if `out` has fewer bytes than what would be spelled; then
/// all stays. The bytes of `out` after what is put may change. It allocates nothing. D-Bus
/// Specification, "Marshaling (Wire Format)".
#[unsafe(no_mangle)]
pub extern "C" fn dbus_wire_begin_struct(out: &mut [u8], writer: &mut WireWriter) -> u32
    ensures { Appends (with_padding 8) writer.old out.old result writer.new out.new }
{
    let end = struct_in(out, writer.length as usize);
    put_to(writer, end)
}

/// Puts what comes before the elements of an array after what is spelled, and writes its place:
/// padding, four bytes for the length, and the padding before an element of this alignment, 1, 2, 4
/// or 8, also if there is none.
///
/// [`WHOLE`] if it is put. [`NO_ROOM`] if `out` has fewer bytes than what would be spelled, and
/// [`NO_KIND`] if no type has this alignment; in these two cases all stays. The bytes of `out`
/// after what is put may change. It allocates nothing. D-Bus Specification, "Marshaling (Wire
/// Format)".
#[unsafe(no_mangle)]
pub extern "C" fn dbus_wire_open_array(
    out: &mut [u8],
    writer: &mut WireWriter,
    alignment: u32,
    array: &mut WireArray,
) -> u32
    ensures put { IsTrue (is_width alignment) →
        Appends (opened alignment) writer.old out.old result writer.new out.new }
    ensures no_kind { IsFalse (is_width alignment) →
        Declines NO_KIND writer.old out.old result writer.new out.new }
    ensures place { result ≡ WHOLE →
        array.new ≡ words_of (place_of alignment (spelled writer.old out.old)) }
    ensures unchanged { result ≢ WHOLE → array.new ≡ array.old }
{
    let alignment = match width_named(alignment) {
        Some(alignment) => alignment,
        None => return NO_KIND,
    };
    match array_in(out, writer.length as usize, alignment) {
        Some(place) => {
            *array = WireArray {
                length_at: place.length_at as u64,
                start: place.start as u64,
            };
            put_to(writer, Some(place.start))
        }
        None => NO_ROOM,
    }
}

/// Writes the length of the array that was opened at this place: the number of bytes from its first
/// element to the end of what is spelled.
///
/// [`WHOLE`] if it is written. [`REFUSED`] if the place does not lie within what is spelled, this
/// not within `out`, or the elements have 4,294,967,296 bytes or more; then all stays. It allocates
/// nothing. D-Bus Specification, "Marshaling (Wire Format)".
#[unsafe(no_mangle)]
pub extern "C" fn dbus_wire_close_array(
    out: &mut [u8],
    writer: &WireWriter,
    array: &WireArray,
) -> u32
    ensures { Closes writer.now array.now out.old result out.new }
{
    let length = writer.length as usize;
    if length > out.len() {
        return REFUSED;
    }
    let place = OpenArray {
        length_at: array.length_at as usize,
        start: array.start as usize,
    };
    match close_array(&mut out[..length], order_of(writer.order), place) {
        Ok(()) => WHOLE,
        Err(_) => REFUSED,
    }
}
