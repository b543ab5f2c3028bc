//! Numbers, padding and texts stored from a place on, in bytes that have room for them.
//!
//! The bytes begin at the message's first one. Each function takes the place where what it writes
//! begins, and gives the place where that ends; what is before the place stays. D-Bus
//! Specification, "Marshaling (Wire Format)".
#![tactic(auto, using(crate::proofs::Written::lengths))]

ghost use Rattle.std.specs.Prelude.{◌≡◌, ◌+◌, ◌-◌, ◌<◌, ◌≤◌, ◌∷◌, [], ◌++◌, length, replicate, take, drop};
ghost use Rattle.dbus_texts.specs.Types.{STRING, SIGNATURE};
ghost use Rattle.dbus_value_model.specs.SizeLimits.{with_padding, with_value};
ghost use Rattle.dbus_value_model.specs.Bytes.{num};
ghost use Rattle.dbus_value_model.specs.Values.{TextValue};

use dbus_value_model::{Order, gap};

/// Puts these bytes over those at `at`.
#[inline]
fn overwrite(out: &mut [u8], at: usize, bytes: &[u8])
    requires { at + length bytes.now ≤ length out.old }
    ensures { out.new ≡
        take at out.old ++ (bytes.now ++ drop (at + length bytes.now) out.old) }
{
    out[at..at + bytes.len()].copy_from_slice(bytes);
}

/// Writes these bytes.
#[inline]
pub(crate) fn write_bytes(out: &mut [u8], at: usize, bytes: &[u8]) -> usize
    requires space { at + length bytes.now ≤ length out.old }
    ensures written { take result out.new ≡ take at out.old ++ bytes.now }
    ensures ends { result ≡ at + length bytes.now }
{
    overwrite(out, at, bytes);
    at + bytes.len()
}

/// Writes one byte.
#[inline]
pub fn write_byte(out: &mut [u8], at: usize, byte: u8) -> usize
    requires space { at + 1 ≤ length out.old }
    ensures written { take result out.new ≡ take at out.old ++ byte ∷ [] }
    ensures ends { result ≡ at + 1 }
{
    out[at] = byte;
    at + 1
}

/// Writes zeros from `at` up to `end`, eight at once if there is room for them: what is after `end`
/// may change.
#[inline]
fn write_zeros(out: &mut [u8], at: usize, end: usize)
    requires start { at ≤ end }
    requires space { end ≤ length out.old }
    ensures written { take end out.new ≡ take at out.old ++ replicate (end - at) 0 }
{
    if end - at <= 8 && out.len() - at >= 8 {
        overwrite(out, at, &[0; 8]);
        return;
    }
    for place in at..end {
        out[place] = 0;
    }
}

/// Writes zeros up to the next multiple of `alignment`.
#[inline]
#[tactic(auto, using(crate::proofs::Written::lengths), unfolding(dbus_value_model::specs::SizeLimits::with_padding))]
pub fn write_padding(out: &mut [u8], at: usize, alignment: u8) -> usize
    requires positive { 0 < alignment }
    requires start { at ≤ length out.old }
    requires space { length (with_padding alignment (take at out.old)) ≤ length out.old }
    ensures written { take result out.new ≡ with_padding alignment (take at out.old) }
    ensures within { result ≤ length out.new }
{
    let end = at + gap(alignment, at);
    write_zeros(out, at, end);
    end
}

/// Writes the four bytes of a number, without padding.
#[inline]
pub fn write_32(out: &mut [u8], at: usize, order: Order, n: u32) -> usize
    requires space { at + 4 ≤ length out.old }
    ensures written { take result out.new ≡ take at out.old ++ num order 4 n }
    ensures ends { result ≡ at + 4 }
{
    overwrite_32(out, at, order, n);
    at + 4
}

/// Writes a number of `width` bytes, without padding.
#[inline(always)]
#[tactic(auto, using(crate::proofs::Written::lengths, crate::proofs::Written::low_bytes, crate::proofs::Written::high_bytes))]
pub fn write_unpadded(out: &mut [u8], at: usize, order: Order, width: u8, n: u64) -> usize
    requires few { width ≤ 8 }
    requires space { at + width ≤ length out.old }
    ensures written { take result out.new ≡ take at out.old ++ num order width n }
    ensures ends { result ≡ at + width }
{
    let count = usize::from(width);
    match order {
        Order::Little => write_bytes(out, at, &u64::to_le_bytes(n)[..count]),
        Order::Big => write_bytes(out, at, &u64::to_be_bytes(n)[8 - count..]),
    }
}

/// Writes a number of `width` bytes, with the padding before it. The width is its alignment too.
#[inline(always)]
pub fn write_number(out: &mut [u8], at: usize, order: Order, width: u8, n: u64) -> usize
    requires some { 0 < width }
    requires few { width ≤ 8 }
    requires start { at ≤ length out.old }
    requires space { length (with_padding width (take at out.old)) + width ≤ length out.old }
    ensures written { take result out.new ≡
        with_padding width (take at out.old) ++ num order width n }
    ensures within { result ≤ length out.new }
{
    let place = write_padding(out, at, width);
    write_unpadded(out, place, order, width, n)
}

/// Writes the text of a STRING or an OBJECT_PATH: padding, its length in four bytes, itself and a
/// zero byte.
#[tactic(auto, using(crate::proofs::Written::texts))]
pub fn write_text(out: &mut [u8], at: usize, order: Order, text: &[u8]) -> usize
    requires start { at ≤ length out.old }
    requires space { length (with_value order (TextValue STRING text.now) (take at out.old)) ≤
        length out.old }
    ensures written { take result out.new ≡
        with_value order (TextValue STRING text.now) (take at out.old) }
    ensures within { result ≤ length out.new }
{
    let place = write_number(out, at, order, 4, text.len() as u64);
    let place = write_bytes(out, place, text);
    write_byte(out, place, 0)
}

/// Writes the text of a SIGNATURE: its length in one byte, itself and a zero byte. It is the same
/// in either byte order.
#[tactic(auto, using(crate::proofs::Written::texts))]
pub fn write_signature(out: &mut [u8], at: usize, text: &[u8]) -> usize
    requires space { at + length text.now + 2 ≤ length out.old }
    requires fits { length text.now < 256 }
    ensures written { (order : Order) →
        take result out.new ≡ with_value order (TextValue SIGNATURE text.now) (take at out.old) }
    ensures ends { result ≡ at + length text.now + 2 }
{
    let place = write_byte(out, at, text.len() as u8);
    let place = write_bytes(out, place, text);
    write_byte(out, place, 0)
}

/// Writes a number over the four bytes at `at`, and leaves the others as they are.
#[inline]
#[tactic(auto, using(dbus_value_model::proofs::Numbers::numbers))]
pub fn overwrite_32(out: &mut [u8], at: usize, order: Order, n: u32)
    requires there { at + 4 ≤ length out.old }
    ensures written { out.new ≡ take at out.old ++ (num order 4 n ++ drop (at + 4) out.old) }
{
    match order {
        Order::Little => overwrite(out, at, &u32::to_le_bytes(n)),
        Order::Big => overwrite(out, at, &u32::to_be_bytes(n)),
    }
}
