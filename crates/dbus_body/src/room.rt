//! The same calls over the caller's bytes, which do not grow. D-Bus Specification, "Marshaling
//! (Wire Format)".
//!
//! What is spelled is in `out` from its first byte up to `at`. Each call returns the new end; the
//! bytes after that may have changed. If `at` or that end is past the end of `out`, it returns
//! nothing, and `out` stays as it was. [`crate::close_array`] closes an array, in the bytes up to
//! the end of its elements.
#![tactic(auto, using(dbus_marshal::proofs::Written::lengths, dbus_value_model::proofs::Periods::gap_below))]

ghost use Rattle.std.specs.Prelude.{◌≡◌, ◌+◌, ◌<◌, ◌≤◌, ◌^◌, ◌++◌, List, ℕ, length, take, Some, None, MatchOption, IsTrue, IsFalse};
ghost use Rattle.dbus_texts.specs.Types.{STRING, SIGNATURE};
ghost use Rattle.dbus_value_model.specs.SizeLimits.{with_padding, with_value};
ghost use Rattle.dbus_value_model.specs.Bytes.{num};
ghost use Rattle.dbus_value_model.specs.Values.{TextValue};
ghost use Rattle.dbus_value_model.specs.declared.order.Order.{Order};
ghost use Rattle.dbus_body.specs.Arrays.{opened, place_of, Puts};

use crate::arrays::OpenArray;
use dbus_marshal::writing::{write_number, write_padding, write_signature, write_text};
use dbus_value_model::{Order, gap};

/// Whether so many bytes fit after the first `at`.
fn fits(out: &[u8], at: usize, count: usize) -> bool
    ensures fits { IsTrue result → at + count ≤ length out.now }
    ensures not { IsFalse result → at ≤ length out.now → length out.now < at + count }
{
    at <= out.len() && count <= out.len() - at
}

/// Puts a number of `width` bytes, as [`crate::put_number`] does.
pub fn number_in(out: &mut [u8], at: usize, order: Order, width: u8, bits: u64) -> Option<usize>
    requires some { 0 < width }
    requires few { width ≤ 8 }
    ensures { Puts (λ (front : List ℕ). with_padding width front ++ num order width bits) at out.old result out.new }
{
    if !fits(out, at, gap(width, at) + usize::from(width)) {
        return None;
    }
    Some(write_number(out, at, order, width, bits))
}

/// Puts a STRING or an OBJECT_PATH of fewer than 4,294,967,296 bytes, as [`crate::put_text`] does.
#[tactic(auto, using(dbus_marshal::proofs::Written::texts, dbus_value_model::proofs::Periods::gap_below))]
pub fn text_in(out: &mut [u8], at: usize, order: Order, text: &[u8]) -> Option<usize>
    requires { length text.now < 2 ^ 32 }
    ensures { Puts (with_value order (TextValue STRING text.now)) at out.old result out.new }
{
    if !fits(out, at, gap(4, at) + 4 + text.len() + 1) {
        return None;
    }
    Some(write_text(out, at, order, text))
}

/// Puts a SIGNATURE of at most 255 bytes, as [`crate::put_signature`] does.
#[tactic(auto, using(dbus_marshal::proofs::Written::texts))]
pub fn signature_in(out: &mut [u8], at: usize, text: &[u8]) -> Option<usize>
    requires { length text.now < 256 }
    ensures { (order : Order) → Puts (with_value order (TextValue SIGNATURE text.now)) at out.old result out.new }
{
    if !fits(out, at, text.len() + 2) {
        return None;
    }
    Some(write_signature(out, at, text))
}

/// Puts the padding before a struct or a dict entry, as [`crate::begin_struct`] does.
pub fn struct_in(out: &mut [u8], at: usize) -> Option<usize>
    ensures { Puts (with_padding 8) at out.old result out.new }
{
    if !fits(out, at, gap(8, at)) {
        return None;
    }
    Some(write_padding(out, at, 8))
}

/// Puts what comes before the elements of an array, as [`crate::open_array`] does, and returns its
/// place: its elements begin at the end of these bytes.
pub fn array_in(out: &mut [u8], at: usize, alignment: u8) -> Option<OpenArray>
    requires { 0 < alignment }
    ensures { MatchOption result (Puts (opened alignment) at out.old None out.new)
        (λ a. (a ≡ place_of alignment (take at out.old)) × Puts (opened alignment) at out.old (Some a.start) out.new) }
{
    if !fits(out, at, gap(4, at) + 4) {
        return None;
    }
    let length_at = at + gap(4, at);
    if !fits(out, length_at + 4, gap(alignment, length_at + 4)) {
        return None;
    }
    let counted = write_number(out, at, Order::Little, 4, 0);
    let start = write_padding(out, counted, alignment);
    Some(OpenArray { length_at, start })
}
