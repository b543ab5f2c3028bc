//! Items of values, passed over.
//!
//! `bytes` begin at the message's first byte, from which offsets count. An item begins at `at` and
//! is to end at or before `end`, up to which the bytes are there. None says that no such item
//! begins there, or that it does not end at or before `end`. D-Bus Specification, "Marshaling (Wire
//! Format)".
#![tactic(auto)]

ghost use Rattle.std.specs.Prelude.{◌≡◌, ℕ, ◌+◌, ◌<◌, ◌≤◌, length, take, drop, None, IfSome, IsTrue, false};
ghost use Rattle.dbus_value_model.specs.Bytes.{gap_to};
ghost use Rattle.dbus_value_model.specs.declared.order.Order.{Order};
ghost use Rattle.dbus_value_model.specs.Items.{no_row};
ghost use Rattle.dbus_value_model.specs.Reading.{Done, padding, number};
ghost use Rattle.dbus_value_validator.specs.Endings.{EndedText, IsNotRead};

use crate::plain::is_seen_at_once;
use dbus_types::{TextKind, text_break};
use dbus_value_model::{Order, gap};

/// The zeros up to the next multiple of `boundary`: the offset after them.
#[inline]
pub fn padding(bytes: &[u8], at: usize, end: usize, boundary: u8) -> Option<usize>
    requires some { 0 < boundary }
    requires at_most { at ≤ end }
    requires inside { end ≤ length bytes.now }
    ensures gives { IfSome result (λ q.
        padding boundary end at (drop at bytes.now) ≡ Done tt q (drop q bytes.now)) }
    ensures none { result ≡ None → IsNotRead (padding boundary end at (drop at bytes.now)) }
    ensures moves { IfSome result (λ q. (q ≡ at + gap_to boundary at) × (q ≤ end)) }
{
    let gap = gap(boundary, at);
    if end - at < gap {
        return None;
    }
    for i in at..at + gap {
        if bytes[i] != 0 {
            return None;
        }
    }
    Some(at + gap)
}

/// A number of four bytes.
#[inline]
pub fn word(bytes: &[u8], at: usize, end: usize, order: Order) -> Option<u32>
    requires at_most { at ≤ end }
    requires inside { end ≤ length bytes.now }
    ensures gives { IfSome result (λ n.
        number order 4 end no_row at (drop at bytes.now) ≡
        Done n (at + 4) (drop (at + 4) bytes.now)) }
    ensures none { result ≡ None → IsNotRead (number order 4 end no_row at (drop at bytes.now)) }
    ensures fits { IfSome result (λ n. at + 4 ≤ end) }
{
    if end - at < 4 {
        return None;
    }
    Some(order.u32_at(bytes, at))
}

/// A number of one byte.
#[inline]
pub(crate) fn byte(bytes: &[u8], at: usize, end: usize) -> Option<u8>
    requires at_most { at ≤ end }
    requires inside { end ≤ length bytes.now }
    ensures gives { IfSome result (λ n. (order : Order) →
        number order 1 end no_row at (drop at bytes.now) ≡
        Done n (at + 1) (drop (at + 1) bytes.now)) }
    ensures none { result ≡ None → (order : Order) →
        IsNotRead (number order 1 end no_row at (drop at bytes.now)) }
    ensures fits { IfSome result (λ n. at + 1 ≤ end) }
{
    if end == at {
        return None;
    }
    Some(bytes[at])
}

/// Whether n bytes are a text of a kind, and a zero follows it.
pub fn is_ended_text(bytes: &[u8], start: usize, n: usize, kind: TextKind) -> bool
    requires { start + n < length bytes.now }
    ensures accepts { IsTrue result → EndedText kind n start bytes.now }
    ensures refuses { result ≡ false → EndedText kind n start bytes.now → ⊥ }
{
    if bytes[start + n] != 0 {
        return false;
    }
    if is_seen_at_once(kind, bytes, start, n) {
        return true;
    }
    match text_break(kind, &bytes[start..start + n]) {
        None => true,
        Some(_) => false,
    }
}
