//! Values that are one number. D-Bus Specification, "Basic types", "Marshaling (Wire Format)".
#![tactic(auto)]

ghost use Rattle.std.specs.Prelude.{◌≡◌, ℕ, ◌+◌, ◌<◌, ◌≤◌, length, take, drop, Option, IfSome};
ghost use Rattle.dbus_texts.specs.Types.{NumberCode, BOOLEAN, UNIX_FD};
ghost use Rattle.dbus_types.specs.Alignments.{width};
ghost use Rattle.dbus_value_model.specs.Bytes.{gap_to};
ghost use Rattle.dbus_value_model.specs.Reading.{number_of};
ghost use Rattle.dbus_value_model.specs.declared.order.Order.{Order};
ghost use Rattle.dbus_value_model.specs.ValueReaders.{number_value, IsFree};
ghost use Rattle.dbus_value_validator.specs.Endings.{Answers};

use crate::items::{padding, word};
use dbus_value_model::Order;

/// A number of `size` bytes, of a type of which every number is valid: the offset after it.
#[inline]
pub(crate) fn free_number(bytes: &[u8], at: usize, end: usize, size: u8) -> Option<usize>
    requires some { 0 < size }
    requires at_most { at ≤ end }
    requires inside { end ≤ length bytes.now }
    ensures gives { (index_limit : Option ℕ) (order : Order) (k : NumberCode) →
        width k ≡ size → IsFree index_limit k →
        Answers bytes.now result (number_value index_limit order end k at (drop at bytes.now)) }
    ensures moves { IfSome result (λ q. (at ≤ q) × (q ≤ end)) }
{
    let start = padding(bytes, at, end, size)?;
    let size = usize::from(size);
    if end - start < size {
        return None;
    }
    Some(start + size)
}

/// A BOOLEAN, which is 0 or 1: the offset after it.
pub(crate) fn boolean(bytes: &[u8], at: usize, end: usize, order: Order) -> Option<usize>
    requires at_most { at ≤ end }
    requires inside { end ≤ length bytes.now }
    ensures gives { (index_limit : Option ℕ) →
        Answers bytes.now result
        (number_value index_limit order end BOOLEAN at (drop at bytes.now)) }
    ensures moves { IfSome result (λ q. (at ≤ q) × (q ≤ end)) }
{
    let start = padding(bytes, at, end, 4)?;
    let n = word(bytes, start, end, order)?;
    if n > 1 {
        return None;
    }
    Some(start + 4)
}

/// Where an array's BOOLEANs end, which begin at a boundary: the offset after the words that are
/// each 0 or 1, as many as end at or before `end`, up to which the bytes are there. D-Bus
/// Specification, "Marshaling (Wire Format)".
pub fn booleans_end(bytes: &[u8], at: usize, end: usize, order: Order) -> usize
    requires at_most { at ≤ end }
    requires inside { end ≤ length bytes.now }
    requires begins { gap_to 4 at ≡ 0 }
    ensures whole { gap_to 4 result ≡ 0 }
    ensures few { (p : ℕ) → at ≤ p → gap_to 4 p ≡ 0 → p + 4 ≤ result →
        number_of order (take 4 (drop p bytes.now)) ≤ 1 }
    ensures most { result + 4 ≤ end → 1 < number_of order (take 4 (drop result bytes.now)) }
    ensures moves { (at ≤ result) × (result ≤ end) }
{
    let mut place = at;
    while end - place >= 4 && order.u32_at(bytes, place) <= 1 {
        place += 4;
    }
    place
}

/// A UNIX_FD, which is below `index_limit`, if that is something: the offset after it.
pub(crate) fn descriptor(
    bytes: &[u8],
    at: usize,
    end: usize,
    order: Order,
    index_limit: Option<u32>,
) -> Option<usize>
    requires at_most { at ≤ end }
    requires inside { end ≤ length bytes.now }
    ensures gives { Answers bytes.now result
        (number_value index_limit order end UNIX_FD at (drop at bytes.now)) }
    ensures moves { IfSome result (λ q. (at ≤ q) × (q ≤ end)) }
{
    let start = padding(bytes, at, end, 4)?;
    let n = word(bytes, start, end, order)?;
    if let Some(limit) = index_limit {
        if n >= limit {
            return None;
        }
    }
    Some(start + 4)
}
