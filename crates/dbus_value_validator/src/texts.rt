//! Values that are one text, and the signatures of variants. D-Bus Specification, "Marshaling (Wire
//! Format)".
#![tactic(auto)]

ghost use Rattle.std.specs.Prelude.{◌≡◌, ℕ, ◌+◌, ◌<◌, ◌≤◌, length, drop, None, IfSome};
ghost use Rattle.dbus_texts.specs.Types.{TextCode, SIGNATURE};
ghost use Rattle.dbus_types.specs.Alignments.{length_width};
ghost use Rattle.dbus_value_model.specs.declared.order.Order.{Order};
ghost use Rattle.dbus_value_model.specs.WantedTexts.{kind_of, Of};
ghost use Rattle.dbus_value_model.specs.ValueItems.{text_row};
ghost use Rattle.dbus_value_model.specs.Reading.{Done, number};
ghost use Rattle.dbus_value_model.specs.ValueReaders.{text_value};
ghost use Rattle.dbus_value_validator.specs.Endings.{Answers, EndedText};

use crate::items::{byte, is_ended_text, padding, word};
use dbus_types::TextKind;
use dbus_value_model::Order;

/// A text whose length has four bytes, that of a STRING or an OBJECT_PATH: the offset after it.
pub(crate) fn long_text(
    bytes: &[u8],
    at: usize,
    end: usize,
    order: Order,
    kind: TextKind,
) -> Option<usize>
    requires at_most { at ≤ end }
    requires inside { end ≤ length bytes.now }
    ensures gives { (k : TextCode) → kind_of k ≡ Of kind → length_width k ≡ 4 →
        Answers bytes.now result (text_value order end k at (drop at bytes.now)) }
    ensures moves { IfSome result (λ q. (at ≤ q) × (q ≤ end)) }
{
    let start = padding(bytes, at, end, 4)?;
    let n = word(bytes, start, end, order)? as usize;
    let first = start + 4;
    if end - first <= n {
        return None;
    }
    if !is_ended_text(bytes, first, n, kind) {
        return None;
    }
    Some(first + n + 1)
}

/// A text whose length has one byte, that of a SIGNATURE or of a variant: how many bytes it has.
pub fn short_text(bytes: &[u8], at: usize, end: usize, kind: TextKind) -> Option<usize>
    requires at_most { at ≤ end }
    requires inside { end ≤ length bytes.now }
    ensures measures { IfSome result (λ n. (order : Order) →
        number order 1 end (text_row end) at (drop at bytes.now) ≡
        Done n (at + 1) (drop (at + 1) bytes.now)) }
    ensures text { IfSome result (λ n. EndedText kind n (at + 1) bytes.now) }
    ensures none { result ≡ None → (order : Order) (n : ℕ) →
        number order 1 end (text_row end) at (drop at bytes.now) ≡
        Done n (at + 1) (drop (at + 1) bytes.now) →
        EndedText kind n (at + 1) bytes.now → ⊥ }
    ensures fits { IfSome result (λ n. (at + 1 + n + 1 ≤ end) × (n < 256)) }
{
    let n = usize::from(byte(bytes, at, end)?);
    let first = at + 1;
    if end - first <= n {
        return None;
    }
    if !is_ended_text(bytes, first, n, kind) {
        return None;
    }
    Some(n)
}

/// A SIGNATURE: the offset after it.
pub(crate) fn signature(bytes: &[u8], at: usize, end: usize) -> Option<usize>
    requires at_most { at ≤ end }
    requires inside { end ≤ length bytes.now }
    ensures gives { (order : Order) →
        Answers bytes.now result (text_value order end SIGNATURE at (drop at bytes.now)) }
    ensures moves { IfSome result (λ q. (at ≤ q) × (q ≤ end)) }
{
    let n = short_text(bytes, at, end, TextKind::Signature)?;
    Some(at + 1 + n + 1)
}
