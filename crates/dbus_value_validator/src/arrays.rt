//! What an array has besides its elements. D-Bus Specification, "Marshaling (Wire Format)".
#![tactic(auto)]

ghost use Rattle.std.specs.Prelude.{◌≡◌, ◌+◌, ◌<◌, ◌≤◌, length, drop, None, IfSome};
ghost use Rattle.dbus_texts.specs.Types.{TypeTree};
ghost use Rattle.dbus_types.specs.Alignments.{alignment_of};
ghost use Rattle.dbus_value_model.specs.Bytes.{gap_to};
ghost use Rattle.dbus_value_model.specs.Reading.{Done};
ghost use Rattle.dbus_value_model.specs.ValueReaders.{array_frame};
ghost use Rattle.dbus_value_validator.specs.Endings.{IsNotRead};

use crate::items::{padding, word};
use dbus_value_model::{Bounds, Order};

/// How many bytes the elements of an array have, whose type has this boundary, and the offset of
/// the first one. The padding before the length is passed over already.
pub(crate) fn frame(
    bytes: &[u8],
    at: usize,
    end: usize,
    order: Order,
    boundary: u8,
    bounds: Bounds,
) -> Option<(usize, usize)>
    requires some { 0 < boundary }
    requires at_most { at ≤ end }
    requires inside { end ≤ length bytes.now }
    ensures gives { IfSome result (λ x. (t : TypeTree) →
        boundary ≡ alignment_of t →
        array_frame bounds order end t at (drop at bytes.now) ≡ Done x.0 x.1 (drop x.1 bytes.now)) }
    ensures none { result ≡ None → (t : TypeTree) → boundary ≡ alignment_of t →
        IsNotRead (array_frame bounds order end t at (drop at bytes.now)) }
    ensures fits { IfSome result (λ x. (at ≤ x.1) × (x.1 + x.0 ≤ end)) }
    ensures begins { IfSome result (λ x. x.1 ≡ at + 4 + gap_to boundary (at + 4)) }
{
    let n = word(bytes, at, end, order)?;
    if n > bounds.array {
        return None;
    }
    let n = n as usize;
    let first = padding(bytes, at + 4, end, boundary)?;
    if end - first < n {
        return None;
    }
    Some((n, first))
}
