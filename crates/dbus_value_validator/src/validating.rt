//! Values validated.
#![tactic(auto)]

ghost use Rattle.std.specs.Prelude.{◌≡◌, ◌≤◌, length, true, None, IfSome};
ghost use Rattle.dbus_texts.specs.Types.{TypeTree, TypeTrees, sig, sigs, IsShaped, AreShaped};
ghost use Rattle.dbus_value_validator.specs.Endings.{IsSpelledTo, AreSpelledTo, IsNotSpelled, AreNotSpelled};

use crate::ends::wants_lengths;
use crate::untrusted_bytes::UntrustedBytes;
use crate::values::{all_values, noted_values, own_value};
use dbus_value_model::{Bounds, Order};

/// The offset after values of the types that a signature spells, if the bytes spell such values.
///
/// `bytes` begin at the message's first byte, from which padding counts; the values begin at `at`
/// and end at or before `end`, and `depth_left` containers may be open at once in them. Some(after)
/// says that from `at` up to `after` the bytes spell values of exactly those types, within the
/// bounds: no array has more bytes than they allow, and each index of a file descriptor is below
/// their number, if there is one. None says that no such values begin at `at`: the bytes there are
/// at fault, or the values do not end at or before `end`. Of `types` that are no complete types
/// nothing is said. Nothing is allocated. D-Bus Specification, "Marshaling (Wire Format)".
pub fn validate_values(
    bytes: &[u8],
    at: usize,
    end: usize,
    order: Order,
    types: &[u8],
    depth_left: u8,
    bounds: Bounds,
) -> Option<usize>
    requires at_most { at ≤ end }
    requires inside { end ≤ length bytes.now }
    ensures spelled { IfSome result (λ after. (ts : TypeTrees) →
        sigs ts ≡ types.now → AreShaped ts →
        AreSpelledTo bounds order depth_left end ts at bytes.now after) }
    ensures none { result ≡ None → (ts : TypeTrees) → sigs ts ≡ types.now → AreShaped ts →
        AreNotSpelled bounds order depth_left end ts at bytes.now }
    ensures moves { IfSome result (λ after. (at ≤ after) × (after ≤ end)) }
{
    let source = UntrustedBytes {
        bytes,
        order,
        bounds,
        lengths: &[],
    };
    if wants_lengths(types) {
        return noted_values(&source, at, end, types, depth_left);
    }
    all_values(&source, at, end, types, 0, depth_left)
}

/// The offset after a value of the one type that a signature spells, if the bytes spell one: as
/// [`validate_values`] says of several. It may be a dict entry, as an array's element is. D-Bus
/// Specification, "Marshaling (Wire Format)".
pub fn validate_value(
    bytes: &[u8],
    at: usize,
    end: usize,
    order: Order,
    types: &[u8],
    depth_left: u8,
    bounds: Bounds,
) -> Option<usize>
    requires at_most { at ≤ end }
    requires inside { end ≤ length bytes.now }
    ensures spelled { IfSome result (λ after. (t : TypeTree) →
        sig t ≡ types.now → IsShaped true t →
        IsSpelledTo bounds order depth_left end t at bytes.now after) }
    ensures none { result ≡ None → (t : TypeTree) → sig t ≡ types.now → IsShaped true t →
        IsNotSpelled bounds order depth_left end t at bytes.now }
    ensures moves { IfSome result (λ after. (at ≤ after) × (after ≤ end)) }
{
    let source = UntrustedBytes {
        bytes,
        order,
        bounds,
        lengths: &[],
    };
    own_value(&source, at, end, types, depth_left)
}
