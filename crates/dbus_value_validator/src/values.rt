//! Values of any type, along the bytes of their signature.
//!
//! A value begins at `at` and is to end at or before `end`, up to which the bytes are there;
//! `depth_left` containers may be opened in it. `types` are the bytes of its type, or of several,
//! and begin at `pos` of the signature of which lengths may be noted. Each call gives the offset
//! after what it validated, or None if the bytes do not begin with it. D-Bus Specification,
//! "Marshaling (Wire Format)".
#![tactic(auto)]

ghost use Rattle.std.specs.Prelude.{◌≡◌, ℕ, ◌+◌, ◌<◌, ◌≤◌, ◌^◌, length, drop, true, IfSome};
ghost use Rattle.dbus_texts.specs.Types.{TypeTree, TypeTrees, NoTypes, MoreTypes, sig, sigs, IsShaped, AreShaped};
ghost use Rattle.dbus_value_validator.specs.Endings.{Answers, AreNoted, value_in, values_in, elements_in, variant_in, array_in, entry_in};

use crate::arrays::frame;
use crate::basic::basic_value;
use crate::brackets::repeats;
use crate::ends::{end_of, is_container, wants_lengths};
use crate::items::padding;
use crate::numbers::{booleans_end, free_number};
use crate::texts::short_text;
use crate::untrusted_bytes::UntrustedBytes;
use dbus_types::{TextKind, boundary, free_width, lengths_in};

/// A value of the one type that `types` spell, which begin at `pos` of a signature whose lengths
/// are noted: what [`validate_value`](crate::validate_value) says, for a caller that has noted
/// them. Nothing is allocated.
#[cycle(values)]
pub fn one_value(
    source: &UntrustedBytes<'_>,
    at: usize,
    end: usize,
    types: &[u8],
    pos: usize,
    depth_left: u8,
) -> Option<usize>
    requires at_most { at ≤ end }
    requires inside { end ≤ length source.now.bytes.now }
    requires near { pos + length types.now < 2 ^ 64 }
    requires noted { AreNoted types.now source.now.lengths.now pos }
    ensures gives { (t : TypeTree) → sig t ≡ types.now → IsShaped true t →
        Answers source.now.bytes.now result (value_in source.now depth_left end t at) }
    ensures moves { IfSome result (λ q. (at ≤ q) × (q ≤ end)) }
{
    if types.is_empty() {
        return None;
    }
    let code = types[0];
    if code == b'v' {
        return variant(source, at, end, depth_left);
    }
    if code == b'a' {
        return array(source, at, end, &types[1..], pos + 1, depth_left);
    }
    if code == b'(' {
        return all_values(source, at, end, types, pos, depth_left);
    }
    if code == b'{' && types.len() > 1 {
        let inner = &types[1..types.len() - 1];
        return entry(source, at, end, inner, pos + 1, depth_left);
    }
    basic_value(source, at, end, code)
}

/// Values of the types that `types` spell, one after another.
#[cycle(values)]
pub(crate) fn all_values(
    source: &UntrustedBytes<'_>,
    at: usize,
    end: usize,
    types: &[u8],
    pos: usize,
    depth_left: u8,
) -> Option<usize>
    requires at_most { at ≤ end }
    requires inside { end ≤ length source.now.bytes.now }
    requires near { pos + length types.now < 2 ^ 64 }
    requires noted { AreNoted types.now source.now.lengths.now pos }
    ensures gives { (ts : TypeTrees) → sigs ts ≡ types.now → AreShaped ts →
        Answers source.now.bytes.now result (values_in source.now depth_left end ts at) }
    ensures moves { IfSome result (λ q. (at ≤ q) × (q ≤ end)) }
{
    let mut place = at;
    let mut first = 0;
    // How many structs are open. The last bytes only close them.
    let mut depth: u8 = 0;
    while first + usize::from(depth) < types.len() {
        let code = types[first];
        if code == b'(' {
            if depth == depth_left {
                return None;
            }
            // Structs that begin together are padded together.
            place = padding(source.bytes, place, end, 8)?;
            let more = repeats(types, first, code, depth_left - depth);
            depth += more;
            first += usize::from(more);
        } else if code == b')' {
            if depth == 0 {
                return None;
            }
            let closed = repeats(types, first, code, depth);
            depth -= closed;
            first += usize::from(closed);
        } else if code == b'a' {
            let next = end_of(types, first, source.lengths, pos);
            let whole = &types[first..next];
            let element = &whole[1..];
            place = array(
                source,
                place,
                end,
                element,
                pos + first + 1,
                depth_left - depth,
            )?;
            first = next;
        } else if code == b'v' {
            place = variant(source, place, end, depth_left - depth)?;
            first += 1;
        } else if code == b'y' {
            // Without a call, since no value takes fewer bytes of a message.
            place = free_number(source.bytes, place, end, 1)?;
            first += 1;
        } else {
            place = basic_value(source, place, end, code)?;
            first += 1;
        }
    }
    Some(place)
}

/// The same, with the lengths of the types noted first.
pub(crate) fn noted_values(
    source: &UntrustedBytes<'_>,
    at: usize,
    end: usize,
    types: &[u8],
    depth_left: u8,
) -> Option<usize>
    requires at_most { at ≤ end }
    requires inside { end ≤ length source.now.bytes.now }
    requires few { length types.now ≤ 255 }
    ensures gives { (ts : TypeTrees) → sigs ts ≡ types.now → AreShaped ts →
        Answers source.now.bytes.now result (values_in source.now depth_left end ts at) }
    ensures moves { IfSome result (λ q. (at ≤ q) × (q ≤ end)) }
{
    let mut table = [0; 255];
    let noted = UntrustedBytes {
        bytes: source.bytes,
        order: source.order,
        bounds: source.bounds,
        lengths: lengths_in(types, &mut table),
    };
    all_values(&noted, at, end, types, 0, depth_left)
}

/// A variant.
#[cycle(values)]
fn variant(source: &UntrustedBytes<'_>, at: usize, end: usize, depth_left: u8) -> Option<usize>
    requires at_most { at ≤ end }
    requires inside { end ≤ length source.now.bytes.now }
    ensures gives { Answers source.now.bytes.now result (variant_in source.now depth_left end at) }
    ensures moves { IfSome result (λ q. (at ≤ q) × (q ≤ end)) }
{
    if depth_left == 0 {
        return None;
    }
    let n = short_text(source.bytes, at, end, TextKind::Single)?;
    let first = at + 1;
    let code = source.bytes[first];
    if n == 1 && !is_container(code) {
        return basic_value(source, first + 2, end, code);
    }
    let held = &source.bytes[first..first + n];
    own_value(source, first + n + 1, end, held, depth_left - 1)
}

/// A value of the one type that `types` spell, which are a signature of their own.
#[cycle(values)]
pub(crate) fn own_value(
    source: &UntrustedBytes<'_>,
    at: usize,
    end: usize,
    types: &[u8],
    depth_left: u8,
) -> Option<usize>
    requires at_most { at ≤ end }
    requires inside { end ≤ length source.now.bytes.now }
    ensures gives { (t : TypeTree) → sig t ≡ types.now → IsShaped true t →
        Answers source.now.bytes.now result (value_in source.now depth_left end t at) }
    ensures moves { IfSome result (λ q. (at ≤ q) × (q ≤ end)) }
{
    // Of an array they are noted once it has elements.
    let is_array = matches!(types.first(), Some(b'a'));
    if !is_array && wants_lengths(types) {
        return noted_value(source, at, end, types, depth_left);
    }
    one_value(source, at, end, types, source.lengths.len(), depth_left)
}

/// The same, with the lengths of the types noted first.
#[cycle(values)]
fn noted_value(
    source: &UntrustedBytes<'_>,
    at: usize,
    end: usize,
    types: &[u8],
    depth_left: u8,
) -> Option<usize>
    requires at_most { at ≤ end }
    requires inside { end ≤ length source.now.bytes.now }
    requires few { length types.now ≤ 255 }
    ensures gives { (t : TypeTree) → sig t ≡ types.now → IsShaped true t →
        Answers source.now.bytes.now result (value_in source.now depth_left end t at) }
    ensures moves { IfSome result (λ q. (at ≤ q) × (q ≤ end)) }
{
    let mut table = [0; 255];
    let noted = UntrustedBytes {
        bytes: source.bytes,
        order: source.order,
        bounds: source.bounds,
        lengths: lengths_in(types, &mut table),
    };
    one_value(&noted, at, end, types, 0, depth_left)
}

/// An array, whose elements are of the one type that `types` spell.
#[cycle(values)]
fn array(
    source: &UntrustedBytes<'_>,
    at: usize,
    end: usize,
    types: &[u8],
    pos: usize,
    depth_left: u8,
) -> Option<usize>
    requires at_most { at ≤ end }
    requires inside { end ≤ length source.now.bytes.now }
    requires near { pos + length types.now < 2 ^ 64 }
    requires noted { AreNoted types.now source.now.lengths.now pos }
    ensures gives { (t : TypeTree) → sig t ≡ types.now → IsShaped true t →
        Answers source.now.bytes.now result (array_in source.now depth_left end t at) }
    ensures moves { IfSome result (λ q. (at ≤ q) × (q ≤ end)) }
{
    if depth_left == 0 || types.is_empty() {
        return None;
    }
    let code = types[0];
    let start = padding(source.bytes, at, end, 4)?;
    let (n, first) = frame(
        source.bytes,
        start,
        end,
        source.order,
        boundary(code),
        source.bounds,
    )?;
    let width = free_width(code);
    if width > 0 {
        return if n % usize::from(width) == 0 {
            Some(first + n)
        } else {
            None
        };
    }
    if n == 0 {
        return Some(first);
    }
    // BOOLEANs are known by their words. A no says nothing.
    let after = first + n;
    if code == b'b' && booleans_end(source.bytes, first, after, source.order) == after {
        return Some(after);
    }
    if source.lengths.len() <= pos && wants_lengths(types) {
        return noted_elements(source, first, n, types, depth_left - 1);
    }
    elements(source, first, n, types, pos, depth_left - 1)
}

/// Elements, up to the end of the next n bytes, with the lengths of the types in theirs noted
/// first.
#[cycle(values)]
fn noted_elements(
    source: &UntrustedBytes<'_>,
    at: usize,
    n: usize,
    types: &[u8],
    depth_left: u8,
) -> Option<usize>
    requires inside { at + n ≤ length source.now.bytes.now }
    requires few { length types.now ≤ 255 }
    ensures gives { (t : TypeTree) → sig t ≡ types.now → IsShaped true t →
        Answers source.now.bytes.now result (elements_in source.now n depth_left t at) }
    ensures ends { IfSome result (λ q. q ≡ at + n) }
{
    let mut table = [0; 255];
    let noted = UntrustedBytes {
        bytes: source.bytes,
        order: source.order,
        bounds: source.bounds,
        lengths: lengths_in(types, &mut table),
    };
    elements(&noted, at, n, types, 0, depth_left)
}

/// Elements of the one type that `types` spell, up to the end of the next n bytes.
#[cycle(values)]
fn elements(
    source: &UntrustedBytes<'_>,
    at: usize,
    n: usize,
    types: &[u8],
    pos: usize,
    depth_left: u8,
) -> Option<usize>
    requires inside { at + n ≤ length source.now.bytes.now }
    requires near { pos + length types.now < 2 ^ 64 }
    requires noted { AreNoted types.now source.now.lengths.now pos }
    ensures gives { (t : TypeTree) → sig t ≡ types.now → IsShaped true t →
        Answers source.now.bytes.now result (elements_in source.now n depth_left t at) }
    ensures ends { IfSome result (λ q. q ≡ at + n) }
{
    let end = at + n;
    let mut place = at;
    // An element has at least one byte.
    for _turn in 0..n {
        if place == end {
            return Some(end);
        }
        place = one_value(source, place, end, types, pos, depth_left)?;
    }
    if place == end { Some(end) } else { None }
}

/// A dict entry, whose key and value are of the two types that `types` spell.
#[cycle(values)]
fn entry(
    source: &UntrustedBytes<'_>,
    at: usize,
    end: usize,
    types: &[u8],
    pos: usize,
    depth_left: u8,
) -> Option<usize>
    requires at_most { at ≤ end }
    requires inside { end ≤ length source.now.bytes.now }
    requires near { pos + length types.now < 2 ^ 64 }
    requires noted { AreNoted types.now source.now.lengths.now pos }
    ensures gives { (k v : TypeTree) →
        sigs (MoreTypes k (MoreTypes v NoTypes)) ≡ types.now →
        AreShaped (MoreTypes k (MoreTypes v NoTypes)) →
        Answers source.now.bytes.now result (entry_in source.now depth_left end k v at) }
    ensures moves { IfSome result (λ q. (at ≤ q) × (q ≤ end)) }
{
    let start = padding(source.bytes, at, end, 8)?;
    all_values(source, start, end, types, pos, depth_left)
}
