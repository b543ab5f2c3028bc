//! Texts known by a quick look: ASCII, by blocks of sixteen bytes, paths and names, and signatures
//! of one code.
#![tactic(auto)]

ghost use Rattle.std.specs.Prelude.{◌≡◌, ◌+◌, ◌≤◌, length, take, drop, IsTrue};
ghost use Rattle.std.specs.List.{AllByRecursion};
ghost use Rattle.std.specs.Int.{IsInRange};
ghost use Rattle.dbus_texts.specs.Kinds.{IsKind};

use crate::basic::is_basic;
use dbus_texts::is_name_at_once;
use dbus_types::TextKind;
use std::simd::prelude::*;

/// How many bytes a block has.
const BLOCK: usize = 16;

/// Whether each byte of the block from a lane on is from 1 to 127.
#[inline]
fn is_plain_from(block: u8x16, lane: usize) -> bool
    requires { lane ≤ 16 }
    ensures { IsTrue result → AllByRecursion (IsInRange 1 127) (drop lane block) }
{
    let others = (block - u8x16::splat(1))
        .simd_ge(u8x16::splat(127))
        .to_bitmask();
    others >> lane == 0
}

/// Whether each of n bytes is from 1 to 127, as far as a quick look shows: a no says nothing. The
/// last block ends with them, so that no byte after them is looked at.
fn is_plain(bytes: &[u8], start: usize, n: usize) -> bool
    requires { start + n ≤ length bytes.now }
    ensures { IsTrue result → AllByRecursion (IsInRange 1 127) (take n (drop start bytes.now)) }
{
    let end = start + n;
    if end < BLOCK {
        return false;
    }
    let mut at = start;
    while end - at > BLOCK {
        if !is_plain_from(u8x16::from_slice(&bytes[at..]), 0) {
            return false;
        }
        at += BLOCK;
    }
    let last = end - BLOCK;
    is_plain_from(u8x16::from_slice(&bytes[last..]), at - last)
}

/// Whether n bytes are a text of the kind, as far as a quick look shows: it knows most texts of
/// ASCII, paths and names, and signatures of no type or of one basic type. A no says nothing.
#[inline]
pub(crate) fn is_seen_at_once(kind: TextKind, bytes: &[u8], start: usize, n: usize) -> bool
    requires { start + n ≤ length bytes.now }
    ensures { IsTrue result → IsKind kind (take n (drop start bytes.now)) }
{
    match kind {
        TextKind::Text => is_plain(bytes, start, n),
        TextKind::Signature => n == 0 || n == 1 && is_basic(bytes[start]),
        TextKind::Single => n == 1 && is_basic(bytes[start]),
        _ => is_name_at_once(kind, &bytes[..start + n], start),
    }
}
