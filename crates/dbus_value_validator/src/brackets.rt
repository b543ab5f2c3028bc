//! The brackets of structs in a signature's bytes. D-Bus Specification, "Container types".
#![tactic(auto)]

ghost use Rattle.std.specs.Prelude.{◌≡◌, ℕ, ◌+◌, ◌<◌, ◌≤◌, length, get_or};

use std::simd::prelude::*;

/// How many bytes a block has.
const BLOCK: usize = 32;

/// How many bytes in a row are this one, from the first of the block that begins at `at`.
fn repeats_in_block(types: &[u8], at: usize, code: u8) -> usize
    requires { at + 32 ≤ length types.now }
    ensures same { (k : ℕ) → k < result → get_or types.now (at + k) 0 ≡ code }
    ensures some { get_or types.now at 0 ≡ code → 0 < result }
{
    let others = u8x32::from_slice(&types[at..])
        .simd_ne(u8x32::splat(code))
        .to_bitmask();
    if others == 0 {
        BLOCK
    } else {
        others.trailing_zeros() as usize
    }
}

/// How many bytes in a row are this one, of which the first is at `at`, and at most so many.
pub(crate) fn repeats(types: &[u8], at: usize, code: u8, most: u8) -> u8
    requires inside { at < length types.now }
    requires first { get_or types.now at 0 ≡ code }
    requires any { 0 < most }
    ensures same { (k : ℕ) → k < result → get_or types.now (at + k) 0 ≡ code }
    ensures at_most { result ≤ most }
    ensures within { at + result ≤ length types.now }
    ensures some { 0 < result }
{
    // Most brackets stand alone.
    if at + 1 == types.len() || types[at + 1] != code {
        return 1;
    }
    let limit = usize::from(most).min(types.len() - at);
    if types.len() - at >= BLOCK {
        return repeats_in_block(types, at, code).min(limit) as u8;
    }
    for i in 0..limit {
        if types[at + i] != code {
            return i as u8;
        }
    }
    limit as u8
}
