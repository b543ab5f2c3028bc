//! Copies of bytes that are mostly few.
#![tactic(auto)]

ghost use Rattle.std.specs.Prelude.{◌≡◌, ◌+◌, ◌≤◌, length};

use std::simd::prelude::*;

/// Copies bytes: the first N, and the last N, which may overlap them.
#[inline(always)]
fn copy_ends<const N: usize>(to: &mut [u8], from: &[u8])
    requires same { length to.old ≡ length from.now }
    requires some { N ≤ length from.now }
    requires few { length from.now ≤ N + N }
    ensures { to.new ≡ from.now }
{
    let rest = from.len() - N;
    let first: Simd<u8, N> = Simd::from_slice(from);
    let last: Simd<u8, N> = Simd::from_slice(&from[rest..]);
    first.copy_to_slice(to);
    last.copy_to_slice(&mut to[rest..]);
}

/// Copies bytes into others, as many: up to 64 of them in few instructions, without a call.
#[inline]
pub fn copy_bytes(to: &mut [u8], from: &[u8])
    requires same { length to.old ≡ length from.now }
    ensures { to.new ≡ from.now }
{
    match from.len() {
        0 => {}
        1..=3 => {
            let last = from.len() - 1;
            let middle = last / 2;
            to[0] = from[0];
            to[middle] = from[middle];
            to[last] = from[last];
        }
        4..=8 => copy_ends::<4>(to, from),
        9..=16 => copy_ends::<8>(to, from),
        17..=32 => copy_ends::<16>(to, from),
        33..=64 => copy_ends::<32>(to, from),
        _ => to.copy_from_slice(from),
    }
}
