//! How far texts are plain.
#![tactic(auto)]

ghost use Rattle.std.specs.Prelude.{◌≡◌, ◌<◌, ◌≤◌, length, map, not};
ghost use lib.Lanes.{mask_l};
ghost use Rattle.std.specs.List.{prefix_len};
ghost use Rattle.dbus_show.specs.PlainFronts.{is_stop};

use std::simd::prelude::*;

/// At which bytes a run ends, beside those of ASCII that may be escaped.
#[derive(Clone, Copy)]
pub(crate) enum Beyond {
    /// At each that is not ASCII.
    Each,
    /// At those that begin hidden characters.
    Leads,
}

/// The bytes of a block at which a run ends, as a mask with a bit for each.
#[inline(always)]
fn stops_in<const N: usize>(block: Simd<u8, N>, beyond: Beyond) -> u64
    requires few { N ≤ 64 }
    requires whole { length block ≡ N }
    ensures { result ≡ mask_l (map (is_stop beyond) block.entry) }
{
    let low = block.simd_lt(Simd::splat(32));
    let marks = block.simd_eq(Simd::splat(b'"'))
        | block.simd_eq(Simd::splat(b'\\'))
        | block.simd_eq(Simd::splat(127));
    match beyond {
        // Those below 32 and beyond ASCII are one range for clang, if they are next to one another.
        Beyond::Each => (low | block.simd_gt(Simd::splat(127)) | marks).to_bitmask(),
        Beyond::Leads => {
            let leads = block.simd_eq(Simd::splat(0xc2))
                | block.simd_eq(Simd::splat(0xd8))
                | block.simd_eq(Simd::splat(0xe1))
                | block.simd_eq(Simd::splat(0xe2))
                | block.simd_eq(Simd::splat(0xef))
                | block.simd_eq(Simd::splat(0xf3));
            (low | leads | marks).to_bitmask()
        }
    }
}

/// How many bytes of a block come before the first one at which a run ends.
#[inline(always)]
fn plain_run<const N: usize>(block: Simd<u8, N>, beyond: Beyond) -> usize
    requires few { N ≤ 64 }
    requires whole { length block ≡ N }
    ensures { result ≡ prefix_len (λ b. not (is_stop beyond b)) block.entry }
{
    let mask = stops_in(block, beyond);
    if mask == 0 {
        N
    } else {
        mask.trailing_zeros() as usize
    }
}

/// How many bytes come before the first one at which a run ends, by blocks of N bytes. The last
/// block may have bytes of the one before.
#[inline(always)]
fn run_by<const N: usize>(bytes: &[u8], beyond: Beyond) -> usize
    requires some { 0 < N }
    requires few { N ≤ 64 }
    requires room { N ≤ length bytes.now }
    ensures { result ≡ prefix_len (λ b. not (is_stop beyond b)) bytes.now }
{
    let last = bytes.len() - N;
    let mut at = 0;
    while at < last {
        let run = plain_run::<N>(Simd::from_slice(&bytes[at..]), beyond);
        if run < N {
            return at + run;
        }
        at += N;
    }
    last + plain_run::<N>(Simd::from_slice(&bytes[last..]), beyond)
}

/// How many bytes come before the first one at which a run ends. No block has two bytes, since
/// clang 22 compiles masks of two lanes wrongly.
#[inline]
pub(crate) fn run_length(bytes: &[u8], beyond: Beyond) -> usize
    ensures { result ≡ prefix_len (λ b. not (is_stop beyond b)) bytes.now }
{
    match bytes.len() {
        0 => 0,
        1..=3 => run_by::<1>(bytes, beyond),
        4..=7 => run_by::<4>(bytes, beyond),
        8..=15 => run_by::<8>(bytes, beyond),
        _ => run_by::<16>(bytes, beyond),
    }
}
