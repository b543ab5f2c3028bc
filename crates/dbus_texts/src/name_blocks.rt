//! Texts in which each byte may be where it is in a name, by what the byte is and the one before
//! it: by blocks of sixteen bytes, each byte in a lane of its own.
//!
//! D-Bus Specification, "Valid Object Paths" and "Valid Names".
#![tactic(auto)]

ghost use Rattle.std.specs.Prelude.{◌≡◌, ℕ, ◌<◌, ◌≤◌, length, drop, get_or, IsTrue};
ghost use Rattle.dbus_texts.specs.NameScans.{may_follow, extra, first_digits, AreLinked};

use crate::names::Letters;
use std::simd::prelude::*;

/// The bit that a small letter has and its capital has not.
const SMALL: u8 = b'a' - b'A';

/// How many letters there are, small ones or capitals.
const LETTERS: u8 = 26;

/// How many digits there are.
const DIGITS: u8 = 10;

/// The mask in which each lane is marked.
const ALL: u64 = 0xffff;

impl Letters {
    /// `-` if an element may have it, else `_`, which each may have.
    #[inline(always)]
    fn extra(self) -> u8
        ensures { result ≡ extra self }
    {
        match self {
            Letters::Word | Letters::Name => b'_',
            Letters::Unique | Letters::WellKnown => b'-',
        }
    }

    /// How many of the digits may begin an element: all or none.
    #[inline(always)]
    fn first_digits(self) -> u8
        ensures { result ≡ first_digits self }
    {
        match self {
            Letters::Word | Letters::Unique => DIGITS,
            Letters::Name | Letters::WellKnown => 0,
        }
    }
}

/// Whether from a lane on each byte of the block may follow the byte at its place in the other, if
/// `separator` stands between elements.
#[inline(always)]
fn are_linked(separator: u8, letters: Letters, before: u8x16, block: u8x16, lane: usize) -> bool
    requires { lane ≤ 16 }
    ensures { IsTrue result → (i : ℕ) → lane ≤ i → i < 16 →
        IsTrue (may_follow separator letters (get_or before i 0) (get_or block i 0)) }
{
    let separators = u8x16::splat(separator);
    let starts = ((block | u8x16::splat(SMALL)) - u8x16::splat(b'a')).simd_lt(u8x16::splat(LETTERS))
        | block.simd_eq(u8x16::splat(b'_'))
        | block.simd_eq(u8x16::splat(letters.extra()));
    let digits = block - u8x16::splat(b'0');
    let goes_on = starts | digits.simd_lt(u8x16::splat(DIGITS)) | block.simd_eq(separators);
    let begins = before.simd_ne(separators)
        | (starts | digits.simd_lt(u8x16::splat(letters.first_digits())));
    (goes_on & begins).to_bitmask() >> lane == ALL >> lane
}

/// Whether each byte from `start` on, but the first, may follow the one before it, if `separator`
/// stands between elements. A no says nothing, since fewer than 17 bytes make no block. The last
/// block ends with the bytes, so bytes before `start` may be in it, of which nothing is asked.
#[inline(always)]
pub fn is_linked(separator: u8, letters: Letters, bytes: &[u8], start: usize) -> bool
    requires { start < length bytes.now }
    ensures { IsTrue result → AreLinked separator letters (drop start bytes.now) }
{
    if bytes.len() <= 16 {
        return false;
    }
    let last = bytes.len() - 17;
    let mut at = start;
    while at < last {
        if !are_linked(
            separator,
            letters,
            u8x16::from_slice(&bytes[at..]),
            u8x16::from_slice(&bytes[at + 1..]),
            0,
        ) {
            return false;
        }
        at += 16;
    }
    are_linked(
        separator,
        letters,
        u8x16::from_slice(&bytes[last..]),
        u8x16::from_slice(&bytes[last + 1..]),
        at - last,
    )
}
