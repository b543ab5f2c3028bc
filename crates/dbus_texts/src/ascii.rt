//! The ASCII that a text begins with.
#![tactic(auto)]

ghost use Rattle.std.specs.Prelude.{◌≤◌, length, take, IsTrue};
ghost use Rattle.std.specs.List.{AllByRecursion};
ghost use Rattle.std.specs.Int.{IsInRange};

use std::simd::prelude::*;

/// Whether each byte of the block is from 1 to 127.
fn is_plain(block: u8x64) -> bool
    ensures { IsTrue result → AllByRecursion (IsInRange 1 127) block }
{
    (block - u8x64::splat(1))
        .simd_ge(u8x64::splat(127))
        .to_bitmask()
        == 0
}

/// The same of a short block.
fn is_plain_short(block: u8x16) -> bool
    ensures { IsTrue result → AllByRecursion (IsInRange 1 127) block }
{
    (block - u8x16::splat(1))
        .simd_ge(u8x16::splat(127))
        .to_bitmask()
        == 0
}

/// The length of whole blocks at the start in which each byte is from 1 to 127.
fn plain_blocks(text: &[u8]) -> usize
    ensures within { result ≤ length text.now }
    ensures plain { AllByRecursion (IsInRange 1 127) (take result text.now) }
{
    let mut at = 0;
    while text.len() - at >= 64 {
        if !is_plain(u8x64::from_slice(&text[at..])) {
            break;
        }
        at += 64;
    }
    at
}

/// The same, with the short blocks after them.
fn plain_short_blocks(text: &[u8]) -> usize
    ensures within { result ≤ length text.now }
    ensures plain { AllByRecursion (IsInRange 1 127) (take result text.now) }
{
    let mut at = plain_blocks(text);
    while text.len() - at >= 16 {
        if !is_plain_short(u8x16::from_slice(&text[at..])) {
            break;
        }
        at += 16;
    }
    at
}

/// The length of a prefix in which each byte is from 1 to 127: of the whole text, if all its bytes
/// are.
pub fn plain_prefix(text: &[u8]) -> usize
    ensures within { result ≤ length text.now }
    ensures plain { AllByRecursion (IsInRange 1 127) (take result text.now) }
{
    let mut at = plain_short_blocks(text);
    while at < text.len() {
        if !matches!(text[at], 1..=127) {
            break;
        }
        at += 1;
    }
    at
}
