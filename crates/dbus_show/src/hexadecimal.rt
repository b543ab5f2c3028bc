//! Bytes in hexadecimal.
#![tactic(auto)]

ghost use Rattle.std.specs.Prelude.{◌≡◌, ◌≤◌, ◌∷◌, [], length};
ghost use Rattle.hex.specs.Hex.{encode_lower};

use crate::copying::copy_bytes;
use crate::draft::Draft;
use std::simd::prelude::*;
use std::str;

/// The digits.
const DIGITS: [u8; 16] = *b"0123456789abcdef";

/// How many bytes' digits are made at once.
const BLOCK: usize = 16;

/// Appends the two lower case digits of a byte.
#[inline]
pub(crate) fn write_byte<D: Draft>(draft: &mut D, byte: u8)
    ensures { D.gains draft.old (encode_lower (byte ∷ [])) draft.new }
{
    let digits = [DIGITS[(byte / 16) as usize], DIGITS[(byte % 16) as usize]];
    // The digits are ASCII, so that they are text.
    draft.push_str(unsafe { str::from_utf8_unchecked(&digits) });
}

/// Two lower case digits for each byte.
#[inline(always)]
fn digits_of(block: u8x16) -> [u8; 2 * BLOCK]
    ensures { result ≡ encode_lower block }
{
    let table = u8x16::from_array(DIGITS);
    let high = table.swizzle_dyn(block >> u8x16::splat(4));
    let low = table.swizzle_dyn(block & u8x16::splat(15));
    let (first, second) = high.interleave(low);
    let mut digits = [0; 2 * BLOCK];
    first.copy_to_slice(&mut digits);
    second.copy_to_slice(&mut digits[BLOCK..]);
    digits
}

/// Appends the digits of bytes that are no more than a block.
fn write_block<D: Draft>(draft: &mut D, block: &[u8])
    requires { length block.now ≤ BLOCK }
    ensures { D.gains draft.old (encode_lower block.now) draft.new }
{
    let mut whole = [0; BLOCK];
    copy_bytes(&mut whole[..block.len()], block);
    let digits = digits_of(u8x16::from_array(whole));
    // The digits are ASCII, so that they are text.
    draft.push_str(unsafe { str::from_utf8_unchecked(&digits[..2 * block.len()]) });
}

/// Appends two lower case digits for each byte.
pub fn write_hex<D: Draft>(draft: &mut D, bytes: &[u8])
    ensures { D.gains draft.old (encode_lower bytes.now) draft.new }
{
    let mut start = 0;
    while bytes.len() - start > BLOCK {
        if draft.is_full() {
            return;
        }
        write_block(draft, &bytes[start..start + BLOCK]);
        start += BLOCK;
    }
    write_block(draft, &bytes[start..]);
}
