//! Texts, in a message's bytes.
#![tactic(auto)]

ghost use Rattle.std.specs.Prelude.{◌≡◌, ◌+◌, ◌≤◌, length, take, drop, IsUtf8};

use std::str;

/// The text of `size` bytes that begins at `first`. They are UTF-8, so this is not looked for
/// again.
#[inline]
pub fn text_in(bytes: &[u8], first: usize, size: usize) -> &str
    requires inside { first + size ≤ length bytes.now }
    requires utf8 { IsUtf8 (take size (drop first bytes.now)) }
    ensures { result.now ≡ take size (drop first bytes.now) }
{
    // A caller proves that the bytes are UTF-8.
    unsafe { str::from_utf8_unchecked(&bytes[first..][..size]) }
}
