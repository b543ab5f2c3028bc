//! The scan of UTF-8 without U+0000.
#![tactic(auto)]

ghost use Rattle.std.specs.Prelude.{◌≡◌, ◌↔◌, Option, IsTrue};
ghost use Rattle.dbus_texts.specs.Kinds.{IsText};
ghost use Rattle.dbus_texts.specs.Utf8Scans.{lead, text_next, text_rest};

use crate::ascii::plain_prefix;
use crate::byte_scan::ByteScan;
use std::str;

/// Where in a character the scan is.
#[derive(Clone, Copy, PartialEq, Eq)]
pub enum Utf8Place {
    /// Between characters.
    Free,
    /// Before the last byte of a character.
    Last,
    /// Before the last two bytes.
    LastTwo,
    /// Before the last three bytes.
    LastThree,
    /// After the byte `e0`: two bytes that spell no character below U+0800 are to come.
    AfterE0,
    /// After the byte `ed`: two bytes that spell no surrogate are to come.
    AfterEd,
    /// After the byte `f0`: three bytes that spell no character below U+10000 are to come.
    AfterF0,
    /// After the byte `f4`: three bytes that spell no character above U+10FFFF are to come.
    AfterF4,
}

/// The place after the first byte of a character.
fn lead(byte: u8) -> Option<Utf8Place>
    ensures { result ≡ lead byte }
{
    match byte {
        0x01..=0x7f => Some(Utf8Place::Free),
        0xc2..=0xdf => Some(Utf8Place::Last),
        0xe0 => Some(Utf8Place::AfterE0),
        0xe1..=0xec => Some(Utf8Place::LastTwo),
        0xed => Some(Utf8Place::AfterEd),
        0xee..=0xef => Some(Utf8Place::LastTwo),
        0xf0 => Some(Utf8Place::AfterF0),
        0xf1..=0xf3 => Some(Utf8Place::LastThree),
        0xf4 => Some(Utf8Place::AfterF4),
        _ => None,
    }
}

/// Whether the text is UTF-8 without U+0000. Most texts are ASCII, which takes one pass.
pub(crate) fn is_text(text: &[u8]) -> bool
    ensures { IsTrue result ↔ IsText text.now }
{
    let rest = &text[plain_prefix(text)..];
    if rest.is_empty() {
        return true;
    }
    match str::from_utf8(rest) {
        Ok(_) => !rest.contains(&0),
        Err(_) => false,
    }
}

impl Utf8Place {
    /// What is wanted after one byte more, if it is allowed here.
    fn next(self, byte: u8) -> Option<Utf8Place>
        ensures { result ≡ text_next self byte }
    {
        match self {
            Utf8Place::Free => lead(byte),
            Utf8Place::Last => matches!(byte, 0x80..=0xbf).then_some(Utf8Place::Free),
            Utf8Place::LastTwo => matches!(byte, 0x80..=0xbf).then_some(Utf8Place::Last),
            Utf8Place::LastThree => matches!(byte, 0x80..=0xbf).then_some(Utf8Place::LastTwo),
            Utf8Place::AfterE0 => matches!(byte, 0xa0..=0xbf).then_some(Utf8Place::Last),
            Utf8Place::AfterEd => matches!(byte, 0x80..=0x9f).then_some(Utf8Place::Last),
            Utf8Place::AfterF0 => matches!(byte, 0x90..=0xbf).then_some(Utf8Place::LastTwo),
            Utf8Place::AfterF4 => matches!(byte, 0x80..=0x8f).then_some(Utf8Place::LastTwo),
        }
    }
}

impl ByteScan for Utf8Place {
    ghost rest = { text_rest };

    #[tactic(auto, using(crate::proofs::ScanSteps::step_some, crate::proofs::ScanSteps::step_none, crate::proofs::Utf8Steps::text_moves))]
    fn step(&mut self, byte: u8) -> bool {
        match self.next(byte) {
            Some(next) => {
                *self = next;
                true
            }
            None => false,
        }
    }

    fn end(&self) -> bool {
        *self == Utf8Place::Free
    }
}
