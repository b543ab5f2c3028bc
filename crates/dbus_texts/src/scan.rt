//! The scan of a text of any kind.
#![tactic(auto)]

ghost use Rattle.std.specs.Prelude.{◌≡◌, ◌↔◌, ℕ, ◌+◌, ◌<◌, ◌≤◌, List, [], ◌∷◌, ◌++◌, length, take, IsTrue, IsFalse};
ghost use Rattle.dbus_texts.specs.declared.scan.ScanState.TheVariants.{InText};
ghost use Rattle.dbus_texts.specs.declared.utf8.Utf8Place.TheVariants.{Free};

use crate::ascii::plain_prefix;
use crate::byte_scan::{ByteScan, break_of};
use crate::names::{Letters, NameScan, Place, Tail};
use crate::signature::SigScan;
use crate::text_kind::TextKind;
use crate::utf8::Utf8Place;

/// What is wanted of a text from here on.
#[derive(Drop)]
pub enum ScanState {
    InText(Utf8Place),
    InName(NameScan),
    InSignature(SigScan),
}

impl ScanState {
    ghost use Rattle.dbus_texts.specs.Kinds.{IsOfKind};
    ghost use Rattle.dbus_texts.specs.Quotients.{IsQuotient, IsBreakFrom, Steps};
    ghost use Rattle.dbus_texts.specs.Scans.{state_rest};

    /// The state before any byte of a text of the kind.
    pub fn of_kind(kind: TextKind) -> Self
        ensures { IsQuotient (IsOfKind kind) [] (state_rest result) }
    {
        match kind {
            TextKind::Text => ScanState::InText(Utf8Place::Free),
            TextKind::Path => {
                ScanState::InName(NameScan::at(Place::PathStart, Letters::Word, Tail::Free))
            }
            TextKind::Interface | TextKind::ErrorName => {
                ScanState::InName(NameScan::at(Place::First, Letters::Name, Tail::Needed))
            }
            TextKind::Member => {
                ScanState::InName(NameScan::at(Place::First, Letters::Name, Tail::Alone))
            }
            TextKind::BusName => {
                ScanState::InName(NameScan::at(Place::BusStart, Letters::Unique, Tail::Needed))
            }
            TextKind::Signature => ScanState::InSignature(SigScan::new(false)),
            TextKind::Single => ScanState::InSignature(SigScan::new(true)),
        }
    }

    /// Takes one byte more, if it is allowed here; else changes nothing.
    #[tactic(auto, using(crate::proofs::ScanSteps::state_steps))]
    fn step(&mut self, byte: u8) -> bool
        ensures { Steps state_rest self.old byte result self.new }
    {
        match self {
            ScanState::InText(place) => place.step(byte),
            ScanState::InName(name) => name.step(byte),
            ScanState::InSignature(signature) => signature.step(byte),
        }
    }

    /// Whether the scan is between the characters of a text.
    fn is_between_characters(&self) -> bool
        ensures { IsTrue result → self.now ≡ InText Free }
    {
        matches!(self, ScanState::InText(Utf8Place::Free))
    }

    /// Whether the text may end here.
    fn end(&self) -> bool
        ensures { IsTrue result ↔ state_rest self.now [] }
    {
        match self {
            ScanState::InText(place) => place.end(),
            ScanState::InName(name) => name.end(),
            ScanState::InSignature(signature) => signature.end(),
        }
    }

    /// Where a text breaks that goes on from here, or `None` if it may go on so and end.
    pub fn break_of(self, text: &[u8]) -> Option<usize>
        requires { (more : List ℕ) × state_rest self more }
        ensures { IsBreakFrom (state_rest self) text.now result }
    {
        match self {
            ScanState::InText(place) => break_of(place, text),
            ScanState::InName(name) => break_of(name, text),
            ScanState::InSignature(signature) => break_of(signature, text),
        }
    }
}

/// Reads a text of a kind byte by byte, in fixed room.
///
/// It holds no byte of the text. D-Bus Specification, "Basic types", "Valid Object Paths", "Valid
/// Names" and "Valid Signatures".
#[derive(Drop)]
pub struct TextScan {
    kind: TextKind,
    state: ScanState,
    /// The number of bytes that were taken, or 256 if there are more.
    length: u16,
}

impl TextScan {
    ghost use Rattle.dbus_texts.specs.Scans.{Stands, kind_of};
    ghost use Rattle.dbus_texts.specs.Kinds.{IsOfKind, IsKind};
    ghost use Rattle.dbus_texts.specs.Verdicts.{IsPrefixOf};

    /// A scan that has read nothing.
    pub fn new(kind: TextKind) -> Self
        ensures kind { kind_of result ≡ kind }
        ensures stands { Stands result [] }
    {
        TextScan {
            kind,
            state: ScanState::of_kind(kind),
            length: 0,
        }
    }

    /// Takes one byte more, if some text of the kind begins with the text so far and this byte.
    ///
    /// The limit of 255 bytes that some kinds have is left to [`TextScan::end`]. On `false` the
    /// scan is unchanged.
    pub fn step(&mut self, byte: u8) -> bool
        ensures kind { kind_of self.new ≡ kind_of self.old }
        ensures prefix { (w : List ℕ) → Stands self.old w →
            (IsTrue result ↔ IsPrefixOf (kind_of self.old) (w ++ byte ∷ [])) }
        ensures stands { (w : List ℕ) → Stands self.old w → IsTrue result →
            Stands self.new (w ++ byte ∷ []) }
        ensures unchanged { IsFalse result → self.new ≡ self.old }
    {
        if !self.state.step(byte) {
            return false;
        }
        if self.length < 256 {
            self.length += 1;
        }
        true
    }

    /// Takes as many of the bytes as the text may go on with, and returns their number: all of
    /// them, or those before the first byte that [`TextScan::step`] rejects.
    ///
    /// As there, the limit of 255 bytes is left to [`TextScan::end`].
    pub fn take(&mut self, bytes: &[u8]) -> usize
        ensures within { result ≤ length bytes.now }
        ensures kind { kind_of self.new ≡ kind_of self.old }
        ensures stands { (w : List ℕ) → Stands self.old w →
            Stands self.new (w ++ take result bytes.now) }
        ensures breaks { result < length bytes.now → (w : List ℕ) → Stands self.old w →
            IsPrefixOf (kind_of self.old) (w ++ take (result + 1) bytes.now) → ⊥ }
    {
        let mut count = self.take_plain(bytes);
        while count < bytes.len() {
            if !self.step(bytes[count]) {
                return count;
            }
            count += 1;
        }
        count
    }

    /// Takes the ASCII that the bytes begin with, if the scan is between the characters of a text;
    /// else no byte.
    fn take_plain(&mut self, bytes: &[u8]) -> usize
        ensures within { result ≤ length bytes.now }
        ensures kind { kind_of self.new ≡ kind_of self.old }
        ensures stands { (w : List ℕ) → Stands self.old w →
            Stands self.new (w ++ take result bytes.now) }
    {
        if !self.state.is_between_characters() {
            return 0;
        }
        let plain = plain_prefix(bytes);
        self.length = self.length.saturating_add(plain.min(256) as u16).min(256);
        plain
    }

    /// Whether the text so far is one of the kind, its limit of 255 bytes included.
    pub fn end(&self) -> bool
        ensures { (w : List ℕ) → Stands self.now w → (IsTrue result ↔ IsKind (kind_of self.now) w) }
    {
        if self.length > 255 && self.kind.is_limited() {
            return false;
        }
        self.may_end()
    }

    /// Whether the text so far is one of the kind, its limit of 255 bytes aside.
    fn may_end(&self) -> bool
        ensures { (w : List ℕ) → Stands self.now w →
            (IsTrue result ↔ IsOfKind (kind_of self.now) w) }
    {
        self.state.end()
    }
}
