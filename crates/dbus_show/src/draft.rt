//! What a text is written to, piece by piece.
#![tactic(auto)]

ghost use Rattle.std.specs.Prelude.{◌≡◌, ◌<◌, ◌∷◌, List, [], ◌++◌, ℕ, IsUtf8, true};

use std::str;

/// What gains a text piece by piece. If it cannot take a piece, it takes nothing more, and each
/// writer returns as ever, so that only its maker asks at the end whether it has all.
pub trait Draft {
    // It gained a text.
    ghost gains: { Self → List ℕ → Self → Type 0 };

    /// Appends a text.
    fn push_str(&mut self, text: &str)
        ensures { gains self.old text.now self.new };

    /// Appends a text between two others.
    #[inline]
    fn push_between(&mut self, before: &str, text: &str, after: &str)
        ensures { gains self.old (before.now ++ (text.now ++ after.now)) self.new }
    {
        self.push_str(before);
        self.push_str(text);
        self.push_str(after);
    }

    /// Appends the ASCII character that has this code.
    #[inline]
    fn push_code(&mut self, code: u8)
        requires { code < 128 }
        ensures { gains self.old (code ∷ []) self.new }
    {
        let text = [code];
        // The code is ASCII, so that it is text.
        self.push_str(unsafe { str::from_utf8_unchecked(&text) });
    }

    /// Whether it takes no more, so that what follows may be left out. If it does not know, it may
    /// return false.
    #[inline]
    fn is_full(&self) -> bool
        ensures { result ≡ true → (text : List ℕ) → IsUtf8 text → gains self.now text self.now }
    {
        false
    }

    // What is left alone gains nothing.
    ghost nothing: { (a : Self) → gains a [] a };

    // What gains two texts gains the one after the other.
    ghost joins: { (a b c : Self) (s t : List ℕ) → gains a s b → gains b t c →
        gains a (s ++ t) c };
}
