//! The known fields that were seen.
#![tactic(auto)]

ghost use Rattle.std.specs.Prelude.{◌≡◌, ◌∷◌, ◌&&◌, [], ℕ, List, true};
ghost use Rattle.dbus_message_model.specs.Messages.{is_known, required};
ghost use Rattle.dbus_message_model.specs.KnownFields.{IsMissing};
ghost use Rattle.dbus_check.specs.Heading.{has, missing};

use dbus_message_model::field_table::is_known;
use dbus_message_model::known_fields::required;

/// Which of the known fields were seen, by their codes.
#[derive(Clone, Copy)]
pub struct Seen {
    /// Whether the field of each code was seen: the codes of the known fields are 1 to 9.
    pub known: [bool; 10],
}

impl Seen {
    ghost use Rattle.dbus_check.specs.Progress.{Sees};

    /// None.
    pub fn none() -> Seen
        ensures { Sees result [] }
    {
        Seen { known: [false; 10] }
    }

    /// Whether the known field of a code was seen.
    pub fn has(&self, code: u8) -> bool
        ensures { (codes : List ℕ) → Sees self.now codes → is_known code ≡ true →
            result ≡ has code codes }
    {
        let at = code as usize;
        at < self.known.len() && self.known[at]
    }

    /// Whether a code is a known field's that was seen.
    pub fn is_again(&self, code: u8) -> bool
        ensures { (codes : List ℕ) → Sees self.now codes →
            result ≡ (is_known code && has code codes) }
    {
        is_known(code) && self.has(code)
    }

    /// A field of a code is seen.
    pub fn note(&mut self, code: u8)
        ensures { (codes : List ℕ) → Sees self.old codes → Sees self.new (code ∷ codes) }
    {
        let at = code as usize;
        if at < self.known.len() {
            self.known[at] = true;
        }
    }

    /// The lowest code that the message type requires and that was not seen.
    pub fn missing(&self, kind: u8) -> Option<u8>
        ensures { (codes : List ℕ) → Sees self.now codes →
            IsMissing (missing (required kind) codes) result }
    {
        for code in required(kind) {
            if !self.has(*code) {
                return Some(*code);
            }
        }
        None
    }
}
