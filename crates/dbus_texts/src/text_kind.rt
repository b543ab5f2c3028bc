//! The kinds of text that the wire format has.
#![tactic(auto)]

ghost use Rattle.std.specs.Prelude.{◌≡◌};

/// The most bytes of a text of a kind that is limited.
pub(crate) const LONGEST: usize = 255;

/// A kind of text: which byte strings are allowed where it is wanted.
///
/// D-Bus Specification, "Basic types", "Valid Object Paths" and "Valid Names".
#[derive(Clone, Copy, PartialEq, Eq, Debug)]
pub enum TextKind {
    /// UTF-8 without U+0000: the text of a STRING.
    Text,
    /// An object path.
    Path,
    /// An interface name, of at most 255 bytes.
    Interface,
    /// A member name, of at most 255 bytes.
    Member,
    /// An error name, of at most 255 bytes.
    ErrorName,
    /// A bus name, unique or well-known, of at most 255 bytes.
    BusName,
    /// A signature: zero or more complete types, of at most 255 bytes.
    Signature,
    /// A signature of exactly one complete type, of at most 255 bytes.
    Single,
}

impl TextKind {
    ghost use Rattle.dbus_texts.specs.Verdicts.{is_limited};

    /// Whether a text of the kind may have at most 255 bytes.
    pub const fn is_limited(self) -> bool
        ensures { result ≡ is_limited self }
    {
        !matches!(self, TextKind::Text | TextKind::Path)
    }
}
