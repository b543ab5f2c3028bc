//! Where one value of a body is.
#![tactic(auto)]

/// Where a value of a message's body is among the message's bytes, if it is a text. D-Bus
/// Specification, "Basic types".
#[derive(Clone, Copy, PartialEq, Eq, Debug)]
pub struct ArgPlace {
    /// The first code of its type: of a STRING `s`, of an OBJECT_PATH `o`, of a SIGNATURE `g`.
    pub code: u8,
    /// The offset of its text, or 0 if it is no text.
    pub start: usize,
    /// The number of bytes of its text, or 0 if it is no text.
    pub length: usize,
}
