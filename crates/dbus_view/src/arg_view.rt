//! What is seen of one value of a body.
#![tactic(auto)]

/// A value of a message's body, as it is seen without reading it: its text, borrowed from the
/// message's bytes, if it is one. D-Bus Specification, "Basic types".
#[derive(Clone, Copy, PartialEq, Eq, Debug)]
pub enum ArgView<'a> {
    /// A STRING.
    Str(&'a str),
    /// An OBJECT_PATH.
    Path(&'a str),
    /// A SIGNATURE.
    Sig(&'a str),
    /// A value that is no text: the first code of its type, as `a` of an array.
    Other(u8),
}
