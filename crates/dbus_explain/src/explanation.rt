//! Where the parts of an explanation are.
#![tactic(auto)]

use crate::search::StatedText;

/// Where a part of an explanation is in its text, in bytes from its first. A number over 2^64 - 1
/// is told as that.
#[derive(Clone, Copy)]
pub struct LinesPart {
    /// Where it begins.
    pub start: u64,
    /// Where it ends.
    pub end: u64,
}

/// Where the parts of an explanation are in its text.
#[derive(Clone, Copy)]
pub struct Explanation {
    /// The number of bytes of the text, or 2^64 - 1 if it has more.
    pub length: u64,
    /// The name of the place of the fault, such as `body[1]["Title"].value`.
    pub name: LinesPart,
    /// The head of the message as it is shown, if its type is whole before the place.
    pub head: Option<LinesPart>,
    /// What has to be there, with its section of the D-Bus Specification.
    pub rule: LinesPart,
    /// The text of the message that the place is in, behind its length, if it is in one.
    pub text: Option<StatedText>,
}
