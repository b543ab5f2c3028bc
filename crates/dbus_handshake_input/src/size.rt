//! How much a side sent before its messages.

/// How many lines and bytes a side sent before its messages.
#[derive(Clone, Copy, PartialEq, Eq, Debug)]
pub struct HandshakeSize {
    /// The lines, the last one among them.
    pub lines: usize,
    /// The bytes, with the byte 0 of a client and the CR LF of each line. At this offset its
    /// messages begin.
    pub bytes: usize,
}
