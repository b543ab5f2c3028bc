//! What became of a message that was to be passed over.

/// What became of a message that was to be passed over.
#[derive(Clone, Copy, Debug, PartialEq, Eq)]
pub enum Passed {
    /// It was passed over.
    Over,
    /// The input ends within it. All that was there of it was dropped.
    CutOff,
    /// It was not: its first 16 bytes state no size within the limits, or no message was refused.
    Not,
}
