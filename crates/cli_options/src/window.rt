//! Which of the messages that a command selects it writes.

/// Which of the messages that a command selects are written: `limit` at most, after the first
/// `skip`; and whether the input is read on then.
#[derive(Clone, Copy, PartialEq, Eq, Debug)]
pub struct Window {
    /// The number of messages that are skipped.
    pub skip: u32,
    /// The most messages that are written after these. Without it all are.
    pub limit: Option<u32>,
    /// Whether the rest of the input is read and validated too, once `limit` messages are written.
    pub checks_rest: bool,
}
