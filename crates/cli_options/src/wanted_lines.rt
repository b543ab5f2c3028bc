//! What `list` writes.
use crate::selection::Selection;

/// What `list` writes: of the messages those that are selected, each as a line.
#[derive(Debug, Drop)]
pub struct WantedLines {
    /// Which messages are selected. Without a selection it is all.
    pub selection: Option<Selection>,
    /// The most cells of a line on a terminal; 0 for no bound.
    pub width: u16,
}
