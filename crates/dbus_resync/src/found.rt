//! What a search for a message comes to.

/// What a search for a message comes to.
#[derive(Clone, Copy, Debug, PartialEq, Eq)]
pub enum Found {
    /// A message begins at this offset, and at none before.
    At(usize),
    /// No message begins at any offset.
    Nowhere,
    /// The effort is spent: no message begins at the offsets that were looked at, and to look at
    /// the next would take more.
    Spent,
}

/// What a search comes to, and how many bytes it looked at.
#[derive(Clone, Copy, Debug, PartialEq, Eq)]
pub struct Searched {
    /// What it comes to.
    pub found: Found,
    /// How many bytes it looked at; all of its effort if that is spent.
    pub looked: usize,
}
