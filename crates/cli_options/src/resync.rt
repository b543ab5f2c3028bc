//! Whether it is looked for where messages begin again behind one that is refused.

/// Whether it is looked for where messages begin again behind one that is refused, in place of
/// passing it over by the size that it states alone.
#[derive(Clone, Copy, PartialEq, Eq, Debug)]
pub enum Resync {
    /// It is not.
    Off,
    /// It is, in a window of so many bytes from the message's begin.
    Within(u32),
}
