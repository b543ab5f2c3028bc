//! The sides of a connection.

/// A side of a connection.
#[derive(Clone, Copy, PartialEq, Eq, Debug)]
pub enum Side {
    /// The side that connected. It sends the byte 0, and then lines of which the last one is
    /// `BEGIN`.
    Client,
    /// The side that it connected to. It sends lines, one of which is `OK` with its GUID. Its
    /// messages begin at the first byte after such a line that begins no line: `l` or `B`.
    Server,
}
