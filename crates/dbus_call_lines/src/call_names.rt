//! The names by which the connections of a call are known.

/// The names by which the connections of a call are known beside their unique ones. D-Bus
/// Specification, "Message Bus Names".
#[derive(Clone, Copy, Debug, PartialEq, Eq)]
pub struct CallNames<'a> {
    /// That of its SENDER, if it is known by one.
    pub sender: Option<&'a str>,
    /// That of its DESTINATION, if it is known by one.
    pub destination: Option<&'a str>,
}
