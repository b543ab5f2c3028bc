//! The rule on the indexes of file descriptors.
#![tactic(auto)]

ghost use Rattle.std.specs.Prelude.{◌≡◌};

/// Which indexes of file descriptors a message's body may have. A message has no descriptors
/// itself: they come beside it, as many as its UNIX_FDS field says. D-Bus Specification, "Basic
/// types" for UNIX_FD, "Header Fields" for UNIX_FDS.
#[derive(Clone, Copy, PartialEq, Eq, Debug)]
pub enum FdRule {
    /// Any index.
    Any,
    /// Indexes below the number that the UNIX_FDS field says, which is 0 if it is absent.
    BelowCount,
}

impl FdRule {
    ghost use Rattle.dbus_value_model.specs.FdIndexes.{index_limit};

    /// The number that every index is to be below if `count` descriptors come with the message, or
    /// nothing if any index is allowed.
    pub fn index_limit(self, count: u32) -> Option<u32>
        ensures { result ≡ index_limit self count }
    {
        match self {
            FdRule::Any => None,
            FdRule::BelowCount => Some(count),
        }
    }
}
