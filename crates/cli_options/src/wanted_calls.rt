//! What `calls` is to list.

/// What `calls` is to list. If none of these is asked for, it is all calls; else
/// those of any that is.
#[derive(Clone, Copy, Debug, PartialEq, Eq)]
pub struct WantedCalls {
    /// Whether a line is that of a member, with the sums of its calls, in place of a call's.
    pub by_member: bool,
    /// Whether the calls to which no reply came are to be listed, of those that want one.
    pub unanswered: bool,
    /// Whether the calls that an ERROR answered are to be listed.
    pub errors: bool,
    /// The milliseconds that a reply has to come later than after its call, if the calls of such
    /// replies are to be listed.
    pub slower: Option<u32>,
}
