//! Handles of rules.
#![tactic(auto)]

/// What stands for a rule in a [`crate::RuleSet`], from the call that adds the rule on. A set gives
/// no handle twice.
///
/// Handles are ordered; their order says nothing of the order in which rules were added.
#[repr(C)]
#[derive(Clone, Copy, PartialEq, Eq, PartialOrd, Ord, Debug)]
pub struct RuleHandle {
    /// Under which kind of key the rule stands.
    pub(crate) kind: u8,
    /// The hash of the text under which it stands.
    pub(crate) hash: u64,
    /// The number of handles that the set gave before this one.
    pub(crate) number: u64,
}
