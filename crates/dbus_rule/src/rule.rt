//! Match rules.
#![tactic(auto)]

ghost use Rattle.dbus_rule.specs.Rules.{IsRule, condition_pairs};

use crate::condition::Condition;
use std::alloc::{Allocator, Global};

/// A match rule: keys with their values, of which each key occurs at most once, and `path` and
/// `path_namespace` not both. D-Bus Specification, "Match Rules".
///
/// `parse_rule` makes one of its text, and `rule_text` gives its canonical text.
#[derive(Debug, Drop)]
#[derive_where(PartialEq, Eq)]
pub struct Rule<A: Allocator = Global> {
    /// In canonical order.
    pub(crate) conditions: Vec<Condition<A>, A>,
    ghost is_rule: { ∥ IsRule (condition_pairs conditions.items) ∥₁ },
}

impl<A: Allocator> Rule<A> {
    ghost use Rattle.std.specs.Prelude.{◌≡◌};

    /// The keys of the rule with their values, in canonical order. D-Bus Specification, "Match
    /// Rules".
    pub fn conditions(&self) -> &[Condition<A>]
        ensures { result.now ≡ self.now.conditions.items }
    {
        self.conditions.as_slice()
    }
}
