//! Copies of rules.
#![tactic(auto)]

ghost use Rattle.std.specs.Prelude.{◌≡◌};
ghost use Rattle.dbus_rule.specs.Rules.{condition_pair};
ghost use Rattle.dbus_rule.specs.RuleViews.{AreSameRule};

use crate::condition::Condition;
use crate::rule::Rule;
use std::alloc::{AllocError, Allocator};

impl<A: Allocator + Clone> Clone for Condition<A> {
    ghost is_clone = { λ condition copy. condition_pair copy ≡ condition_pair condition };

    /// A condition of the same key and the same value, in memory of its own from the same
    /// allocator.
    ///
    /// Returns `AllocError` if an allocation failed, and nothing of the copy is left then.
    fn clone(&self) -> Result<Condition<A>, AllocError> {
        Ok(Condition {
            key: self.key,
            value: self.value.clone()?,
        })
    }
}

impl<A: Allocator + Clone> Clone for Rule<A> {
    ghost is_clone = { λ rule copy. AreSameRule copy rule };

    /// A rule of the same keys and the same values, in memory of its own from the same allocator.
    ///
    /// Returns `AllocError` if an allocation failed, and nothing of the copy is left then.
    #[tactic(auto, using(crate::proofs::SortedConditions::conditions_copied, crate::proofs::SortedConditions::copy_is_rule))]
    fn clone(&self) -> Result<Rule<A>, AllocError> {
        let conditions = self.conditions.clone()?;
        Ok(Rule { conditions })
    }
}
