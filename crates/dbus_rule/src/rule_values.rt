//! The values of a rule's keys that ask for one text.
#![tactic(auto)]

ghost use Rattle.std.specs.Prelude.{◌≡◌, MatchOption, option_map};
ghost use Rattle.dbus_rule.specs.Rules.{condition_pairs, is_sender, sender_of, HasKey, IsIn};

use crate::condition::Condition;
use crate::key::Key;
use crate::rule::Rule;
use std::alloc::Allocator;

/// The value of the condition with the key, if one has it.
#[tactic(auto, using(crate::proofs::SortedConditions::value_at))]
fn value_at<A: Allocator>(conditions: &[Condition<A>], key: Key) -> Option<&str>
    ensures { MatchOption result (HasKey key (condition_pairs conditions.now) → ⊥) (λ s.
        IsIn (record { key = key; value = s.now }) (condition_pairs conditions.now)) }
{
    for condition in conditions {
        if condition.key.is(key) {
            return Some(condition.value.as_str());
        }
    }
    None
}

/// The value of the condition with the key `sender`, if one has it.
fn sender_at<A: Allocator>(conditions: &[Condition<A>]) -> Option<&str>
    ensures { option_map (λ s. s.now) result ≡ sender_of (condition_pairs conditions.now) }
{
    for condition in conditions {
        if is_sender(condition.key) {
            return Some(condition.value.as_str());
        }
    }
    None
}

/// Whether the key is `sender`.
fn is_sender(key: Key) -> bool
    ensures { result ≡ is_sender key }
{
    matches!(key, Key::Sender)
}

impl<A: Allocator> Rule<A> {
    ghost use Rattle.std.specs.Prelude.{◌≡◌, option_map};
    ghost use Rattle.dbus_rule.specs.Rules.{sender_of};
    ghost use Rattle.dbus_rule.specs.RuleViews.{rule_pairs};
    ghost use Rattle.dbus_rule.specs.declared.key.Key.TheVariants.{Path, Interface, Member, Arg};

    /// The value of the rule's `path`, if it has that key. D-Bus Specification, "Match Rules".
    pub fn path(&self) -> Option<&str>
        ensures { MatchOption result (HasKey Path (rule_pairs self.now) → ⊥) (λ s.
            IsIn (record { key = Path; value = s.now }) (rule_pairs self.now)) }
    {
        value_at(&self.conditions, Key::Path)
    }

    /// The value of the rule's `interface`, if it has that key. D-Bus Specification, "Match Rules".
    pub fn interface(&self) -> Option<&str>
        ensures { MatchOption result (HasKey Interface (rule_pairs self.now) → ⊥) (λ s.
            IsIn (record { key = Interface; value = s.now }) (rule_pairs self.now)) }
    {
        value_at(&self.conditions, Key::Interface)
    }

    /// The value of the rule's `member`, if it has that key. D-Bus Specification, "Match Rules".
    pub fn member(&self) -> Option<&str>
        ensures { MatchOption result (HasKey Member (rule_pairs self.now) → ⊥) (λ s.
            IsIn (record { key = Member; value = s.now }) (rule_pairs self.now)) }
    {
        value_at(&self.conditions, Key::Member)
    }

    /// The value of the rule's `arg0`, if it has that key. D-Bus Specification, "Match Rules".
    pub fn arg0(&self) -> Option<&str>
        ensures { MatchOption result (HasKey (Arg 0) (rule_pairs self.now) → ⊥) (λ s.
            IsIn (record { key = Arg 0; value = s.now }) (rule_pairs self.now)) }
    {
        value_at(&self.conditions, Key::Arg(0))
    }

    /// The value of the rule's `sender`, if it has that key. D-Bus Specification, "Match Rules".
    pub fn sender(&self) -> Option<&str>
        ensures { option_map (λ s. s.now) result ≡ sender_of (rule_pairs self.now) }
    {
        sender_at(&self.conditions)
    }
}
