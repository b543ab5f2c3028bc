//! What is asked of each rule of a set.
#![tactic(auto)]

ghost use Rattle.std.specs.Prelude.{◌≡◌, IsTrue, ◌↔◌, string_bytes};
ghost use Rattle.std.specs.List.{list_any};
ghost use Rattle.dbus_value_model.specs.declared.order.Order.{Order};
ghost use Rattle.dbus_message_model.specs.Messages.{MessageTree};
ghost use Rattle.dbus_view.specs.Views.{Views};
ghost use Rattle.dbus_rule.specs.RuleViews.{rule_pairs};
ghost use Rattle.dbus_rule_set.specs.Eavesdropping.{eavesdrops, is_asked, is_eavesdrop};

use crate::matching::keys_hold;
use crate::owners::Owners;
use dbus_rule::{Condition, Key, Rule};
use dbus_view::MessageView;
use std::alloc::Allocator;

/// A message of which it is asked which rules match it.
#[derive(Drop)]
pub(crate) struct Asked<'a> {
    /// The message.
    pub(crate) view: &'a MessageView<'a>,
    /// The owners of well-known names.
    pub(crate) owners: &'a Owners,
    /// Whether it is asked as a bus asks.
    pub(crate) as_bus: bool,
}

impl<'a> Asked<'a> {
    ghost use Rattle.std.specs.Prelude.{◌↔◌, IsTrue};
    ghost use Rattle.dbus_value_model.specs.declared.order.Order.{Order};
    ghost use Rattle.dbus_message_model.specs.Messages.{MessageTree};
    ghost use Rattle.dbus_view.specs.Views.{Views};
    ghost use Rattle.dbus_rule.specs.RuleViews.{rule_pairs};
    ghost use Rattle.dbus_match.specs.Matching.{Matches};
    ghost use Rattle.dbus_rule_set.specs.Eavesdropping.{is_asked};
    ghost use Rattle.dbus_rule_set.specs.Owners.{owners_in};

    /// Whether the rule is asked of the message and matches it.
    pub(crate) fn matches<A: Allocator>(&self, rule: &Rule<A>) -> bool
        ensures { (order : Order) (m : MessageTree) → Views self.now.view.now order m →
            IsTrue result ↔ (IsTrue (is_asked self.now.as_bus m (rule_pairs rule.now)) ×
            Matches (rule_pairs rule.now) m (owners_in self.now.owners.now)) }
    {
        is_asked(rule, self.view, self.as_bus) && keys_hold(rule, self.view, self.owners)
    }
}

/// Whether the rule is asked of the message.
pub(crate) fn is_asked<A: Allocator>(rule: &Rule<A>, view: &MessageView, as_bus: bool) -> bool
    ensures { (order : Order) (m : MessageTree) → Views view.now order m →
        result ≡ is_asked as_bus m (rule_pairs rule.now) }
{
    !(as_bus && view.destination().is_some()) || eavesdrops(rule)
}

/// Whether the rule is for messages to others too. D-Bus Specification, "Eavesdropping".
fn eavesdrops<A: Allocator>(rule: &Rule<A>) -> bool
    ensures { result ≡ eavesdrops (rule_pairs rule.now) }
{
    any_eavesdrop(rule.conditions())
}

/// Whether any of the conditions is `eavesdrop='true'`.
fn any_eavesdrop<A: Allocator>(conditions: &[Condition<A>]) -> bool
    ensures { result ≡ list_any (λ c. is_eavesdrop c.key (string_bytes c.value)) conditions.now }
{
    conditions.iter().any(|condition| is_eavesdrop(condition))
}

/// Whether the condition is `eavesdrop='true'`.
fn is_eavesdrop<A: Allocator>(condition: &Condition<A>) -> bool
    ensures { result ≡ is_eavesdrop condition.now.key (string_bytes condition.now.value) }
{
    match condition.key {
        Key::Eavesdrop => condition.value.as_str() == "true",
        _ => false,
    }
}
