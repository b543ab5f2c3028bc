//! Whether one rule matches a message, by the owners of names that are kept.
#![tactic(auto)]

ghost use Rattle.std.specs.Prelude.{◌≡◌, ◌⊎◌, ◌↔◌, IsTrue, MatchOption, option_map};
ghost use Rattle.dbus_value_model.specs.declared.order.Order.{Order};
ghost use Rattle.dbus_message_model.specs.Messages.{MessageTree};
ghost use Rattle.dbus_view.specs.Views.{Views};
ghost use Rattle.dbus_rule.specs.RuleViews.{rule_pairs};
ghost use Rattle.dbus_match.specs.Matching.{IsOwned, IsSent, Matches};
ghost use Rattle.dbus_rule_set.specs.Owners.{owners_in};

use crate::owners::Owners;
use dbus_match::other_keys_hold;
use dbus_rule::Rule;
use dbus_view::MessageView;
use std::alloc::Allocator;

/// Whether the sender is there and is the one that is wanted, or owns that name.
fn is_sender(sender: Option<&str>, wanted: &str, owners: &Owners) -> bool
    ensures { IsTrue result ↔ MatchOption sender.entry ⊥ (λ w.
        (wanted.now ≡ w.now) ⊎ IsOwned (owners_in owners.now) wanted.now w.now) }
{
    match sender {
        Some(sender) => wanted == sender || owners.has(wanted, sender),
        None => false,
    }
}

/// Whether the message is of this sender, if there is one.
fn is_sent(wanted: Option<&str>, view: &MessageView, owners: &Owners) -> bool
    ensures { (order : Order) (m : MessageTree) → Views view.now order m →
        IsTrue result ↔ IsSent (option_map (λ s. s.now) wanted.entry) m (owners_in owners.now) }
{
    match wanted {
        Some(wanted) => is_sender(view.sender(), wanted, owners),
        None => true,
    }
}

/// Whether each key of the rule holds of the message. It takes time for the logarithm of the number
/// of names.
pub(crate) fn keys_hold<A: Allocator>(rule: &Rule<A>, view: &MessageView, owners: &Owners) -> bool
    ensures { (order : Order) (m : MessageTree) → Views view.now order m →
        IsTrue result ↔ Matches (rule_pairs rule.now) m (owners_in owners.now) }
{
    other_keys_hold(rule, view) && is_sent(rule.sender(), view, owners)
}
