//! When a rule matches a message.
#![tactic(auto)]

ghost use Rattle.std.specs.Prelude.{◌↔◌, IsTrue, string_bytes};
ghost use Rattle.dbus_message_model.specs.MessageViews.{message_tree};
ghost use Rattle.dbus_rule.specs.RuleViews.{rule_pairs};
ghost use Rattle.dbus_match.specs.Matching.{HoldsAt, Matches, ownerships};

use crate::asked::{is_name_in, is_path_in, is_sender, is_text, is_type, meets_path};
use crate::owner::Owner;
use crate::texts::{field_text, string_arg, string_or_path_arg};
use dbus_message_model::Message;
use dbus_message_model::field_code::{DESTINATION, INTERFACE, MEMBER, PATH, SENDER};
use dbus_rule::{Condition, Key, Rule};
use std::alloc::Allocator;

/// Whether the condition holds of the message.
pub(crate) fn holds<A: Allocator, B: Allocator, C: Allocator>(
    condition: &Condition<B>,
    message: &Message<A>,
    owners: &[Owner<C>],
) -> bool
    ensures { IsTrue result ↔
        HoldsAt condition.now.key (string_bytes condition.now.value) (message_tree message.now)
        (ownerships owners.now) }
{
    let value = condition.value.as_str();
    match condition.key {
        Key::MessageType => is_type(message.parts().kind, value),
        Key::Sender => is_sender(field_text(message, SENDER), value, owners),
        Key::Interface => is_text(field_text(message, INTERFACE), value),
        Key::Member => is_text(field_text(message, MEMBER), value),
        Key::Path => is_text(field_text(message, PATH), value),
        Key::PathNamespace => is_path_in(field_text(message, PATH), value),
        Key::Destination => is_text(field_text(message, DESTINATION), value),
        Key::Arg(n) => is_text(string_arg(message, n), value),
        Key::ArgPath(n) => meets_path(string_or_path_arg(message, n), value),
        Key::Arg0Namespace => is_name_in(string_arg(message, 0), value),
        Key::Eavesdrop => true,
    }
}

/// Whether each key of the rule holds of the message. D-Bus Specification, "Match Rules".
///
/// `sender` holds if the message's SENDER is the value, or if an owner of `owners` pairs the value
/// with that SENDER; the specification asks the bus for the owner. `destination` is compared with
/// DESTINATION as it is, and `eavesdrop` always holds.
///
/// ```rust
/// use dbus_match::{matches, parse_rule};
/// use dbus_message::{Answer, decode};
///
/// let rule = parse_rule(alloc, "type='signal',member='NameAcquired'")?;
/// if let Answer::Whole { message, .. } = decode(alloc, bytes)? {
///     println!(rt; "{}", matches(&rule, &message, &[]))?;
/// }
/// ```
pub fn matches<A: Allocator, B: Allocator>(
    rule: &Rule<B>,
    message: &Message<A>,
    owners: &[Owner<B>],
) -> bool
    ensures { IsTrue result ↔
        Matches (rule_pairs rule.now) (message_tree message.now) (ownerships owners.now) }
{
    let conditions = rule.conditions();
    for condition in conditions {
        if !holds(condition, message, owners) {
            return false;
        }
    }
    true
}
