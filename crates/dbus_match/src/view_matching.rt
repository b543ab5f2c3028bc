//! When a rule matches the message that a view is of.
#![tactic(auto)]

ghost use Rattle.std.specs.Prelude.{◌≡◌, ◌↔◌, Some, None, IsTrue, MatchOption, option_map, string_bytes};
ghost use Rattle.dbus_value_model.specs.declared.order.Order.{Order};
ghost use Rattle.dbus_message_model.specs.KnownFields.{body_value};
ghost use Rattle.dbus_message_model.specs.Messages.{MessageTree};
ghost use Rattle.dbus_view.specs.Views.{Views};
ghost use Rattle.dbus_rule.specs.RuleViews.{rule_pairs};
ghost use Rattle.dbus_match.specs.Arguments.{AreNoted};
ghost use Rattle.dbus_match.specs.Matching.{IsSent, Matches, OtherHolds, OthersHold, ownerships, string_of, string_or_path_of};

use crate::argument::{Argument, arguments_of, seen};
use crate::asked::{is_name_in, is_path_in, is_sender, is_text, is_type, meets_path};
use crate::owner::Owner;
use dbus_rule::{Condition, Key, Rule};
use dbus_view::MessageView;
use std::alloc::Allocator;

/// Rules of more keys have the values of the body noted.
pub(crate) const FEW_KEYS: usize = 12;

/// The text of argument `n`, if that is a STRING.
fn string_seen<'a>(view: &MessageView<'a>, noted: &[Argument<'a>], n: u8) -> Option<&'a str>
    requires { AreNoted view.now noted.now }
    ensures { (order : Order) (m : MessageTree) → Views view.now order m →
        MatchOption result (string_of (body_value n m.body) ≡ None) (λ s.
        string_of (body_value n m.body) ≡ Some s.now) }
{
    match seen(view, noted, usize::from(n)) {
        Argument::Str(text) => Some(text),
        _ => None,
    }
}

/// The text of argument `n`, if that is a STRING or an OBJECT_PATH.
fn string_or_path_seen<'a>(view: &MessageView<'a>, noted: &[Argument<'a>], n: u8) -> Option<&'a str>
    requires { AreNoted view.now noted.now }
    ensures { (order : Order) (m : MessageTree) → Views view.now order m →
        MatchOption result (string_or_path_of (body_value n m.body) ≡ None) (λ s.
        string_or_path_of (body_value n m.body) ≡ Some s.now) }
{
    match seen(view, noted, usize::from(n)) {
        Argument::Str(text) => Some(text),
        Argument::Path(text) => Some(text),
        Argument::Other => None,
    }
}

/// The text of value `n` of the body, if that is a STRING. D-Bus Specification, "Match Rules".
pub fn string_arg<'a>(view: &MessageView<'a>, n: u8) -> Option<&'a str>
    ensures { (order : Order) (m : MessageTree) → Views view.now order m →
        MatchOption result (string_of (body_value n m.body) ≡ None) (λ s.
        string_of (body_value n m.body) ≡ Some s.now) }
{
    string_seen(view, &[], n)
}

/// The text of value `n` of the body, if that is a STRING or an OBJECT_PATH. D-Bus Specification,
/// "Match Rules".
pub fn string_or_path_arg<'a>(view: &MessageView<'a>, n: u8) -> Option<&'a str>
    ensures { (order : Order) (m : MessageTree) → Views view.now order m →
        MatchOption result (string_or_path_of (body_value n m.body) ≡ None) (λ s.
        string_or_path_of (body_value n m.body) ≡ Some s.now) }
{
    string_or_path_seen(view, &[], n)
}

/// Whether the condition holds of the message, if its key is not `sender`.
pub(crate) fn other_holds<'a, A: Allocator>(
    condition: &Condition<A>,
    view: &MessageView<'a>,
    noted: &[Argument<'a>],
) -> bool
    requires { AreNoted view.now noted.now }
    ensures { (order : Order) (m : MessageTree) → Views view.now order m →
        IsTrue result ↔ OtherHolds condition.now.key (string_bytes condition.now.value) m }
{
    let value = condition.value.as_str();
    match condition.key {
        Key::MessageType => is_type(view.kind(), value),
        Key::Sender => true,
        Key::Interface => is_text(view.interface(), value),
        Key::Member => is_text(view.member(), value),
        Key::Path => is_text(view.path(), value),
        Key::PathNamespace => is_path_in(view.path(), value),
        Key::Destination => is_text(view.destination(), value),
        Key::Arg(n) => is_text(string_seen(view, noted, n), value),
        Key::ArgPath(n) => meets_path(string_or_path_seen(view, noted, n), value),
        Key::Arg0Namespace => is_name_in(string_seen(view, noted, 0), value),
        Key::Eavesdrop => true,
    }
}

/// Whether each key of the rule but `sender` holds of the message, of which these values are noted.
fn others_hold<'a, A: Allocator>(
    rule: &Rule<A>,
    view: &MessageView<'a>,
    noted: &[Argument<'a>],
) -> bool
    requires { AreNoted view.now noted.now }
    ensures { (order : Order) (m : MessageTree) → Views view.now order m →
        IsTrue result ↔ OthersHold (rule_pairs rule.now) m }
{
    let conditions = rule.conditions();
    for condition in conditions {
        if !other_holds(condition, view, noted) {
            return false;
        }
    }
    true
}

/// The same, with the values of the body noted first.
fn others_hold_noted<A: Allocator>(rule: &Rule<A>, view: &MessageView) -> bool
    ensures { (order : Order) (m : MessageTree) → Views view.now order m →
        IsTrue result ↔ OthersHold (rule_pairs rule.now) m }
{
    let noted = arguments_of(view);
    others_hold(rule, view, noted.as_slice())
}

/// Whether each key of the rule but `sender` holds of the message that the view is of. A rule that
/// has no `sender` matches it then; else the owners of names decide. D-Bus Specification, "Match
/// Rules".
///
/// ```rust
/// use dbus_match::{other_keys_hold, parse_rule};
/// use dbus_message::MessageView;
///
/// let rule = parse_rule(alloc, "sender='org.example.Clock',member='Tick'")?;
/// println!(rt; "{}", other_keys_hold(&rule, &MessageView::of(bytes)?))?;
/// ```
pub fn other_keys_hold<A: Allocator>(rule: &Rule<A>, view: &MessageView) -> bool
    ensures { (order : Order) (m : MessageTree) → Views view.now order m →
        IsTrue result ↔ OthersHold (rule_pairs rule.now) m }
{
    if rule.conditions().len() > FEW_KEYS {
        others_hold_noted(rule, view)
    } else {
        others_hold(rule, view, &[])
    }
}

/// Whether the message is of this sender, if there is one.
fn is_sent<A: Allocator>(sender: Option<&str>, view: &MessageView, owners: &[Owner<A>]) -> bool
    ensures { (order : Order) (m : MessageTree) → Views view.now order m →
        IsTrue result ↔ IsSent (option_map (λ s. s.now) sender.entry) m (ownerships owners.now) }
{
    match sender {
        Some(sender) => is_sender(view.sender(), sender, owners),
        None => true,
    }
}

/// Whether each key of the rule holds of the message that the view is of, as [`crate::matches`]
/// says of a message. The owners are looked at if all other keys hold. D-Bus Specification, "Match
/// Rules".
///
/// ```rust
/// use dbus_match::{matches_view, parse_rule};
/// use dbus_message::MessageView;
///
/// let rule = parse_rule(alloc, "sender='org.freedesktop.DBus',arg0namespace='org'")?;
/// println!(rt; "{}", matches_view(&rule, &MessageView::of(bytes)?, &[]))?;
/// ```
pub fn matches_view<A: Allocator>(rule: &Rule<A>, view: &MessageView, owners: &[Owner<A>]) -> bool
    ensures { (order : Order) (m : MessageTree) → Views view.now order m →
        IsTrue result ↔ Matches (rule_pairs rule.now) m (ownerships owners.now) }
{
    other_keys_hold(rule, view) && is_sent(rule.sender(), view, owners)
}
