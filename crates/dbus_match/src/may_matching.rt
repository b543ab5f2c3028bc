//! When a rule may match a message, by what the message may be taken for.
#![tactic(auto)]

ghost use Rattle.std.specs.Prelude.{◌≡◌, ◌⊎◌, ◌↔◌, IsTrue, option_map, string_bytes};
ghost use Rattle.dbus_value_model.specs.declared.order.Order.{Order};
ghost use Rattle.dbus_message_model.specs.Messages.{MessageTree};
ghost use Rattle.dbus_message_model.specs.MessageViews.{message_tree};
ghost use Rattle.dbus_view.specs.Views.{Views};
ghost use Rattle.dbus_rule.specs.RuleViews.{rule_pairs};
ghost use Rattle.dbus_match.specs.Matching.{IsThere, ownerships};
ghost use Rattle.dbus_match.specs.TakenFor.{AreOne, EachMayHold, IsAnyInterface, IsNoted, IsOf, MayBeFor, MayBeOf, MayBeSent, MayHold, MayMatch, for_whom};

use crate::argument::arguments_of;
use crate::asked::is_text;
use crate::known_owners::KnownOwners;
use crate::owner::Owner;
use crate::subject::Subject;
use crate::view_matching::FEW_KEYS;
use dbus_message_model::Message;
use dbus_message_model::message_type::METHOD_CALL;
use dbus_rule::{Condition, Key, Rule};
use dbus_view::MessageView;
use std::alloc::{Allocator, Global};

/// The name of the bus itself. D-Bus Specification, "Message Bus Names".
const BUS: &str = "org.freedesktop.DBus";

/// Whether the message is a call without INTERFACE.
fn is_any_interface<A: Allocator>(subject: &Subject<A>) -> bool
    ensures { (m : MessageTree) → IsOf subject.now m → IsTrue result ↔ IsAnyInterface m }
{
    subject.kind() == METHOD_CALL && subject.interface().is_none()
}

/// Whether the message may be one of the interface.
fn may_be_of<A: Allocator>(subject: &Subject<A>, interface: &str) -> bool
    ensures { (m : MessageTree) → IsOf subject.now m → IsTrue result ↔ MayBeOf interface.now m }
{
    is_text(subject.interface(), interface) || is_any_interface(subject)
}

/// Whether the name is one of whom a message of the type is for, that has this DESTINATION.
fn is_for<O: KnownOwners>(name: &str, kind: u8, destination: Option<&str>, owners: &O) -> bool
    ensures { IsTrue result ↔
        IsThere (for_whom kind (option_map (λ s. s.now) destination.entry)) (λ w.
        AreOne (O.known owners.now) name.now w) }
{
    match destination {
        Some(whom) => owners.are_one(name, whom),
        None => kind == METHOD_CALL && owners.are_one(name, BUS),
    }
}

/// Whether the name is one of whom the message is for.
fn may_be_for<A: Allocator, O: KnownOwners>(subject: &Subject<A>, name: &str, owners: &O) -> bool
    ensures { (m : MessageTree) → IsOf subject.now m →
        IsTrue result ↔ MayBeFor (O.known owners.now) name.now m }
{
    is_for(name, subject.kind(), subject.destination(), owners)
}

/// Whether the name is one of the sender, if that is known.
fn may_be_sent<O: KnownOwners>(name: &str, sender: Option<&str>, owners: &O) -> bool
    ensures { IsTrue result ↔
        MayBeSent name.now (option_map (λ s. s.now) sender.entry) (O.known owners.now) }
{
    match sender {
        Some(sender) => owners.names(name, sender),
        None => true,
    }
}

/// Whether the condition may hold of the message.
fn may_hold<A: Allocator, B: Allocator, O: KnownOwners>(
    condition: &Condition<A>,
    subject: &Subject<B>,
    sender: Option<&str>,
    owners: &O,
) -> bool
    requires { IsNoted subject.now }
    ensures { (m : MessageTree) → IsOf subject.now m →
        IsTrue result ↔ MayHold condition.now.key (string_bytes condition.now.value) m
        (option_map (λ s. s.now) sender.entry) (O.known owners.now) }
{
    match condition.key {
        Key::Sender => may_be_sent(condition.value.as_str(), sender, owners),
        Key::Interface => may_be_of(subject, condition.value.as_str()),
        Key::Destination => may_be_for(subject, condition.value.as_str(), owners),
        _ => subject.meets(condition),
    }
}

/// Whether each key of the rule may hold of the message.
fn each_may_hold<A: Allocator, B: Allocator, O: KnownOwners>(
    rule: &Rule<A>,
    subject: &Subject<B>,
    sender: Option<&str>,
    owners: &O,
) -> bool
    requires { IsNoted subject.now }
    ensures { (m : MessageTree) → IsOf subject.now m →
        IsTrue result ↔ EachMayHold (rule_pairs rule.now) m
        (option_map (λ s. s.now) sender.entry) (O.known owners.now) }
{
    let conditions = rule.conditions();
    for condition in conditions {
        if !may_hold(condition, subject, sender, owners) {
            return false;
        }
    }
    true
}

/// The same, with the values of the body noted first.
fn each_may_hold_noted<A: Allocator, O: KnownOwners>(
    rule: &Rule<A>,
    view: &MessageView,
    sender: Option<&str>,
    owners: &O,
) -> bool
    ensures { (order : Order) (m : MessageTree) → Views view.now order m →
        IsTrue result ↔ EachMayHold (rule_pairs rule.now) m
        (option_map (λ s. s.now) sender.entry) (O.known owners.now) }
{
    let noted = arguments_of(view);
    let subject: Subject<'_, '_, Global> = Subject::Seen(view, noted.as_slice());
    each_may_hold(rule, &subject, sender, owners)
}

/// Whether the rule may match the message that the view is of, as [`may_match_view`] says, by what
/// is known of the owners of names. D-Bus Specification, "Match Rules".
///
/// ```rust
/// use dbus_match::{Owner, may_match_known, parse_rule};
/// use dbus_message::MessageView;
///
/// let rule = parse_rule(alloc, "destination='org.example.Lab'")?;
/// let owners: &[Owner] = &[];
/// println!(rt; "{}", may_match_known(&rule, &MessageView::of(bytes)?, None, &owners))?;
/// ```
pub fn may_match_known<A: Allocator, O: KnownOwners>(
    rule: &Rule<A>,
    view: &MessageView,
    sender: Option<&str>,
    owners: &O,
) -> bool
    ensures { (order : Order) (m : MessageTree) → Views view.now order m →
        IsTrue result ↔ ∥ MayMatch (rule_pairs rule.now) m
        (option_map (λ s. s.now) sender.entry) (O.known owners.now) ∥₁ }
{
    if rule.conditions().len() > FEW_KEYS {
        return each_may_hold_noted(rule, view, sender, owners);
    }
    let subject: Subject<'_, '_, Global> = Subject::Seen(view, &[]);
    each_may_hold(rule, &subject, sender, owners)
}

/// Whether the rule may match the message that the view is of: whether it matches some message that
/// this one may be taken for. Who forbids messages asks this, since a message that
/// [`crate::matches_view`] lets through may be served as one that the rule matches. D-Bus
/// Specification, "Message Types", "Header Fields", "Message Bus Message Routing".
///
/// A METHOD_CALL without INTERFACE may be taken for one of any interface. DESTINATION may be any
/// name of the connection that the message is for, by the owners; a METHOD_CALL without it is for
/// the bus, `org.freedesktop.DBus`. SENDER is `sender`, which the bus writes in place of what stands
/// there; `None`: any bus name. All else is as it stands.
///
/// ```rust
/// use dbus_match::{Owner, may_match_view, parse_rule};
/// use dbus_message::MessageView;
///
/// let rule = parse_rule(alloc, "interface='org.example.Lab',member='Erase'")?;
/// let owners: &[Owner] = &[];
/// println!(rt; "{}", may_match_view(&rule, &MessageView::of(bytes)?, Some(":1.7"), owners))?;
/// ```
pub fn may_match_view<A: Allocator, B: Allocator>(
    rule: &Rule<A>,
    view: &MessageView,
    sender: Option<&str>,
    owners: &[Owner<B>],
) -> bool
    ensures { (order : Order) (m : MessageTree) → Views view.now order m →
        IsTrue result ↔ ∥ MayMatch (rule_pairs rule.now) m
        (option_map (λ s. s.now) sender.entry) (ownerships owners.now) ∥₁ }
{
    may_match_known(rule, view, sender, &owners)
}

/// Whether the rule may match the decoded message, as [`may_match_view`] says of a view. D-Bus
/// Specification, "Match Rules".
///
/// ```rust
/// use dbus_match::{may_match, parse_rule};
/// use dbus_message::{Answer, decode};
///
/// let rule = parse_rule(alloc, "destination='org.example.Lab'")?;
/// if let Answer::Whole { message, .. } = decode(alloc, bytes)? {
///     println!(rt; "{}", may_match(&rule, &message, Some(":1.7"), &[]))?;
/// }
/// ```
pub fn may_match<A: Allocator, B: Allocator>(
    rule: &Rule<B>,
    message: &Message<A>,
    sender: Option<&str>,
    owners: &[Owner<B>],
) -> bool
    ensures { IsTrue result ↔ ∥ MayMatch (rule_pairs rule.now) (message_tree message.now)
        (option_map (λ s. s.now) sender.entry) (ownerships owners.now) ∥₁ }
{
    each_may_hold(rule, &Subject::Decoded(message), sender, &owners)
}
