//! The search of a set for the rules that match a message, by the index.
#![tactic(auto)]

ghost use Rattle.std.specs.Prelude.{◌≡◌, ◌<◌, ◌∷◌, ◌++◌, [], ℕ, List, length, take, OnErr, OnOk};
ghost use Rattle.std.specs.List.{AllByRecursion};
ghost use Rattle.dbus_value_model.specs.declared.order.Order.{Order};
ghost use Rattle.dbus_message_model.specs.Messages.{MessageTree};
ghost use Rattle.dbus_view.specs.Views.{Views};
ghost use Rattle.dbus_rule_set.specs.Places.{IsAmong, IsIndexed, IsNext, Stands};
ghost use Rattle.dbus_rule_set.specs.Held.{Collects, EntryMatches, HoldsOfAny};
ghost use Rattle.dbus_rule_set.specs.Searches.{Searches};

use crate::asked::Asked;
use crate::handle::RuleHandle;
use crate::kinds::{KINDS, Kinds, key_of};
use crate::met::met;
use crate::places::rules_between;
use crate::visitor::RuleVisitor;
use dbus_match::Rule;
use std::alloc::Allocator;
use std::collections::BTreeMap;
use std::collections::btree_map::Range;

/// The most rules that are asked one by one without the index, which costs more than they do.
const FEW: usize = 8;

/// Hands over those of the rules that match.
#[tactic(auto, using(crate::proofs::Begins::begins_on))]
fn ask_each<A: Allocator, V: RuleVisitor>(
    rules: Range<'_, RuleHandle, Rule<A>>,
    asked: &Asked,
    visitor: &mut V,
) -> Result<(), V::Stop>
    ensures found { (order : Order) (m : MessageTree) → Views asked.now.view.now order m →
        OnOk result (Collects (EntryMatches asked.now.as_bus m asked.now.owners.now) rules.entry
        (V.gathered visitor.old) (V.gathered visitor.new)) }
    ensures stopped { (order : Order) (m : MessageTree) → Views asked.now.view.now order m →
        OnErr result (HoldsOfAny (EntryMatches asked.now.as_bus m asked.now.owners.now) rules.entry) }
    ensures kept { take (length (V.gathered visitor.old)) (V.gathered visitor.new) ≡ V.gathered visitor.old }
{
    for (handle, rule) in rules {
        if asked.matches(rule) {
            visitor.visit(*handle)?;
        }
    }
    Ok(())
}

/// The lesser of a hash and the next one so far, if the hash is not below `from`.
fn nearer(from: u64, next: Option<u32>, hash: u32) -> Option<u32>
    ensures { (hs : List ℕ) → IsNext from next hs → IsNext from result (hs ++ hash ∷ []) }
{
    if u64::from(hash) < from {
        return next;
    }
    match next {
        Some(next) => Some(next.min(hash)),
        None => Some(hash),
    }
}

/// The least of the hashes that is not below `from`.
fn next_of(hashes: &[u32], from: u64) -> Option<u32>
    ensures { IsNext from result hashes.now }
{
    let mut next = None;
    for hash in hashes {
        next = nearer(from, next, *hash);
    }
    next
}

/// Hands over the rules of the kind that match, if these have the hashes.
#[tactic(auto, using(crate::proofs::Begins::begins_on))]
fn ask_hashes<A: Allocator, V: RuleVisitor>(
    rules: &BTreeMap<RuleHandle, Rule<A>, A>,
    kind: u8,
    hashes: &[u32],
    asked: &Asked,
    visitor: &mut V,
) -> Result<(), V::Stop>
    ensures found { (order : Order) (m : MessageTree) → Views asked.now.view.now order m →
        AllByRecursion (λ e. EntryMatches asked.now.as_bus m asked.now.owners.now e → e.0.kind ≡ kind → IsAmong e.0.hash hashes.now)
        rules.now.entries →
        OnOk result (Searches (EntryMatches asked.now.as_bus m asked.now.owners.now) rules.now.entries kind
        (V.gathered visitor.old) (V.gathered visitor.new)) }
    ensures stopped { (order : Order) (m : MessageTree) → Views asked.now.view.now order m →
        OnErr result (HoldsOfAny (EntryMatches asked.now.as_bus m asked.now.owners.now) rules.now.entries) }
    ensures kept { take (length (V.gathered visitor.old)) (V.gathered visitor.new) ≡ V.gathered visitor.old }
{
    let mut from = 0;
    while let Some(hash) = next_of(hashes, from) {
        let first = u64::from(hash);
        let there = rules_between(rules, kind, first, kind, first + 1);
        ask_each(there, asked, visitor)?;
        from = first + 1;
    }
    Ok(())
}

/// Hands over the rules of the kind that match the message.
fn ask_kind<A: Allocator, V: RuleVisitor>(
    rules: &BTreeMap<RuleHandle, Rule<A>, A>,
    kind: u8,
    asked: &Asked,
    visitor: &mut V,
) -> Result<(), V::Stop>
    requires small { kind < 137 }
    requires placed { AllByRecursion Stands rules.now.entries }
    ensures found { (order : Order) (m : MessageTree) → Views asked.now.view.now order m →
        OnOk result (Searches (EntryMatches asked.now.as_bus m asked.now.owners.now) rules.now.entries kind
        (V.gathered visitor.old) (V.gathered visitor.new)) }
    ensures stopped { (order : Order) (m : MessageTree) → Views asked.now.view.now order m →
        OnErr result (HoldsOfAny (EntryMatches asked.now.as_bus m asked.now.owners.now) rules.now.entries) }
    ensures kept { take (length (V.gathered visitor.old)) (V.gathered visitor.new) ≡ V.gathered visitor.old }
{
    match met(key_of(kind), asked.view, asked.owners) {
        Some(hashes) => ask_hashes(rules, kind, hashes.as_slice(), asked, visitor),
        None => ask_each(rules_between(rules, kind, 0, kind + 1, 0), asked, visitor),
    }
}

/// Hands over the rules that match, in the order of their handles. The rules are of these kinds.
///
/// It stops at an error of the visitor, which then was handed a rule that matches.
#[tactic(auto, using(crate::proofs::Begins::begins_on))]
pub(crate) fn search<A: Allocator, V: RuleVisitor>(
    rules: &BTreeMap<RuleHandle, Rule<A>, A>,
    kinds: &Kinds,
    asked: &Asked,
    visitor: &mut V,
) -> Result<(), V::Stop>
    requires indexed { AllByRecursion (IsIndexed kinds.now) rules.now.entries }
    ensures found { (order : Order) (m : MessageTree) → Views asked.now.view.now order m →
        OnOk result (Collects (EntryMatches asked.now.as_bus m asked.now.owners.now) rules.now.entries
        (V.gathered visitor.old) (V.gathered visitor.new)) }
    ensures stopped { (order : Order) (m : MessageTree) → Views asked.now.view.now order m →
        OnErr result (HoldsOfAny (EntryMatches asked.now.as_bus m asked.now.owners.now) rules.now.entries) }
    ensures kept { take (length (V.gathered visitor.old)) (V.gathered visitor.new) ≡ V.gathered visitor.old }
{
    if rules.len() <= FEW {
        return ask_each(rules_between(rules, 0, 0, KINDS, 0), asked, visitor);
    }
    for kind in 0..KINDS {
        if !kinds.has(kind) {
            continue;
        }
        ask_kind(rules, kind, asked, visitor)?;
    }
    Ok(())
}
