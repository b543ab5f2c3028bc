//! Texts that each text has.
#![tactic(auto)]

ghost use Rattle.std.specs.Prelude.{◌≡◌, ◌&&◌, ◌||◌, not, ℕ, List, [], OnErr, OnOk};
ghost use Rattle.std.specs.Bool.{OnTrue};
ghost use Rattle.std.specs.BTreeMap.{IsOrdered};
ghost use Rattle.std.specs.BTreeSet.{contains_text};
ghost use Rattle.std.specs.String.{string_cmp};
ghost use Rattle.std.specs.Str.{bytes_eq};
ghost use Rattle.dbus_rule_set.specs.Groups.{has};

use std::alloc::{AllocError, Global};
use std::collections::{BTreeMap, BTreeSet};

/// Some texts, each with those that it has.
pub(crate) type Groups = BTreeMap<String, BTreeSet<String>>;

/// Whether the first text has the second.
pub(crate) fn has(groups: &Groups, first: &str, second: &str) -> bool
    ensures { result ≡ has groups.now first.now second.now }
{
    match groups.get(first) {
        Some(group) => group.contains(second),
        None => false,
    }
}

/// Whether the first text has the second, and no other.
pub(crate) fn has_only(groups: &Groups, first: &str, second: &str) -> bool
    ensures { OnTrue result ((u : List ℕ) → has groups.now first.now u ≡ bytes_eq second.now u) }
{
    match groups.get(first) {
        Some(group) => group.len() == 1 && group.contains(second),
        None => false,
    }
}

/// Adds a text, if it is not there.
pub(crate) fn note(
    alloc: Global,
    group: &mut BTreeSet<String>,
    text: &str,
) -> Result<(), AllocError>
    ensures noted { OnOk result ((t : List ℕ) →
        contains_text group.new t ≡ (bytes_eq text.now t || contains_text group.old t)) }
    ensures failed { OnErr result ((t : List ℕ) →
        contains_text group.new t ≡ contains_text group.old t) }
{
    let text = String::from_str(alloc, text)?;
    group.insert(text)?;
    Ok(())
}

/// Takes a text away. Whether none is left.
pub(crate) fn forget(group: &mut BTreeSet<String>, text: &str) -> bool
    ensures left { (t : List ℕ) →
        contains_text group.new t ≡ (not (bytes_eq text.now t) && contains_text group.old t) }
    ensures none { OnTrue result (group.new.keys ≡ []) }
{
    group.remove(text);
    group.is_empty()
}

/// The first text has the second no more.
pub(crate) fn leave(groups: &mut Groups, first: &str, second: &str)
    ensures left { (n u : List ℕ) → has groups.new n u ≡
        (not (bytes_eq first.now n && bytes_eq second.now u) && has groups.old n u) }
    ensures ordered { IsOrdered string_cmp groups.new }
{
    let Some(group) = groups.get_mut(first) else {
        return;
    };
    if forget(group, second) {
        groups.remove(first);
    }
}

/// None of the first texts has the second any more.
pub(crate) fn leave_each(groups: &mut Groups, firsts: &BTreeSet<String>, second: &str)
    ensures left { (n u : List ℕ) → has groups.new n u ≡
        (not (contains_text firsts.now n && bytes_eq second.now u) && has groups.old n u) }
    ensures ordered { IsOrdered string_cmp groups.old → IsOrdered string_cmp groups.new }
{
    for first in firsts {
        leave(groups, first.as_str(), second);
    }
}

/// The first text has the second from now on.
pub(crate) fn join(
    alloc: Global,
    groups: &mut Groups,
    first: &str,
    second: &str,
) -> Result<(), AllocError>
    ensures joined { OnOk result ((n u : List ℕ) → has groups.new n u ≡
        (bytes_eq first.now n && bytes_eq second.now u || has groups.old n u)) }
    ensures failed { OnErr result ((n u : List ℕ) → has groups.new n u ≡ has groups.old n u) }
    ensures ordered { IsOrdered string_cmp groups.new }
{
    if let Some(group) = groups.get_mut(first) {
        note(alloc, group, second)?;
        return Ok(());
    }
    let key = String::from_str(alloc, first)?;
    let mut group = BTreeSet::new(alloc);
    note(alloc, &mut group, second)?;
    groups.insert(key, group)?;
    Ok(())
}
