//! Where a rule stands among the others: under the value of one of its keys.
#![tactic(auto)]

ghost use Rattle.std.specs.Prelude.{◌≡◌, ◌<◌, ◌≤◌, true, string_bytes};
ghost use Rattle.dbus_rule.specs.RuleViews.{rule_pairs};
ghost use Rattle.dbus_rule_set.specs.Places.{is_placed, place_hash, trims};

use crate::handle::RuleHandle;
use crate::kinds::{OTHERS, kind_of};
use crate::numbers::text_hash;
use crate::places::rules_between;
use crate::slashes::trimmed;
use dbus_rule::{Condition, Key, Rule};
use std::alloc::Allocator;
use std::collections::BTreeMap;

/// The number from which on rules in one place are not counted.
const MANY: u32 = 32;

/// Whether the values of the key stand without a last `/`.
fn trims(key: Key) -> bool
    ensures { result ≡ trims key }
{
    matches!(key, Key::PathNamespace | Key::ArgPath(_))
}

/// The hash under which a rule with the condition may stand.
fn place_hash<A: Allocator>(condition: &Condition<A>) -> u32
    ensures { result ≡ place_hash condition.now.key (string_bytes condition.now.value) }
{
    let value = condition.value.as_str().as_bytes();
    if trims(condition.key) {
        text_hash(trimmed(value))
    } else {
        text_hash(value)
    }
}

/// How many rules stand in the place, counted up to `MANY`.
fn crowd<A: Allocator>(rules: &BTreeMap<RuleHandle, Rule<A>, A>, kind: u8, hash: u32) -> u32
    ensures { result ≤ 32 }
{
    let first = u64::from(hash);
    let mut count = 0;
    for _rule in rules_between(rules, kind, first, kind, first + 1) {
        if count == MANY {
            break;
        }
        count += 1;
    }
    count
}

/// The rule's handle, as the set's next one. It stands under that one of its keys under which the
/// fewest of the rules stand.
pub(crate) fn handle_of<A: Allocator>(
    rules: &BTreeMap<RuleHandle, Rule<A>, A>,
    rule: &Rule<A>,
    number: u64,
) -> RuleHandle
    ensures kind { result.kind < 137 }
    ensures number { result.number ≡ number }
    ensures placed { is_placed result (rule_pairs rule.now) ≡ true }
{
    let mut handle = RuleHandle {
        kind: OTHERS,
        hash: 0,
        number,
    };
    let mut fewest = MANY;
    let conditions = rule.conditions();
    for condition in conditions {
        let Some(kind) = kind_of(condition.key) else {
            continue;
        };
        let hash = place_hash(condition);
        let count = crowd(rules, kind, hash);
        if count > fewest {
            continue;
        }
        fewest = count;
        handle = RuleHandle {
            kind,
            hash: u64::from(hash),
            number,
        };
    }
    handle
}
