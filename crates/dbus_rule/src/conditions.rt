//! The conditions of a rule, in canonical order.
#![tactic(auto)]

ghost use Rattle.std.specs.Prelude.{◌≡◌, ◌≢◌, ◌≤◌, ◌==◌, ℕ, ltb, length, IfOk, IfErr, OnOk};
ghost use Rattle.std.specs.List.{AllByRecursion, prefix_len};
ghost use Rattle.dbus_rule.specs.Keys.{rank};
ghost use Rattle.dbus_rule.specs.Rules.{SpellsRule, condition_pair, condition_pairs, insert_pair};
ghost use Rattle.dbus_rule.specs.RuleViews.{IsRuleFault};

use crate::condition::Condition;
use crate::fault::RuleFault;
use crate::key::Key;
use crate::pair::read_pair;
use std::alloc::{AllocFailed, Allocator};

/// The number of conditions before one with the key.
fn place_of<A: Allocator>(conditions: &[Condition<A>], key: Key) -> usize
    ensures { result ≡ prefix_len (λ c. ltb (rank c.key) (rank key)) conditions.now }
{
    conditions
        .iter()
        .take_while(|condition| condition.key.rank() < key.rank())
        .count()
}

/// Puts the condition in its place.
fn insert<A: Allocator>(
    conditions: &mut Vec<Condition<A>, A>,
    condition: Condition<A>,
) -> Result<(), AllocFailed<Condition<A>>>
    ensures { OnOk result
        (condition_pairs conditions.new.items ≡
        insert_pair (condition_pair condition) (condition_pairs conditions.old.items)) }
{
    let place = place_of(conditions.as_slice(), condition.key);
    conditions.insert(place, condition)
}

/// How many spaces the text begins with.
fn spaces(text: &[u8]) -> usize
    ensures count { result ≡ prefix_len (λ b. b == 32) text.now }
    ensures within { result ≤ length text.now }
{
    text.iter().take_while(|b| **b == b' ').count()
}

/// The conditions that the text gives, in canonical order.
#[tactic(auto, using(crate::proofs::RuleReadings::spaces_at, crate::proofs::RuleReadings::read_none))]
pub(crate) fn read_conditions<A: Allocator + Copy>(
    alloc: A,
    text: &str,
) -> Result<Vec<Condition<A>, A>, RuleFault>
    requires { AllByRecursion (λ b. b ≢ 0) text.now }
    ensures rule { IfOk result (λ conditions.
        SpellsRule text.now (condition_pairs conditions.items)) }
    ensures fault { IfErr result (λ e. IsRuleFault text.now e) }
{
    let bytes = text.as_bytes();
    let mut conditions = Vec::new(alloc);
    let mut from = 0;
    loop {
        let key_from = from + spaces(&bytes[from..]);
        if key_from == bytes.len() {
            return Ok(conditions);
        }
        let (condition, end) = read_pair(alloc, text, key_from, conditions.as_slice())?;
        insert(&mut conditions, condition)?;
        if end == bytes.len() {
            return Ok(conditions);
        }
        from = end + 1;
    }
}
