//! The reading of a rule's text.
#![tactic(auto)]

ghost use Rattle.std.specs.Prelude.{◌≡◌, ◌==◌, ℕ, List, position};
ghost use Rattle.dbus_rule.specs.declared.fault.RuleReason.{RuleReason as Reason};
ghost use Rattle.dbus_rule.specs.Rules.{Pair, SpellsRule};
ghost use Rattle.dbus_rule.specs.Faults.{IsFault};
ghost use Rattle.dbus_rule.specs.RuleViews.{IsRuleReading, IsThisFault, IsThisRule};

use crate::conditions::read_conditions;
use crate::fault::{RuleFault, RuleReason};
use crate::rule::Rule;
use std::alloc::Allocator;

/// The place of the first U+0000.
fn first_nul(text: &[u8]) -> Option<usize>
    ensures { result ≡ position (λ b. b == 0) text.now }
{
    text.iter().position(|b| *b == 0)
}

/// The rule or the fault of the text.
#[tactic(auto, using(crate::proofs::Nuls::nul_at, crate::proofs::Nuls::no_nul_in))]
fn read_rule<A: Allocator + Copy>(alloc: A, text: &str) -> Result<Rule<A>, RuleFault>
    ensures { IsRuleReading text.now result }
{
    if let Some(at) = first_nul(text.as_bytes()) {
        return Err(RuleFault::Bad {
            at,
            reason: RuleReason::Nul,
        });
    }
    let conditions = read_conditions(alloc, text)?;
    Ok(Rule { conditions })
}

/// The rule that the text spells. D-Bus Specification, "Match Rules".
///
/// Else `Bad` with the text's one fault, in the order and at the place that `RuleReason` says;
/// `Memory` comes only if an allocation failed.
///
/// This differs from the specification in these points: each key occurs at most once; spaces are
/// allowed only before a key and after the last comma; `destination` takes any bus name, and
/// `arg0namespace` any text.
///
/// ```rust
/// use dbus_rule::{RuleFault, parse_rule};
///
/// match parse_rule(alloc, "type='signal',member='NameAcquired'") {
///     Ok(_rule) => println!(rt; "a rule")?,
///     Err(RuleFault::Bad { at, reason }) => println!(rt; "no rule: {reason}, at {at}")?,
///     Err(RuleFault::Memory) => println!(rt; "out of memory")?,
/// }
/// ```
#[tactic(auto, using(crate::proofs::RuleReadings::this_rule, crate::proofs::RuleReadings::this_fault))]
pub fn parse_rule<A: Allocator + Copy>(alloc: A, text: &str) -> Result<Rule<A>, RuleFault>
    ensures reading { IsRuleReading text.now result }
    ensures spelled { (pairs : List Pair) → SpellsRule text.now pairs → IsThisRule pairs result }
    ensures faulty { (reason : Reason) (at : ℕ) → IsFault text.now reason at →
        IsThisFault reason at result }
{
    read_rule(alloc, text)
}
