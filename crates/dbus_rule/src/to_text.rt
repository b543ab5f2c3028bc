//! The canonical text of a rule.
#![tactic(auto)]

ghost use Rattle.std.specs.Prelude.{◌≡◌, ◌++◌, IfOk, OnOk, string_bytes};
ghost use Rattle.dbus_rule.specs.Rules.{SpellsRule, canonical, pair_text, quote_escaped, condition_pair, condition_pairs};
ghost use Rattle.dbus_rule.specs.RuleViews.{rule_pairs};

use crate::condition::Condition;
use crate::key_name::push_key;
use crate::rule::Rule;
use std::alloc::{AllocError, Allocator};

/// Appends the value, each apostrophe as `'\''`. If an allocation fails, a part of it may be there.
fn push_escaped<A: Allocator>(text: &mut String<A>, value: &str) -> Result<(), AllocError>
    ensures { OnOk result (string_bytes text.new ≡
        string_bytes text.old ++ quote_escaped value.now) }
{
    let mut rest = value;
    while let Some((run, after)) = rest.split_once('\'') {
        text.push_str(run)?;
        text.push_str("'\\''")?;
        rest = after;
    }
    text.push_str(rest)
}

/// Appends the condition's key, `=` and the value in apostrophes.
fn push_condition<A: Allocator>(
    text: &mut String<A>,
    condition: &Condition<A>,
) -> Result<(), AllocError>
    ensures { OnOk result
        (string_bytes text.new ≡ string_bytes text.old ++ pair_text (condition_pair condition.now)) }
{
    push_key(text, condition.key)?;
    text.push_str("='")?;
    push_escaped(text, condition.value.as_str())?;
    text.push_str("'")
}

/// The conditions' texts, joined by commas.
fn canonical_text<A: Allocator + Copy>(
    alloc: A,
    conditions: &[Condition<A>],
) -> Result<String<A>, AllocError>
    ensures { IfOk result (λ text. string_bytes text ≡ canonical (condition_pairs conditions.now)) }
{
    let mut text = String::new(alloc);
    for (i, condition) in conditions.iter().enumerate() {
        if i > 0 {
            text.push_str(",")?;
        }
        push_condition(&mut text, condition)?;
    }
    Ok(text)
}

/// The canonical text of the rule: its keys in canonical order, joined by commas without spaces,
/// and each value in apostrophes, an apostrophe in a value as `'\''`. `parse_rule` reads the rule
/// back.
///
/// `AllocError` comes only if an allocation failed. The specification knows no canonical text; this
/// one is the project's own.
pub fn rule_text<A: Allocator + Copy>(alloc: A, rule: &Rule<A>) -> Result<String<A>, AllocError>
    ensures exact { IfOk result (λ text. string_bytes text ≡ canonical (rule_pairs rule.now)) }
    ensures spells { IfOk result (λ text.
        ∥ SpellsRule (string_bytes text) (rule_pairs rule.now) ∥₁) }
{
    let text = canonical_text(alloc, rule.conditions.as_slice())?;
    Ok(text)
}
