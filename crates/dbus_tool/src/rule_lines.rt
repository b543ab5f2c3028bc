//! What is written of a rule that is refused.
ghost use Rattle.std.specs.Prelude.{◌≡◌, IfOk, OnOk, List, string_bytes};
ghost use Rattle.dbus_explain.specs.Explained.{IsExplainedRule};
ghost use Rattle.dbus_tool.specs.Words.{IsRuleTold, IsRuleToldBy, rule_line};

use cli_options::RefusedRule;
use dbus_explain::explain_rule;
use dbus_match::RuleReason;
use dbus_show::StringDraft;
use std::alloc::{AllocError, Allocator};

/// What is written of a rule that is refused: the line of its fault, whose place counts from the
/// start of the rule, and then what explains it, if that is asked for.
pub(crate) fn rule_text<A: Allocator + Copy>(
    alloc: A,
    refused: &RefusedRule,
) -> Result<String<A>, AllocError>
    ensures { IfOk result (λ text. IsRuleTold refused.now (string_bytes text)) }
{
    rule_text_by(
        alloc,
        refused.text.as_str(),
        refused.at,
        refused.reason,
        refused.explains,
    )
}

// The same, by the parts of the rule's fault.
fn rule_text_by<A: Allocator + Copy>(
    alloc: A,
    rule: &str,
    at: usize,
    reason: RuleReason,
    explains: bool,
) -> Result<String<A>, AllocError>
    ensures { IfOk result (λ text. IsRuleToldBy explains rule.now at reason (string_bytes text)) }
{
    let mut text = rule_line(alloc, at, reason)?;
    if explains {
        let explained = rule_explained(alloc, rule, at, reason)?;
        text.push_str(explained.as_str())?;
    }
    Ok(text)
}

// The line of a rule's fault.
fn rule_line<A: Allocator + Copy>(
    alloc: A,
    at: usize,
    reason: RuleReason,
) -> Result<String<A>, AllocError>
    ensures { IfOk result (λ line. string_bytes line ≡ rule_line at reason) }
{
    format!(in alloc; "rule refused at {at}: {reason}\n")
}

// The lines that explain a rule's fault.
fn rule_explained<A: Allocator + Copy>(
    alloc: A,
    rule: &str,
    at: usize,
    reason: RuleReason,
) -> Result<String<A>, AllocError>
    ensures { IfOk result (λ text. IsExplainedRule rule.now at (string_bytes text)) }
{
    let mut text = String::new(alloc);
    explain_into(&mut text, rule, at, reason)?;
    Ok(text)
}

// Writes the lines that explain a rule's fault into a string.
fn explain_into<A: Allocator>(
    out: &mut String<A>,
    rule: &str,
    at: usize,
    reason: RuleReason,
) -> Result<(), AllocError>
    ensures { OnOk result (IsExplainedRule rule.now at (string_bytes out.new)) }
{
    let mut draft = StringDraft::new(out);
    explain_rule(&mut draft, rule, at, reason);
    draft.finish()
}
