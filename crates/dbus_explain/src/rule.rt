//! Why a match rule is refused.
#![tactic(auto)]

ghost use Rattle.std.specs.Prelude.{List, ℕ, IsUtf8};
ghost use Rattle.dbus_show.specs.Escapes.{escaped, visible};
ghost use Rattle.dbus_show.specs.ShownValues.{quoted};
ghost use Rattle.dbus_show.specs.declared.escapes.Escapes.TheVariants.{Shown};
ghost use Rattle.dbus_explain.specs.Explained.{IsExplainedRule, IsMarkAt, blanks};

use crate::blanks::Blanks;
use crate::values::allowed_at;
use dbus_rule::RuleReason;
use dbus_show::{Draft, Escapes, Visible, write_escaped, write_quoted};

/// Appends three lines that explain why a text spells no rule, for this reason at this place, each
/// ended by a line feed, with no other one in it: the text between quotation marks, with its
/// escapes, and a hidden character as `\u{202e}`; a `^` below the character at the place, or below
/// the closing mark if the place is at the text's end or past it; and what may be there.
///
/// ```text
///   "type='signal'member='M'"
///         ^
///   type takes signal, method_call, method_return or error; a comma comes between two pairs
/// ```
///
/// Only the draft allocates. Which words the last line has is not proved. D-Bus Specification,
/// "Match Rules".
pub fn explain_rule<D: Draft>(draft: &mut D, text: &str, at: usize, reason: RuleReason)
    ensures { (explained : List ℕ) × IsExplainedRule text.now at explained ×
        D.gains draft.old explained draft.new }
{
    draft.push_str("  ");
    write_rule(draft, text);
    draft.push_str("\n");
    write_mark(draft, text, at);
    draft.push_str("\n  ");
    draft.push_str(allowed_at(text.as_bytes(), at.min(text.len()), reason));
    draft.push_str("\n");
}

// Appends the rule as a text is shown, with hidden characters seen.
fn write_rule<D: Draft>(draft: &mut D, text: &str)
    ensures shown { D.gains draft.old (visible (quoted text.now)) draft.new }
    ensures is_text { IsUtf8 (quoted text.now) }
{
    write_quoted(&mut Visible { draft }, text);
}

// Appends the line of the mark.
fn write_mark<D: Draft>(draft: &mut D, text: &str, at: usize)
    ensures { (line : List ℕ) × IsMarkAt text.now at line × D.gains draft.old line draft.new }
{
    let front = text.floor_char_boundary(at);
    draft.push_str("   ");
    write_front(draft, &text[..front]);
    draft.push_str("^");
}

// Appends a blank for each character that shows a text.
fn write_front<D: Draft>(draft: &mut D, text: &str)
    ensures { D.gains draft.old (blanks (visible (escaped Shown text.now))) draft.new }
{
    let mut blanks = Blanks { draft };
    write_seen(&mut blanks, text);
}

// Appends a text with its escapes, with hidden characters seen.
fn write_seen<D: Draft>(draft: &mut D, text: &str)
    ensures { D.gains draft.old (visible (escaped Shown text.now)) draft.new }
{
    write_escaped(&mut Visible { draft }, text, Escapes::Shown);
}
