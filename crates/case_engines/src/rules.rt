//! Match rules, and sets of them.

use crate::made::text_of;
use case_questions::{Memory, Question, Reply};
use dbus_match::{Owner, Rule, RuleFault, parse_rule, rule_text};
use dbus_message::MessageView;
use dbus_rule_set::{Owners, RuleHandle, RuleSet};
use std::alloc::{AllocError, Allocator};

/// The rule that the text of hexadecimal digits spells.
pub(crate) fn rule_of<A: Allocator + Copy>(alloc: A, digits: &str) -> Result<Rule<A>, RuleFault> {
    parse_rule(alloc, text_of(alloc, digits).as_str())
}

/// The owners of names that the words of a question from the third on say, as `NAME=UNIQUE`.
pub(crate) fn owners_of<A: Allocator + Copy>(
    alloc: A,
    question: Question<'_>,
) -> Option<Vec<Owner<A>, A>> {
    let mut owners = Vec::new(alloc);
    for n in 3..usize::MAX {
        let Some((name, unique)) = question.word(n).split_once('=') else {
            break;
        };
        let name = String::from_str(alloc, name).ok()?;
        let unique = String::from_str(alloc, unique).ok()?;
        owners.push(Owner { name, unique }).ok()?;
    }
    Some(owners)
}

/// Adds the canonical text of the rule that a text spells, and whether another text spells the same
/// rule; or why it spells none.
pub(crate) fn say_rule<A: Allocator + Copy>(
    reply: &mut Reply,
    memory: Memory<A>,
    question: Question<'_>,
) -> Option<()> {
    let text = text_of(memory.spare, question.word(1));
    match parse_rule(memory.heap, text.as_str()) {
        Ok(rule) => {
            reply.made(rule_text(memory.heap, &rule));
            let other = rule_of(memory.spare, question.word(2)).ok()?;
            reply.word(if other == rule { "same" } else { "other" });
        }
        Err(fault) => reply.told(&fault),
    }
    Some(())
}

// Adds a rule to a set. If memory runs out, it is given the rule that came back.
fn add<A: Allocator + Copy>(rules: &mut RuleSet<A>, rule: Rule<A>) -> Option<RuleHandle> {
    match rules.add(rule) {
        Ok(handle) => Some(handle),
        Err(refused) => rules.add(refused.value).ok(),
    }
}

// Adds the rules that the words from the second on spell.
fn add_all<A: Allocator + Copy>(
    rules: &mut RuleSet<A>,
    alloc: A,
    question: Question<'_>,
) -> Option<Vec<RuleHandle, A>> {
    let mut handles = Vec::new(alloc);
    for n in 2..usize::MAX {
        if question.word(n).is_empty() {
            break;
        }
        let rule = rule_of(alloc, question.word(n)).ok()?;
        handles.push(add(rules, rule)?).ok()?;
    }
    Some(handles)
}

// Finds the rules that match. If memory runs out the set is asked again.
fn find<A: Allocator + Copy>(
    rules: &RuleSet<A>,
    owners: &Owners,
    view: &MessageView,
    found: &mut Vec<RuleHandle, A>,
) -> Result<(), AllocError> {
    match rules.matching(view, owners, found) {
        Ok(()) => Ok(()),
        Err(AllocError) => rules.matching(view, owners, found),
    }
}

/// Adds which of the rules that the words from the second on spell match the message of the first,
/// by their numbers from 0, and how many are left in their set if what was found is removed.
pub(crate) fn say_found<A: Allocator + Copy>(
    reply: &mut Reply,
    memory: Memory<A>,
    question: Question<'_>,
) -> Option<()> {
    let bytes = question.bytes(reply.alloc(), 1);
    let view = MessageView::of(&bytes).ok()?;
    let Memory { heap, spare } = memory;
    let mut rules = RuleSet::new(heap);
    let handles = add_all(&mut rules, spare, question)?;
    let mut found = Vec::new(heap);
    find(&rules, &Owners::new(reply.alloc()), &view, &mut found).ok()?;
    for (n, handle) in handles.iter().enumerate() {
        if found.contains(handle) {
            reply.number(n as u64);
        }
    }
    for handle in &found {
        if rules.remove(*handle).is_none() || rules.get(*handle).is_some() {
            reply.word("still there");
        }
    }
    reply.counted("left", rules.len() as u64);
    Some(())
}
