//! The rules that a command is given.
ghost use Rattle.std.specs.Prelude.{map};
ghost use Rattle.cli_options.specs.Told.{TellsRules};

use crate::usage_fault::{RefusedRule, UsageFault};
use dbus_match::{Rule, RuleFault, parse_rule};
use std::alloc::Global;

/// The rules that the texts spell, in their order. `Rule`: the first text that spells none, with
/// `explains` as it is given. `Memory`: an allocation failed.
pub(crate) fn rules_spelled(
    alloc: Global,
    texts: &[&str],
    explains: bool,
) -> Result<Vec<Rule>, UsageFault>
    ensures { TellsRules (map (λ text. text.now) texts.now) explains result }
{
    let mut rules = Vec::new(alloc);
    for text in texts {
        let rule = match parse_rule(alloc, text) {
            Ok(rule) => rule,
            Err(RuleFault::Memory) => return Err(UsageFault::Memory),
            Err(RuleFault::Bad { at, reason }) => {
                let Ok(text) = String::from_str(alloc, text) else {
                    return Err(UsageFault::Memory);
                };
                return Err(UsageFault::Rule(RefusedRule {
                    text,
                    at,
                    reason,
                    explains,
                }));
            }
        };
        if rules.push(rule).is_err() {
            return Err(UsageFault::Memory);
        }
    }
    Ok(rules)
}
