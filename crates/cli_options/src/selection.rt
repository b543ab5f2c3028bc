//! Which messages are selected.
ghost use Rattle.std.specs.Prelude.{IfOk};
ghost use Rattle.cli_options.specs.Selections.{IsByRule};

use dbus_match::{Owner, Rule};
use std::alloc::{AllocError, Global};

/// What is asked of a rule and a message. D-Bus Specification, "Match Rules".
#[derive(Clone, Copy, PartialEq, Eq, Debug)]
pub enum Question {
    /// Whether the rule matches it, as one who subscribes to messages asks.
    Matches,
    /// Whether the rule may match it, as one who forbids messages asks: whether it matches what the
    /// message may be taken for, as `dbus_match::may_match` says. Its SENDER is taken for the one
    /// that the bus wrote; if it has none, it may be from anybody.
    MayMatch,
}

/// Which messages are selected: those of which what is asked holds by one of the rules, or, if
/// `is_inverted`, by none of them. D-Bus Specification, "Match Rules".
#[derive(PartialEq, Eq, Debug, Drop)]
pub struct Selection {
    /// The rules. Without any, no message is matched.
    pub rules: Vec<Rule>,
    /// Whether the messages that no rule matches are selected, and not the others.
    pub is_inverted: bool,
    /// What is asked of each rule.
    pub question: Question,
    /// The owners of well-known names: `sender` with such a name also matches what its owner sent,
    /// and a rule with `destination` may match what is for another name of its owner.
    pub owners: Vec<Owner>,
    /// Whether a signal of the bus that names an owner replaces the old ones from then on.
    pub learns: bool,
    /// Whether rules match as at a bus: a message with a DESTINATION is matched only by a rule with
    /// `eavesdrop='true'`. D-Bus Specification, "Eavesdropping".
    pub as_bus: bool,
}

impl Selection {
    /// The messages that this rule matches, not as at a bus, with no owners, and none is learned.
    ///
    /// Returns `AllocError` only if an allocation failed.
    pub fn by_rule(alloc: Global, rule: Rule) -> Result<Selection, AllocError>
        ensures { IfOk result (IsByRule rule) }
    {
        let mut rules = Vec::new(alloc);
        rules.push(rule)?;
        Ok(Selection {
            rules,
            is_inverted: false,
            question: Question::Matches,
            owners: Vec::new(alloc),
            learns: false,
            as_bus: false,
        })
    }
}
