//! The reasons why a text spells no rule, as text.
#![tactic(auto)]

use crate::fault::RuleReason;
use std::fmt;

/// The name of the reason, as `KeyTwice`.
impl fmt::Display for RuleReason {
    ghost use Rattle.std.specs.Prelude.{Some};
    ghost use Rattle.dbus_rule.specs.Faults.{rule_reason_text};

    ghost output = { λ reason. Some (rule_reason_text reason) };

    fn fmt<W: fmt::Write>(&self, f: &mut fmt::Formatter<W>) -> fmt::Result {
        match self {
            RuleReason::Nul => f.write_str("Nul"),
            RuleReason::NoEquals => f.write_str("NoEquals"),
            RuleReason::KeyName => f.write_str("KeyName"),
            RuleReason::KeyTwice => f.write_str("KeyTwice"),
            RuleReason::PathAndNamespace => f.write_str("PathAndNamespace"),
            RuleReason::OpenQuote => f.write_str("OpenQuote"),
            RuleReason::BadValue => f.write_str("BadValue"),
        }
    }
}
