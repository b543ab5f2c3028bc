//! Match rules of D-Bus as texts: read and written. D-Bus Specification, "Match Rules".
//!
//! [`parse_rule`] reads a rule's text, and [`rule_text`] writes it. The crate `dbus_match` passes
//! both on, and asks whether a rule matches a message. docs/MATCH-RULES.md has the rules in our
//! words, and where they differ from the specification. An example is at [`parse_rule`].
#![tactic(auto)]

mod condition;
mod conditions;
mod copies;
mod fault;
mod fault_text;
mod key;
mod key_name;
pub mod laws;
mod pair;
mod parse;
mod rule;
mod rule_values;
mod to_text;
mod value_cut;
mod value_kinds;

pub use condition::Condition;
pub use fault::{RuleFault, RuleReason};
pub use key::Key;
pub use parse::parse_rule;
pub use rule::Rule;
pub use to_text::rule_text;
