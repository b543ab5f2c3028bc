//! Match rules of D-Bus, matched with messages; and under the same name the rules and their texts
//! of `dbus_rule`. D-Bus Specification, "Match Rules".
//!
//! [`matches`] asks whether a rule matches a decoded message, and [`matches_view`] asks the same of
//! a view, and allocates nothing. Both take the [`Owner`]s of well-known names, which a rule's
//! `sender` needs. For many rules at once there is the crate `dbus_rule_set`. docs/MATCH-RULES.md
//! has the rules in our words, and where they differ from the specification. Examples are at
//! [`parse_rule`] and [`matches`].
#![tactic(auto)]

mod argument;
mod asked;
mod compare;
mod copies;
mod known_owners;
pub mod laws;
mod matching;
mod may_matching;
mod owner;
mod subject;
mod texts;
mod view_matching;
mod within;

pub use dbus_rule::{Rule, RuleFault, RuleReason, parse_rule, rule_text};
pub use known_owners::KnownOwners;
pub use matching::matches;
pub use may_matching::{may_match, may_match_known, may_match_view};
pub use owner::Owner;
pub use view_matching::{matches_view, other_keys_hold, string_arg, string_or_path_arg};
