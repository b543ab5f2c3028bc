//! Sets of match rules of D-Bus, with an index: which of many rules match a message. D-Bus
//! Specification, "Match Rules".
//!
//! [`RuleSet::add`] keeps a rule and returns its [`RuleHandle`], [`RuleSet::matching`] gives the
//! handles of the rules that match a message, [`RuleSet::any_matches`] says whether there is one, and
//! [`RuleSet::remove`] removes a rule. A rule matches exactly if `dbus_match::matches_view` says so.
//! An example is at [`RuleSet`].
//!
//! [`RuleSet::any_may_match`] says whether a rule may match a message, as one who forbids messages
//! asks. After [`RuleSet::ask_as_bus`] a set asks as a bus does.
//!
//! [`Owners`] keeps the owners of well-known names from message to message, for
//! [`RuleSet::matching`], [`RuleSet::any_matches`] and [`RuleSet::any_may_match`].
#![tactic(auto)]

mod asked;
mod groups;
mod handle;
mod kinds;
mod known_owners;
mod matching;
mod met;
mod numbers;
mod owners;
mod places;
mod rule_set;
mod search;
mod slashes;
mod standing;
mod visitor;

pub use handle::RuleHandle;
pub use owners::Owners;
pub use rule_set::RuleSet;
