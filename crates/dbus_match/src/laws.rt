//! The laws of matching, and under the same name those of rules. None of these functions does
//! anything, beyond comparing: their contracts are the laws.
#![tactic(auto)]

ghost use Rattle.dbus_match.specs.Matching.{Decided};
ghost use Rattle.dbus_match.specs.TakenFor.{MatchingMay, MoreMay};

pub use dbus_rule::laws::{
    canonical_spells, equal_rules, not_both, one_fault, one_rule, some_reading,
};

/// Of each message it is decided whether a rule matches it.
#[tactic(auto, using(crate::proofs::Decided::decided))]
pub fn decided()
    ensures { Decided }
{}

/// A rule that matches a message may match it.
#[tactic(auto, using(crate::proofs::TakenFor::matching_may))]
pub fn matching_may()
    ensures { MatchingMay }
{}

/// A rule that may match a message may match it if the owners of more names are known.
#[tactic(auto, using(crate::proofs::TakenFor::more_may))]
pub fn more_may()
    ensures { MoreMay }
{}
