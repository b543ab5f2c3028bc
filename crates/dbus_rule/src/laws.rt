//! The laws of rules. None of these functions does anything, beyond comparing: their contracts are
//! the laws.
#![tactic(auto)]

ghost use Rattle.std.specs.Prelude.{◌↔◌, IsTrue};
ghost use Rattle.dbus_rule.specs.Laws.{CanonicalSpells, NotBoth, OneFault, OneRule, SomeReading};
ghost use Rattle.dbus_rule.specs.RuleViews.{AreSameRule};

use crate::rule::Rule;
use std::alloc::Allocator;

/// A text spells at most one rule.
pub fn one_rule()
    ensures { OneRule }
{}

/// The canonical text of a rule spells that rule.
pub fn canonical_spells()
    ensures { CanonicalSpells }
{}

/// A text has at most one fault, at one place.
#[tactic(auto, using(crate::proofs::FaultLaws::one_fault))]
pub fn one_fault()
    ensures { OneFault }
{}

/// Each text spells a rule or has a fault.
pub fn some_reading()
    ensures { SomeReading }
{}

/// No text spells a rule and has a fault.
pub fn not_both()
    ensures { NotBoth }
{}

/// `==` of two rules: they are equal exactly if they have the same keys with the same values.
pub fn equal_rules<A: Allocator>(a: &Rule<A>, b: &Rule<A>) -> bool
    ensures { IsTrue result ↔ AreSameRule a.now b.now }
{
    a == b
}
