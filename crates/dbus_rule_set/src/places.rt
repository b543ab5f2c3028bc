//! The rules from one place of the index up to another.
#![tactic(auto)]

ghost use Rattle.std.specs.Prelude.{◌≡◌};
ghost use Rattle.std.specs.BTreeMap.{IsOrdered};
ghost use Rattle.std.specs.List.{filter};
ghost use Rattle.dbus_rule_set.specs.Handles.{handle_cmp};
ghost use Rattle.dbus_rule_set.specs.Searches.{IsUpTo, within};

use crate::handle::RuleHandle;
use dbus_rule::Rule;
use std::alloc::Allocator;
use std::collections::BTreeMap;
use std::collections::btree_map::Range;

/// The rules from the place of a kind and a hash up to another place.
pub(crate) fn rules_between<'a, A: Allocator>(
    rules: &'a BTreeMap<RuleHandle, Rule<A>, A>,
    kind: u8,
    hash: u64,
    end_kind: u8,
    end_hash: u64,
) -> Range<'a, RuleHandle, Rule<A>>
    requires { IsUpTo kind hash end_kind end_hash }
    ensures between { result ≡ filter (λ e. within kind hash end_kind end_hash e.0) rules.now.entries }
    ensures ordered { IsOrdered handle_cmp rules.now }
{
    let first = RuleHandle {
        kind,
        hash,
        number: 0,
    };
    let end = RuleHandle {
        kind: end_kind,
        hash: end_hash,
        number: 0,
    };
    rules.range(first..end)
}
