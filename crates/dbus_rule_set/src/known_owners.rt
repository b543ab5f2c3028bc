//! The owners that are kept, as those whom rules that may match ask for.
#![tactic(auto)]

ghost use Rattle.std.specs.Prelude.{◌↔◌, ℕ, List, IsTrue};
ghost use Rattle.dbus_match.specs.Matching.{IsOwned};
ghost use Rattle.dbus_match.specs.TakenFor.{Names};
ghost use Rattle.dbus_rule_set.specs.Owners.{owners_in};

use crate::owners::Owners;
use dbus_match::KnownOwners;

/// Whether the name is the unique name, or one that it owns.
fn names(owners: &Owners, name: &str, unique: &str) -> bool
    ensures { IsTrue result ↔ Names (owners_in owners.now) name.now unique.now }
{
    name == unique || owners.has(name, unique)
}

/// Whether the other name is one of an owner of the name.
fn shares(owners: &Owners, name: &str, other: &str) -> bool
    ensures { IsTrue result ↔
        ((u : List ℕ) × IsOwned (owners_in owners.now) name.now u ×
        Names (owners_in owners.now) other.now u) }
{
    let Some(uniques) = owners.by(name) else {
        return false;
    };
    for unique in uniques {
        if names(owners, other, unique.as_str()) {
            return true;
        }
    }
    false
}

impl KnownOwners for Owners {
    ghost use Rattle.dbus_rule_set.specs.Owners.{owners_in};

    ghost known = { λ owners. owners_in owners };

    fn names(&self, name: &str, unique: &str) -> bool {
        names(self, name, unique)
    }

    fn are_one(&self, name: &str, other: &str) -> bool {
        names(self, other, name) || shares(self, name, other)
    }
}
