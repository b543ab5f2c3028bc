//! What is known of the owners of names.
#![tactic(auto)]

ghost use Rattle.std.specs.Prelude.{◌≡◌, ◌↔◌, IsTrue, string_bytes};
ghost use Rattle.dbus_match.specs.Matching.{ownerships};
ghost use Rattle.dbus_match.specs.TakenFor.{Names, Shares};

use crate::asked::is_owned;
use crate::owner::Owner;
use std::alloc::Allocator;

/// What is known of the owners of well-known names. D-Bus Specification, "Bus names".
///
/// A slice of [`Owner`]s is asked one by one; `dbus_rule_set::Owners` looks names up.
pub trait KnownOwners {
    ghost use Rattle.std.specs.Prelude.{◌↔◌, IsTrue, List};
    ghost use Rattle.dbus_match.specs.Matching.{Ownership};
    ghost use Rattle.dbus_match.specs.TakenFor.{AreOne, Names};

    // The names with their owners.
    ghost known: { Self → List Ownership };

    /// Whether the name is the unique name, or one that it owns.
    fn names(&self, name: &str, unique: &str) -> bool
        ensures { IsTrue result ↔ Names (known self.now) name.now unique.now };

    /// Whether both are names of one connection.
    fn are_one(&self, name: &str, other: &str) -> bool
        ensures { IsTrue result ↔ AreOne (known self.now) name.now other.now };
}

/// Whether the name is the unique name, or one that it owns.
fn names_in<A: Allocator>(owners: &[Owner<A>], name: &str, unique: &str) -> bool
    ensures { IsTrue result ↔ Names (ownerships owners.now) name.now unique.now }
{
    name == unique || is_owned(owners, name, unique)
}

/// Whether the owner has the name, and the other is one of its names too.
fn has_both<A: Allocator>(owners: &[Owner<A>], owner: &Owner<A>, name: &str, other: &str) -> bool
    ensures { IsTrue result ↔
        ((string_bytes owner.now.name ≡ name.now) ×
        Names (ownerships owners.now) other.now (string_bytes owner.now.unique)) }
{
    owner.name.as_str() == name && names_in(owners, other, owner.unique.as_str())
}

/// Whether some owner has both names.
#[tactic(auto, using(crate::proofs::TakenFor::shared_at))]
fn shares<A: Allocator>(owners: &[Owner<A>], name: &str, other: &str) -> bool
    ensures { IsTrue result ↔
        Shares (ownerships owners.now) (ownerships owners.now) name.now other.now }
{
    for owner in owners {
        if has_both(owners, owner, name, other) {
            return true;
        }
    }
    false
}

impl<'a, A: Allocator> KnownOwners for &'a [Owner<A>] {
    ghost known = { λ owners. ownerships owners.now };

    fn names(&self, name: &str, unique: &str) -> bool {
        names_in(*self, name, unique)
    }

    fn are_one(&self, name: &str, other: &str) -> bool {
        names_in(*self, other, name) || shares(*self, name, other)
    }
}
