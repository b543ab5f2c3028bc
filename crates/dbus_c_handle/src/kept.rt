//! What a handle keeps.
#![tactic(auto)]

use dbus_c_auth::Handshake;
use dbus_c_connection::KeptConnection;
use dbus_check::Checker;
use dbus_rule_set::{Owners, RuleSet};
use std::alloc::Global;

/// Match rules, and the owners of the names that their senders may be.
#[derive(Drop)]
pub struct KeptRules {
    /// The rules.
    pub rules: RuleSet,
    /// The owners of names.
    pub owners: Owners,
}

impl KeptRules {
    ghost use Rattle.std.specs.Prelude.{◌≡◌, [], false};
    ghost use Rattle.std.specs.FinSet.{empty};
    ghost use Rattle.dbus_rule_set.specs.Held.{asks_as_bus, held, given};

    /// No rule, and no owner of a name. It allocates nothing.
    pub fn new(alloc: Global) -> KeptRules
        ensures rules { held result.rules ≡ [] }
        ensures given { given result.rules ≡ 0 }
        ensures asked { asks_as_bus result.rules ≡ false }
        ensures owners { result.owners ≡ empty }
    {
        KeptRules {
            rules: RuleSet::new(alloc),
            owners: Owners::new(alloc),
        }
    }
}

/// What a handle keeps in its block.
#[derive(Drop)]
pub enum Kept {
    /// A checker of messages, in a block of its own: it is large.
    Checker(Box<Checker>),
    /// Match rules.
    Rules(KeptRules),
    /// An end of a handshake.
    Handshake(Handshake),
    /// One side of a connection.
    Connection(KeptConnection),
}
