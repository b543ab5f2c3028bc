//! The names by which connections are known.
#![tactic(auto)]

ghost use Rattle.std.specs.Prelude.{◌≡◌, ◌&&◌, ℕ, List, Option, None, Some, IfOk, OnErr, OnOk, if◌then◌else◌, option_map};
ghost use Rattle.std.specs.Option.{is_none};
ghost use Rattle.std.specs.Str.{bytes_eq};
ghost use Rattle.dbus_names.specs.Kept.{first_of, kept_names};

use dbus_rule_set::Owners;
use std::alloc::{AllocError, Global};
use std::collections::BTreeMap;

/// Of each connection the name that it was said to have when it was known by none, by its unique
/// name. It may have lost it since. D-Bus Specification, "Message Bus Names".
#[derive(Drop)]
pub(crate) struct FirstNames {
    alloc: Global,
    names: BTreeMap<String, String>,
}

impl FirstNames {
    /// No connection was said to have a name. It allocates nothing.
    pub(crate) fn new(alloc: Global) -> FirstNames
        ensures { (unique : List ℕ) → first_of result unique ≡ None }
    {
        FirstNames {
            alloc,
            names: BTreeMap::new(alloc),
        }
    }

    /// The name by which the connection is known: its first one, if it still has it.
    pub(crate) fn of(&self, unique: &str, owners: &Owners) -> Option<&str>
        ensures { option_map (λ name. name.now) result ≡ kept_names self.now owners.now unique.now }
    {
        let name = self.names.get(unique)?;
        let names = owners.of(unique)?;
        if names.contains(name.as_str()) {
            Some(name.as_str())
        } else {
            None
        }
    }

    /// Notes that the connection has this name from now on: it is known by it, if by no other name,
    /// which is what it returns.
    ///
    /// `AllocError`: an allocation failed. Then each is known as before.
    pub(crate) fn note(
        &mut self,
        name: &str,
        unique: &str,
        owners: &Owners,
    ) -> Result<bool, AllocError>
        ensures noted { OnOk result ((u : List ℕ) → first_of self.new u ≡
            (if bytes_eq unique.now u && is_none (kept_names self.old owners.now u) then Some name.now
            else first_of self.old u)) }
        ensures is_first { IfOk result (λ is_first.
            is_first ≡ is_none (kept_names self.old owners.now unique.now)) }
        ensures unchanged { OnErr result ((u : List ℕ) → first_of self.new u ≡ first_of self.old u) }
    {
        if self.of(unique, owners).is_some() {
            return Ok(false);
        }
        let key = String::from_str(self.alloc, unique)?;
        let name = String::from_str(self.alloc, name)?;
        match self.names.insert(key, name) {
            Ok(_) => Ok(true),
            Err(_) => Err(AllocError),
        }
    }

    /// Forgets a connection that is gone. It allocates nothing.
    pub(crate) fn forget(&mut self, unique: &str)
        ensures { (u : List ℕ) → first_of self.new u ≡
            (if bytes_eq unique.now u then None else first_of self.old u) }
    {
        self.names.remove(unique);
    }
}
