//! The owners of names.
#![tactic(auto)]

use crate::groups::{Groups, forget, has, has_only, join, leave, leave_each, note};
use std::alloc::{AllocError, Global};
use std::collections::{BTreeMap, BTreeSet};
use std::marker::Model;

/// The owners of well-known names. D-Bus Specification, "Bus names".
///
/// A bus gives a name one owner. More may be added, for messages of several buses or times.
///
/// To add or set an owner, to take those of a name away, or to look one up takes time for the
/// logarithm of the number of names and owners, for each owner that goes.
///
/// This keeps what `NameOwnerChanged` tells, whose third value is empty if no one owns the name any
/// more:
///
/// ```rust
/// use dbus_rule_set::Owners;
///
/// let mut owners = Owners::new(alloc);
/// for (name, unique) in [("org.example.Clock", ":1.7"), ("org.example.Lab", "")] {
///     owners.set(name, unique)?;
/// }
/// println!(rt; "{}", owners.of(":1.7").is_some())?;
/// ```
#[derive(Drop)]
pub struct Owners {
    alloc: Global,
    /// The owners of each name.
    by_name: Groups,
    /// The names of each owner.
    by_unique: Groups,
}

impl Model for Owners {
    ghost use Rattle.std.specs.FinSet as set;
    ghost use Rattle.dbus_rule_set.specs.Owners.{OwnerSet, ownership_code};

    ghost Value = { OwnerSet };

    ghost coded = { set.code ownership_code };

    ghost use Rattle.dbus_rule_set.specs.Groups.{AreConverse, owners_by};

    ghost view = { λ s. owners_by s.by_name };

    ghost invariant = { λ s. AreConverse s.by_name s.by_unique };
}

impl Owners {
    ghost use Rattle.std.specs.Prelude.{◌≡◌, ◌↔◌, ℕ, List, IsTrue, OnErr, OnOk, false};
    ghost use Rattle.std.specs.BTreeSet.{contains_text};
    ghost use Rattle.std.specs.FinSet.{contains, empty, insert};
    ghost use Rattle.std.specs.Option.{option_map_or};
    ghost use Rattle.dbus_match.specs.Matching.{IsOwned};
    ghost use Rattle.dbus_rule_set.specs.Owners.{owned_anew, owners_in, without_owner, without_owners, without_unique};

    /// No name has an owner. It allocates nothing.
    pub fn new(alloc: Global) -> Owners
        ensures { result ≡ empty }
    {
        Owners {
            alloc,
            by_name: BTreeMap::new(alloc),
            by_unique: BTreeMap::new(alloc),
        }
    }

    /// Gives the name this owner, beside those that it has.
    ///
    /// Returns an error only if an allocation failed. It then holds what it held.
    pub fn add(&mut self, name: &str, unique: &str) -> Result<(), AllocError>
        ensures added { OnOk result (self.new ≡
            insert self.old (record { name = name.now; unique = unique.now })) }
        ensures unchanged { OnErr result (self.new ≡ self.old) }
    {
        if has(&self.by_name, name, unique) {
            return Ok(());
        }
        join(self.alloc, &mut self.by_unique, unique, name)?;
        if join(self.alloc, &mut self.by_name, name, unique).is_err() {
            leave(&mut self.by_unique, unique, name);
            return Err(AllocError);
        }
        Ok(())
    }

    /// Gives the name this owner, in place of those that it has; an empty one: it has none from
    /// then on. Other names keep theirs.
    ///
    /// Returns an error only if an allocation failed. It then holds what it held.
    pub fn set(&mut self, name: &str, unique: &str) -> Result<(), AllocError>
        ensures set { OnOk result (self.new ≡ owned_anew name.now unique.now self.old) }
        ensures unchanged { OnErr result (self.new ≡ self.old) }
    {
        if unique.is_empty() {
            self.remove(name);
            return Ok(());
        }
        if has_only(&self.by_name, name, unique) {
            return Ok(());
        }
        let key = String::from_str(self.alloc, name)?;
        let mut owners = BTreeSet::new(self.alloc);
        note(self.alloc, &mut owners, unique)?;
        join(self.alloc, &mut self.by_unique, unique, name)?;
        match self.by_name.insert(key, owners) {
            Ok(None) => Ok(()),
            Ok(Some(mut others)) => {
                forget(&mut others, unique);
                leave_each(&mut self.by_unique, &others, name);
                Ok(())
            }
            Err(_) => {
                leave(&mut self.by_unique, unique, name);
                Err(AllocError)
            }
        }
    }

    /// Takes the name's owners away, if it has any. Other names keep theirs. It allocates nothing.
    pub fn remove(&mut self, name: &str)
        ensures { self.new ≡ without_owners name.now self.old }
    {
        if let Some(owners) = self.by_name.remove(name) {
            leave_each(&mut self.by_unique, &owners, name);
        }
    }

    /// Takes this owner of the name away, if it has it. Its other owners stay, and other names keep
    /// theirs. It allocates nothing.
    pub fn lose(&mut self, name: &str, unique: &str)
        ensures { self.new ≡ without_owner name.now unique.now self.old }
    {
        leave(&mut self.by_name, name, unique);
        leave(&mut self.by_unique, unique, name);
    }

    /// Takes this owner's names away, if it has any: it is gone. Their other owners stay. It allocates
    /// nothing.
    pub fn forget(&mut self, unique: &str)
        ensures { self.new ≡ without_unique unique.now self.old }
    {
        if let Some(names) = self.by_unique.remove(unique) {
            leave_each(&mut self.by_name, &names, unique);
        }
    }

    /// The names that the unique name owns, in the order of their bytes; `None` if it owns none.
    pub fn of(&self, unique: &str) -> Option<&BTreeSet<String>>
        ensures { (name : List ℕ) → option_map_or (λ names. contains_text names.now name) result false ≡
            contains self.now (record { name = name; unique = unique.now }) }
    {
        self.by_unique.get(unique)
    }

    /// The owners of the name; `None` if it has none.
    pub(crate) fn by(&self, name: &str) -> Option<&BTreeSet<String>>
        ensures { (unique : List ℕ) → option_map_or (λ uniques. contains_text uniques.now unique) result false ≡
            contains self.now (record { name = name.now; unique = unique }) }
    {
        self.by_name.get(name)
    }

    /// Whether the name has this owner.
    pub(crate) fn has(&self, name: &str, unique: &str) -> bool
        ensures { IsTrue result ↔ IsOwned (owners_in self.now) name.now unique.now }
    {
        has(&self.by_name, name, unique)
    }
}
