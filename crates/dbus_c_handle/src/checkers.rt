//! A checker that a handle keeps.
#![tactic(auto)]

use crate::handle::WireHandle;
use crate::kept::Kept;
use dbus_check::{Check, Checker};
use dbus_value_model::Limits;
use std::alloc::{AllocError, Global};

impl WireHandle {
    ghost use Rattle.std.specs.Prelude.{◌≡◌, None, MatchResult};
    ghost use Rattle.dbus_c_handle.specs.Checkers.{Handed, IsFresh, Restarted, checker_of};

    /// Keeps a new checker, which took nothing yet and takes messages that keep these limits. An
    /// error if memory runs out: then the handle keeps nothing. What it kept before is not freed.
    pub fn make_checker(&mut self, alloc: Global, limits: Limits) -> Result<(), AllocError>
        ensures { MatchResult result (λ _. IsFresh limits (checker_of self.new.state)) (λ _. self.new.state ≡ None) }
    {
        *self = WireHandle::none();
        let checker = Box::new(alloc, Checker::within(limits))?;
        *self = WireHandle::of(Box::new(alloc, Kept::Checker(checker))?);
        Ok(())
    }

    /// Passes the checker a piece, and returns what [`Checker::take`] does; `None` if the handle
    /// keeps no checker, and then it stays as it is.
    pub fn take(&mut self, piece: &[u8]) -> Option<Check>
        ensures { Handed (checker_of self.old.state) self.old.state self.new.state piece.now result }
    {
        match self.kept()? {
            Kept::Checker(checker) => Some(checker.take(piece)),
            _ => None,
        }
    }

    /// Begins again, as [`Checker::restart`] does. Whether the handle keeps a checker; if not, it
    /// stays as it is.
    pub fn restart(&mut self) -> bool
        ensures { Restarted (checker_of self.old.state) self.old.state self.new.state result }
    {
        let Some(kept) = self.kept() else {
            return false;
        };
        match kept {
            Kept::Checker(checker) => {
                checker.restart();
                true
            }
            _ => false,
        }
    }
}
