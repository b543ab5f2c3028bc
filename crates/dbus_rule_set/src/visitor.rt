//! What a search does with a rule that matches.
#![tactic(auto)]

ghost use Rattle.std.specs.Prelude.{◌≡◌, ◌∷◌, ◌++◌, [], List, length, take, OnOk};

use crate::handle::RuleHandle;
use std::alloc::{AllocError, Allocator};

/// What takes the rules that a search finds.
pub(crate) trait RuleVisitor {
    ghost use Rattle.dbus_rule_set.specs.declared.handle.RuleHandle.{RuleHandle};

    /// Why it stops the search.
    type Stop: Drop;

    // The handles that it gathered.
    ghost gathered: { Self → List RuleHandle };

    /// Takes the handle of a rule that matches. On an error the search goes no further.
    fn visit(&mut self, handle: RuleHandle) -> Result<(), Self::Stop>
        ensures taken { OnOk result (gathered self.new ≡ gathered self.old ++ handle ∷ []) }
        ensures kept { take (length (gathered self.old)) (gathered self.new) ≡ gathered self.old };
}

/// The handles go to the end of a list.
impl<A: Allocator> RuleVisitor for Vec<RuleHandle, A> {
    type Stop = AllocError;

    ghost gathered = { λ v. v.items };

    fn visit(&mut self, handle: RuleHandle) -> Result<(), AllocError> {
        self.push(handle)?;
        Ok(())
    }
}

/// Stops at the first rule that is found.
#[derive(Drop)]
pub(crate) struct FirstOnly;

/// A rule was found.
#[derive(Drop)]
pub(crate) struct Found;

impl RuleVisitor for FirstOnly {
    type Stop = Found;

    ghost gathered = { λ _. [] };

    fn visit(&mut self, _handle: RuleHandle) -> Result<(), Found> {
        Err(Found)
    }
}
