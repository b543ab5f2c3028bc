//! Copies of commands and selections.
#![tactic(auto)]

ghost use Rattle.cli_options.specs.Selections.{AreSameCommand, AreSameSelection};

use crate::command::Command;
use crate::selection::Selection;
use std::alloc::AllocError;

impl Clone for Command {
    ghost is_clone = { λ command copy. AreSameCommand copy command };

    /// The same command; its selection in memory of its own.
    ///
    /// Returns `AllocError` if an allocation failed, and nothing of the copy is left then.
    fn clone(&self) -> Result<Command, AllocError> {
        let selection = match &self.selection {
            Some(selection) => Some(selection.clone()?),
            None => None,
        };
        Ok(Command {
            output: self.output,
            selection,
        })
    }
}

impl Clone for Selection {
    ghost is_clone = { λ selection copy. AreSameSelection copy selection };

    /// The same selection, in memory of its own.
    ///
    /// Returns `AllocError` if an allocation failed, and nothing of the copy is left then.
    fn clone(&self) -> Result<Selection, AllocError> {
        Ok(Selection {
            rules: self.rules.clone()?,
            is_inverted: self.is_inverted,
            question: self.question,
            owners: self.owners.clone()?,
            learns: self.learns,
            as_bus: self.as_bus,
        })
    }
}
