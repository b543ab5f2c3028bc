//! The law of commands. Its function does nothing, beyond comparing: its contract is the law.
#![tactic(auto)]

ghost use Rattle.std.specs.Prelude.{◌↔◌, IsTrue};
ghost use Rattle.cli_options.specs.Selections.{AreSameCommand};

use crate::command::Command;

/// `==` of two commands: they are equal exactly if both write the same, of all messages or by the
/// same selection.
pub fn equal_commands(a: &Command, b: &Command) -> bool
    ensures { IsTrue result ↔ AreSameCommand a.now b.now }
{
    a == b
}
