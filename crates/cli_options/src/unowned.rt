//! Whether a selection asks for senders of which nobody is known to be the owner.
#![tactic(auto)]

ghost use Rattle.std.specs.Prelude.{◌≡◌, option_map};
ghost use Rattle.cli_options.specs.Owners.{is_unowned, lacks_owner, needs_owner, selection_lacks_owner, some_needs_owner, some_owns};

use crate::command::Request;
use crate::selection::Selection;
use dbus_calls::is_ownable;
use dbus_match::{Owner, Rule};

impl Request {
    /// Whether it has a selection that [lacks an owner](Selection::lacks_owner).
    pub fn lacks_owner(&self) -> bool
        ensures { result ≡ lacks_owner self.now.selection }
    {
        match &self.selection {
            Some(selection) => selection.lacks_owner(),
            None => false,
        }
    }
}

impl Selection {
    /// Whether a rule's `sender` is a well-known name, not the bus's own, that has no owner: the
    /// selection gives none and learns none. Such a rule matches nothing that a bus delivers, which
    /// names each sender by its unique name. D-Bus Specification, "Message Bus Names".
    pub fn lacks_owner(&self) -> bool
        ensures { result ≡ selection_lacks_owner self.now }
    {
        !self.learns && some_needs_owner(&self.rules, &self.owners)
    }
}

// Whether the sender of one of the rules needs another owner than these.
fn some_needs_owner(rules: &[Rule], owners: &[Owner]) -> bool
    ensures { result ≡ some_needs_owner owners.now rules.now }
{
    rules.iter().any(|rule| needs_owner(rule.sender(), owners))
}

// Whether the sender is there, and needs another owner than these.
fn needs_owner(sender: Option<&str>, owners: &[Owner]) -> bool
    ensures { result ≡ needs_owner owners.now (option_map (λ s. s.now) sender.entry) }
{
    match sender {
        Some(name) => is_unowned(name, owners),
        None => false,
    }
}

// Whether it is a well-known name, not the bus's own, that none of these owns.
fn is_unowned(name: &str, owners: &[Owner]) -> bool
    ensures { result ≡ is_unowned owners.now name.now }
{
    is_ownable(name) && !some_owns(owners, name)
}

// Whether one of them owns the name.
fn some_owns(owners: &[Owner], name: &str) -> bool
    ensures { result ≡ some_owns owners.now name.now }
{
    owners.iter().any(|owner| owner.name.as_str() == name)
}
