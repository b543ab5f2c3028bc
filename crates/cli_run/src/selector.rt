//! A selection whose rules are in a set, which finds those that match a message.
ghost use Rattle.std.specs.Prelude.{◌≡◌, ◌↔◌, List, IfOk, IsTrue};
ghost use Rattle.std.specs.Map.{values_of};
ghost use Rattle.dbus_value_model.specs.declared.order.Order.{Order};
ghost use Rattle.dbus_message_model.specs.Messages.{MessageTree};
ghost use Rattle.dbus_match.specs.Matching.{Ownership};
ghost use Rattle.dbus_view.specs.Views.{Views};
ghost use Rattle.dbus_rule_set.specs.Held.{asks_as_bus, held};
ghost use Rattle.dbus_rule_set.specs.Owners.{owners_in};
ghost use Rattle.cli_options.specs.Selections.{SelectsBy, SomeHolds};
ghost use Rattle.cli_options.specs.declared.selection.Question.TheVariants as questions;
ghost use Rattle.cli_run.specs.RuleLists.{MatchAlike};

use cli_options::{Question, Selection};
use dbus_match::Rule;
use dbus_rule_set::{Owners, RuleSet};
use dbus_view::MessageView;
use std::alloc::{AllocError, Global};

/// A selection, and its rules once more, in a set.
#[derive(Drop)]
pub(crate) struct Selector<'a> {
    /// Which messages are selected.
    pub(crate) selection: &'a Selection,
    rules: RuleSet,
    ghost same_rules: { MatchAlike selection.now.rules.items (values_of (held rules)) },
    ghost as_bus: { asks_as_bus rules ≡ selection.now.as_bus },
}

impl<'a> Selector<'a> {
    /// Of this selection.
    ///
    /// Returns `AllocError` if there is not enough memory.
    pub(crate) fn new(selection: &'a Selection) -> Result<Selector<'a>, AllocError>
        ensures { IfOk result (λ selector. selector.selection.now ≡ selection.now) }
    {
        let mut rules = set_of(*selection.rules.allocator(), &selection.rules)?;
        rules.ask_as_bus(selection.as_bus);
        Ok(Selector { selection, rules })
    }

    /// Whether the message that the view is of is selected if these are the owners of names.
    pub(crate) fn selects(&self, view: &MessageView, owners: &Owners) -> bool
        ensures { (order : Order) (m : MessageTree) → Views view.now order m →
            IsTrue result ↔ SelectsBy self.now.selection.now (owners_in owners.now) m }
    {
        if takes_all(self.selection) {
            return !self.selection.is_inverted;
        }
        self.any_holds(view, owners) != self.selection.is_inverted
    }

    // Whether what is asked holds of any of the rules.
    fn any_holds(&self, view: &MessageView, owners: &Owners) -> bool
        ensures { (order : Order) (m : MessageTree) → Views view.now order m →
            IsTrue result ↔ SomeHolds self.now.selection.now.as_bus self.now.selection.now.question
            (values_of (held self.now.rules)) m (owners_in owners.now) }
    {
        match self.selection.question {
            Question::Matches => self.rules.any_matches(view, owners),
            Question::MayMatch => self.rules.any_may_match(view, view.sender(), owners),
        }
    }
}

// Whether the first rule has no keys, as that of a list for which none was given, and not as at a
// bus: it matches each message, and no other need be looked for.
fn takes_all(selection: &Selection) -> bool
    ensures { IsTrue result → (m : MessageTree) (os : List Ownership) →
        SomeHolds selection.now.as_bus questions.Matches selection.now.rules.items m os }
{
    match selection.rules.as_slice() {
        [rule, ..] => !selection.as_bus && rule.conditions().is_empty(),
        [] => false,
    }
}

// A set of these rules.
fn set_of(alloc: Global, rules: &[Rule]) -> Result<RuleSet, AllocError>
    ensures { IfOk result (λ set. MatchAlike rules.now (values_of (held set))) }
{
    let mut set = RuleSet::new(alloc);
    for rule in rules {
        let Ok(_handle) = set.add(rule.clone()?) else {
            return Err(AllocError);
        };
    }
    Ok(set)
}
