//! Match rules that a handle keeps.
#![tactic(auto)]

ghost use Rattle.std.specs.Prelude.{◌≡◌, Some, MatchResult};
ghost use Rattle.dbus_rule.specs.declared.fault.RuleFault.TheVariants.{Memory};
ghost use Rattle.dbus_c_handle.specs.Rules.{AddsRule, KeepsAll, SetsAsBus, SetsOwner};

use crate::handle::WireHandle;
use crate::kept::{Kept, KeptRules};
use dbus_match::{Rule, RuleFault, parse_rule, rule_text};
use dbus_rule_set::RuleHandle;
use dbus_view::MessageView;
use std::alloc::{AllocError, Global};

impl WireHandle {
    ghost use Rattle.std.specs.Prelude.{◌≡◌, ◌↔◌, IfOk, IsTrue, MatchResult, is_some, option_map};
    ghost use Rattle.dbus_value_model.specs.declared.order.Order.{Order};
    ghost use Rattle.dbus_message_model.specs.Messages.{MessageTree};
    ghost use Rattle.dbus_rule.specs.RuleViews.{IsRuleFault};
    ghost use Rattle.dbus_rule_set.specs.Held.{rule_at, without};
    ghost use Rattle.dbus_view.specs.Views.{Views};
    ghost use Rattle.dbus_c_handle.specs.Rules.{Adds, AnyMay, Finds, IsWritten, KeepsAll, SetsAsBus, SetsOwner, as_bus_of, given_of, owners_of, rules_of};

    /// Keeps the rule that the text spells, as [`parse_rule`] reads it, beside the rules that it
    /// keeps, and returns its handle in the set. The fault of the text if there is one, or `Memory`
    /// if memory runs out or 2^64 - 1 rules were added: then it keeps all that it kept. Else a
    /// handle that keeps something else frees that.
    pub fn add_rule(&mut self, alloc: Global, text: &str) -> Result<RuleHandle, RuleFault>
        ensures { MatchResult result (Adds text.now self.old.state self.new.state)
            (λ fault. IsRuleFault text.now fault × KeepsAll self.old.state self.new.state) }
    {
        let rule = parse_rule(alloc, text)?;
        let mut kept = self.take_or_make(alloc)?;
        let added = add_to(alloc, &mut kept, rule);
        *self = WireHandle::of(kept);
        added
    }

    // The box of what the handle kept, or of rules of which there are none yet. From then on it
    // keeps nothing.
    pub(crate) fn take_or_make(&mut self, alloc: Global) -> Result<Box<Kept>, AllocError>
        ensures { MatchResult result (λ kept. KeepsAll self.old.state (Some kept.value)) (λ _. KeepsAll self.old.state self.new.state) }
    {
        match self.take_box(alloc) {
            Some(kept) => Ok(kept),
            None => Ok(Box::new(alloc, Kept::Rules(KeptRules::new(alloc)))?),
        }
    }

    /// Removes the rule of this handle in the set. Whether there was one.
    pub fn remove_rule(&mut self, handle: RuleHandle) -> bool
        ensures was { result ≡ is_some (rule_at handle (rules_of self.old.state)) }
        ensures removed { rules_of self.new.state ≡ without handle (rules_of self.old.state) }
        ensures given { given_of self.new.state ≡ given_of self.old.state }
        ensures asked { as_bus_of self.new.state ≡ as_bus_of self.old.state }
        ensures owners { owners_of self.new.state ≡ owners_of self.old.state }
    {
        let Some(kept) = self.kept() else {
            return false;
        };
        match kept {
            Kept::Rules(own) => own.rules.remove(handle).is_some(),
            _ => false,
        }
    }

    /// Gives the name this owner, in place of the one that it has; an empty one: it has none from
    /// then on. An error if memory runs out: then it keeps all that it kept. Else a handle that
    /// keeps something else frees that.
    pub fn set_owner(&mut self, alloc: Global, name: &str, owner: &str) -> Result<(), AllocError>
        ensures { MatchResult result (λ _. SetsOwner name.now owner.now self.old.state self.new.state)
            (λ _. KeepsAll self.old.state self.new.state) }
    {
        let mut kept = self.take_or_make(alloc)?;
        let set = set_owner_in(alloc, &mut kept, name, owner);
        *self = WireHandle::of(kept);
        set
    }

    /// Asks the rules that it keeps as a bus asks them from then on, or not, as
    /// [`dbus_rule_set::RuleSet::ask_as_bus`] says. An error if memory runs out: then it keeps all
    /// that it kept. Else a handle that keeps something else frees that.
    pub fn ask_as_bus(&mut self, alloc: Global, as_bus: bool) -> Result<(), AllocError>
        ensures { MatchResult result (λ _. SetsAsBus as_bus self.old.state self.new.state)
            (λ _. KeepsAll self.old.state self.new.state) }
    {
        let mut kept = self.take_or_make(alloc)?;
        ask_as_bus_in(alloc, &mut kept, as_bus);
        *self = WireHandle::of(kept);
        Ok(())
    }

    /// The handle in the set of each rule that matches the message that the view is of, with the
    /// owners of names that it keeps, as [`dbus_rule_set::RuleSet::matching`] says; an error only
    /// if memory runs out.
    pub fn matching(
        &mut self,
        alloc: Global,
        view: &MessageView,
    ) -> Result<Vec<RuleHandle>, AllocError>
        ensures same { self.new.state ≡ self.old.state }
        ensures found { (order : Order) (m : MessageTree) → Views view.now order m →
            IfOk result (λ found. Finds self.old.state m found.items) }
    {
        match self.kept() {
            Some(kept) => kept.matching(alloc, view),
            None => Ok(Vec::new(alloc)),
        }
    }

    /// Whether any rule that it keeps may match the message that the view is of, with the owners of
    /// names that it keeps, and this sender, as [`dbus_rule_set::RuleSet::any_may_match`] says.
    pub fn any_may_match(&mut self, view: &MessageView, sender: Option<&str>) -> bool
        ensures same { self.new.state ≡ self.old.state }
        ensures may { (order : Order) (m : MessageTree) → Views view.now order m →
            IsTrue result ↔ AnyMay self.old.state m (option_map (λ s. s.now) sender.entry) }
    {
        match self.kept() {
            Some(kept) => kept.any_may_match(view, sender),
            None => false,
        }
    }

    /// The canonical text of the rule of this handle in the set, as [`rule_text`] writes it, or
    /// that memory ran out; `None` if there is no such rule.
    pub fn canonical_text(
        &mut self,
        alloc: Global,
        handle: RuleHandle,
    ) -> Option<Result<String, AllocError>>
        ensures same { self.new.state ≡ self.old.state }
        ensures written { IsWritten (rule_at handle (rules_of self.old.state)) result }
    {
        match self.kept() {
            Some(kept) => kept.canonical_text(alloc, handle),
            None => None,
        }
    }
}

impl Kept {
    ghost use Rattle.std.specs.Prelude.{◌≡◌, ◌↔◌, [], Some, IfOk, IsTrue, MatchOption, option_map};
    ghost use Rattle.dbus_value_model.specs.declared.order.Order.{Order};
    ghost use Rattle.dbus_message_model.specs.Messages.{MessageTree};
    ghost use Rattle.dbus_rule_set.specs.Held.{asks_as_bus, held, rule_at};
    ghost use Rattle.dbus_view.specs.Views.{Views};
    ghost use Rattle.dbus_c_handle.specs.Rules.{AnyMay, Finds, IsWritten, as_bus_of, owners_of, rules_of};

    // As `WireHandle::matching`.
    fn matching(&self, alloc: Global, view: &MessageView) -> Result<Vec<RuleHandle>, AllocError>
        ensures { (order : Order) (m : MessageTree) → Views view.now order m →
            IfOk result (λ found. Finds (Some self.now) m found.items) }
    {
        let mut found = Vec::new(alloc);
        if let Some(own) = self.rules() {
            own.rules.matching(view, &own.owners, &mut found)?;
        }
        Ok(found)
    }

    // As `WireHandle::any_may_match`.
    fn any_may_match(&self, view: &MessageView, sender: Option<&str>) -> bool
        ensures { (order : Order) (m : MessageTree) → Views view.now order m →
            IsTrue result ↔ AnyMay (Some self.now) m (option_map (λ s. s.now) sender.entry) }
    {
        match self.rules() {
            Some(own) => own.rules.any_may_match(view, sender, &own.owners),
            None => false,
        }
    }

    // As `WireHandle::canonical_text`.
    fn canonical_text(
        &self,
        alloc: Global,
        handle: RuleHandle,
    ) -> Option<Result<String, AllocError>>
        ensures { IsWritten (rule_at handle (rules_of (Some self.now))) result }
    {
        let rule = self.rules()?.rules.get(handle)?;
        Some(rule_text(alloc, rule))
    }

    /// The rules with the owners of names; `None` if something else is kept.
    pub(crate) fn rules(&self) -> Option<&KeptRules>
        ensures rules { MatchOption result (rules_of (Some self.now) ≡ []) (λ own. held own.now.rules ≡ rules_of (Some self.now)) }
        ensures asked { MatchOption result (Unit {0}) (λ own. asks_as_bus own.now.rules ≡ as_bus_of (Some self.now)) }
        ensures owners { MatchOption result (Unit {0}) (λ own. own.now.owners ≡ owners_of (Some self.now)) }
    {
        match self {
            Kept::Rules(own) => Some(own),
            _ => None,
        }
    }
}

// Adds the rule to those that are kept, in place of what is kept otherwise; or all stays.
fn add_to(alloc: Global, kept: &mut Kept, rule: Rule) -> Result<RuleHandle, RuleFault>
    ensures { MatchResult result (AddsRule rule (Some kept.old) (Some kept.new))
        (λ fault. (fault ≡ Memory) × KeepsAll (Some kept.old) (Some kept.new)) }
{
    let added = match kept {
        Kept::Rules(own) => own.rules.add(rule),
        _ => {
            let mut own = KeptRules::new(alloc);
            let added = own.rules.add(rule);
            if added.is_ok() {
                *kept = Kept::Rules(own);
            }
            added
        }
    };
    match added {
        Ok(handle) => Ok(handle),
        Err(_) => Err(RuleFault::Memory),
    }
}

// Asks the rules that are kept as a bus asks them, or not; in place of what is kept otherwise, there
// are none.
fn ask_as_bus_in(alloc: Global, kept: &mut Kept, as_bus: bool)
    ensures { SetsAsBus as_bus (Some kept.old) (Some kept.new) }
{
    match kept {
        Kept::Rules(own) => own.rules.ask_as_bus(as_bus),
        _ => {
            let mut own = KeptRules::new(alloc);
            own.rules.ask_as_bus(as_bus);
            *kept = Kept::Rules(own);
        }
    }
}

// Gives the name this owner among those that are kept, in place of what is kept otherwise; or all
// stays.
fn set_owner_in(alloc: Global, kept: &mut Kept, name: &str, owner: &str) -> Result<(), AllocError>
    ensures { MatchResult result (λ _. SetsOwner name.now owner.now (Some kept.old) (Some kept.new))
        (λ _. KeepsAll (Some kept.old) (Some kept.new)) }
{
    match kept {
        Kept::Rules(own) => own.owners.set(name, owner),
        _ => {
            let mut own = KeptRules::new(alloc);
            own.owners.set(name, owner)?;
            *kept = Kept::Rules(own);
            Ok(())
        }
    }
}
