//! Sets of rules.
#![tactic(auto)]

ghost use Rattle.std.specs.Prelude.{◌≡◌, ◌+◌, ◌↔◌, false, [], None, Some, IsTrue, IfOk, IfErr, OnOk, OnErr, length, option_map};
ghost use Rattle.std.specs.List.{AllByRecursion};
ghost use Rattle.std.specs.BTreeMap.{IsOrdered};
ghost use Rattle.std.specs.Option.{option_copied};
ghost use Rattle.std.proofs.Props.{props};
ghost use Rattle.dbus_value_model.specs.declared.order.Order.{Order};
ghost use Rattle.dbus_message_model.specs.Messages.{MessageTree};
ghost use Rattle.dbus_view.specs.Views.{Views};
ghost use Rattle.dbus_rule_set.specs.Handles.{handle_cmp};
ghost use Rattle.dbus_rule_set.specs.Places.{IsIndexed, IsKept};

use crate::asked::{Asked, is_asked};
use crate::handle::RuleHandle;
use crate::kinds::Kinds;
use crate::owners::Owners;
use crate::search::search;
use crate::standing::handle_of;
use crate::visitor::FirstOnly;
use dbus_match::{Rule, may_match_known};
use dbus_view::MessageView;
use std::alloc::{AllocError, AllocFailed, Allocator, Global};
use std::collections::BTreeMap;

/// Match rules, each with a handle. Those that match a message are found without asking each of
/// them. D-Bus Specification, "Match Rules".
///
/// A rule stands under the value of one of its keys, and is looked at if this value may match the
/// message: the message's own text, what stands in it before a `/` or `.`, or a name that its
/// SENDER owns. Of the rule's keys it is the one with the fewest other rules under its value. These
/// are looked at one by one for each message: rules with no key, or with `eavesdrop` alone.
///
/// Of the rules that stand under one key, each is looked at if the message has more than 64 such
/// texts; and of those under `argNpath` also if argument N ends in `/`. In a set of at most eight
/// rules each is looked at.
///
/// This keeps a rule, and asks whether it is among those that match a message:
///
/// ```rust
/// use dbus_match::parse_rule;
/// use dbus_message::MessageView;
/// use dbus_rule_set::{Owners, RuleSet};
///
/// let mut rules = RuleSet::new(alloc);
/// let handle = rules.add(parse_rule(alloc, "type='signal',member='NameAcquired'")?)?;
/// let mut found = Vec::new(alloc);
/// rules.matching(&MessageView::of(bytes)?, &Owners::new(alloc), &mut found)?;
/// println!(rt; "{}", found.contains(&handle))?;
/// rules.remove(handle);
/// ```
#[derive(Drop)]
pub struct RuleSet<A: Allocator = Global> {
    rules: BTreeMap<RuleHandle, Rule<A>, A>,
    /// The number of handles that were given.
    next: u64,
    /// Whether the rules are asked as a bus asks them.
    as_bus: bool,
    /// The kinds of the rules that were added.
    kinds: Kinds,
    ghost ordered: { IsOrdered handle_cmp rules } by { Prim.hlevel props },
    ghost kept: { AllByRecursion (IsKept next) rules.entries } by { Prim.hlevel props },
    ghost indexed: { AllByRecursion (IsIndexed kinds) rules.entries } by { Prim.hlevel props },
}

impl<A: Allocator> RuleSet<A> {
    ghost use Rattle.dbus_rule_set.specs.Held.{held, given, asks_as_bus, rule_at, with_rule, without, AreApart, Collects, EntryMatches, EntryMayMatch, HoldsOfAny};

    /// A set with no rules. It allocates nothing.
    pub fn new(alloc: A) -> Self
        ensures empty { held result ≡ [] }
        ensures given { given result ≡ 0 }
        ensures plain { asks_as_bus result ≡ false }
    {
        RuleSet {
            rules: BTreeMap::new(alloc),
            next: 0,
            as_bus: false,
            kinds: Kinds::new(),
        }
    }

    /// Asks the rules as a bus asks them from now on, or, if not `as_bus`, as a new set does. A bus
    /// asks of a message with a DESTINATION only rules with `eavesdrop='true'`, so that no other
    /// matches or may match it. A new set asks each rule of each message, and `eavesdrop` has no
    /// effect. D-Bus Specification, "Eavesdropping".
    ///
    /// ```rust
    /// use dbus_match::parse_rule;
    /// use dbus_rule_set::RuleSet;
    ///
    /// let mut rules = RuleSet::new(alloc);
    /// rules.ask_as_bus(true);
    /// rules.add(parse_rule(alloc, "type='method_call',eavesdrop='true'")?)?;
    /// ```
    pub fn ask_as_bus(&mut self, as_bus: bool)
        ensures asked { asks_as_bus self.new ≡ as_bus }
        ensures held { held self.new ≡ held self.old }
        ensures given { given self.new ≡ given self.old }
    {
        self.as_bus = as_bus;
    }

    /// Adds the rule, and returns its handle, which the set did not give before.
    ///
    /// Returns an error, with the rule, only if an allocation failed or the set has given 2^64 - 1
    /// handles. It then holds what it held.
    ///
    /// ```rust
    /// use dbus_match::parse_rule;
    /// use dbus_rule_set::RuleSet;
    ///
    /// let mut rules = RuleSet::new(alloc);
    /// for text in ["interface='org.example.Clock'", "type='signal',member='Tick'"] {
    ///     rules.add(parse_rule(alloc, text)?)?;
    /// }
    /// ```
    pub fn add(&mut self, rule: Rule<A>) -> Result<RuleHandle, AllocFailed<Rule<A>>>
    where
        A: Clone,
        ensures new { IfOk result (λ h. (h.number ≡ given self.old) × (given self.new ≡ given self.old + 1)) }
        ensures unheld { IfOk result (λ h. rule_at h (held self.old) ≡ None) }
        ensures added { IfOk result (λ h. held self.new ≡ with_rule h rule (held self.old)) }
        ensures unchanged { OnErr result ((held self.new ≡ held self.old) × (given self.new ≡ given self.old)) }
        ensures returned { IfErr result (λ e. e.value ≡ rule) }
        ensures asked { asks_as_bus self.new ≡ asks_as_bus self.old }
    {
        let number = self.next;
        if number == u64::MAX {
            return Err(AllocFailed { value: rule });
        }
        let handle = handle_of(&self.rules, &rule, number);
        match self.rules.insert(handle, rule) {
            Ok(_) => {
                self.next = number + 1;
                self.kinds.mark(handle.kind);
                Ok(handle)
            }
            Err(refused) => {
                let (_, rule) = refused.value;
                Err(AllocFailed { value: rule })
            }
        }
    }

    /// Removes the rule that the handle stands for, and returns it; `None` if it stands for none.
    /// It allocates nothing.
    ///
    /// ```rust
    /// use dbus_match::{parse_rule, rule_text};
    /// use dbus_rule_set::RuleSet;
    ///
    /// let mut rules = RuleSet::new(alloc);
    /// let handle = rules.add(parse_rule(alloc, "member='Tick'")?)?;
    /// if let Some(rule) = rules.remove(handle) {
    ///     println!(rt; "removed {}", rule_text(alloc, &rule)?)?;
    /// }
    /// ```
    pub fn remove(&mut self, handle: RuleHandle) -> Option<Rule<A>>
        ensures rule { result ≡ rule_at handle (held self.old) }
        ensures removed { held self.new ≡ without handle (held self.old) }
        ensures given { given self.new ≡ given self.old }
        ensures asked { asks_as_bus self.new ≡ asks_as_bus self.old }
    {
        self.rules.remove(&handle)
    }

    /// The rule that the handle stands for; `None` if it stands for none.
    ///
    /// ```rust
    /// use dbus_match::parse_rule;
    /// use dbus_rule_set::RuleSet;
    ///
    /// let mut rules = RuleSet::new(alloc);
    /// let handle = rules.add(parse_rule(alloc, "member='Tick'")?)?;
    /// println!(rt; "{}", rules.get(handle).is_some())?;
    /// ```
    pub fn get(&self, handle: RuleHandle) -> Option<&Rule<A>>
        ensures { option_copied result ≡ rule_at handle (held self.now) }
    {
        self.rules.get(&handle)
    }

    /// The number of rules in the set.
    pub fn len(&self) -> usize
        ensures { result ≡ length (held self.now) }
    {
        self.rules.len()
    }

    /// Whether the set holds no rule.
    pub fn is_empty(&self) -> bool
        ensures { IsTrue result ↔ (held self.now ≡ []) }
    {
        self.rules.is_empty()
    }

    /// Puts the handles of the rules that match the message at the end of `found`: of each once, in
    /// the order of the handles.
    ///
    /// A rule matches as [`dbus_match::matches_view`] says, with these owners of well-known names.
    /// Returns an error only if `found` has to grow and the allocation fails; `found` then is as it
    /// was.
    ///
    /// ```rust
    /// use dbus_match::parse_rule;
    /// use dbus_message::MessageView;
    /// use dbus_rule_set::{Owners, RuleSet};
    ///
    /// let mut rules = RuleSet::new(alloc);
    /// rules.add(parse_rule(alloc, "sender='org.example.Clock'")?)?;
    /// let mut owners = Owners::new(alloc);
    /// owners.set("org.example.Clock", ":1.7")?;
    /// let mut found = Vec::new(alloc);
    /// rules.matching(&MessageView::of(bytes)?, &owners, &mut found)?;
    /// ```
    pub fn matching(
        &self,
        view: &MessageView,
        owners: &Owners,
        found: &mut Vec<RuleHandle, A>,
    ) -> Result<(), AllocError>
        ensures found { (order : Order) (m : MessageTree) → Views view.now order m →
            OnOk result (Collects (EntryMatches (asks_as_bus self.now) m owners.now) (held self.now) found.old.items found.new.items) }
        ensures once { AreApart (held self.now) }
        ensures unchanged { OnErr result (found.new.items ≡ found.old.items) }
    {
        let before = found.len();
        let asked = Asked {
            view,
            owners,
            as_bus: self.as_bus,
        };
        match search(&self.rules, &self.kinds, &asked, found) {
            Ok(()) => Ok(()),
            Err(refused) => {
                found.truncate(before);
                Err(refused)
            }
        }
    }

    /// Whether any rule matches the message, as [`dbus_match::matches_view`] says, with these owners
    /// of well-known names. It stops at the first rule that matches, and allocates nothing.
    ///
    /// ```rust
    /// use dbus_match::parse_rule;
    /// use dbus_message::MessageView;
    /// use dbus_rule_set::{Owners, RuleSet};
    ///
    /// let mut rules = RuleSet::new(alloc);
    /// rules.add(parse_rule(alloc, "sender='org.example.Clock'")?)?;
    /// let mut owners = Owners::new(alloc);
    /// for unique in [":1.7", ":1.8"] {
    ///     owners.add("org.example.Clock", unique)?;
    /// }
    /// println!(rt; "{}", rules.any_matches(&MessageView::of(bytes)?, &owners))?;
    /// ```
    pub fn any_matches(&self, view: &MessageView, owners: &Owners) -> bool
        ensures { (order : Order) (m : MessageTree) → Views view.now order m →
            IsTrue result ↔ HoldsOfAny (EntryMatches (asks_as_bus self.now) m owners.now) (held self.now) }
    {
        let asked = Asked {
            view,
            owners,
            as_bus: self.as_bus,
        };
        search(&self.rules, &self.kinds, &asked, &mut FirstOnly).is_err()
    }

    /// Whether any rule may match the message, as [`dbus_match::may_match_view`] says, with these
    /// owners of well-known names, and with `sender` as the name that the bus writes as SENDER, if
    /// that is known. It asks one rule after another, up to the first that may match, and allocates
    /// nothing.
    ///
    /// ```rust
    /// use dbus_match::parse_rule;
    /// use dbus_message::MessageView;
    /// use dbus_rule_set::{Owners, RuleSet};
    ///
    /// let mut forbidden = RuleSet::new(alloc);
    /// forbidden.add(parse_rule(alloc, "destination='org.example.Lab',member='Erase'")?)?;
    /// let mut owners = Owners::new(alloc);
    /// owners.set("org.example.Lab", ":1.7")?;
    /// let view = MessageView::of(bytes)?;
    /// println!(rt; "{}", forbidden.any_may_match(&view, Some(":1.8"), &owners))?;
    /// ```
    pub fn any_may_match(&self, view: &MessageView, sender: Option<&str>, owners: &Owners) -> bool
        ensures { (order : Order) (m : MessageTree) → Views view.now order m →
            IsTrue result ↔ HoldsOfAny (EntryMayMatch (asks_as_bus self.now) m (option_map (λ s. s.now) sender.entry) owners.now)
            (held self.now) }
    {
        for (_handle, rule) in &self.rules {
            if is_asked(rule, view, self.as_bus) && may_match_known(rule, view, sender, owners) {
                return true;
            }
        }
        false
    }
}
