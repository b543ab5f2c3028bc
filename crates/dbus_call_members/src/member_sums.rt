//! The sums of all members.
#![tactic(auto, unfolding(crate::specs::Summing::is_short))]

ghost use Rattle.std.specs.Prelude.{◌≡◌, [], false, List, ℕ, OnOk};
ghost use Rattle.std.specs.BTreeMap.{IsOrdered};
ghost use Rattle.std.specs.String.{string_cmp};
ghost use Rattle.std.proofs.Props.{props};
ghost use Rattle.dbus_call_lines.specs.Outcomes.{outcome_seen};

use crate::member_sum::MemberSum;
use dbus_call_lines::Outcome;
use std::alloc::{AllocError, Global};
use std::collections::BTreeMap;

/// What came of the calls of each member, and how long they took: a sink of a
/// `dbus_call_lines::CallList`. A member is its interface, a dot and its name, or the name alone
/// if the call has no INTERFACE. Each takes memory, and each call the time of a search among them.
///
/// ```rust
/// use dbus_call_lines::{CallList, CallNames, Form, Place, Wanted};
/// use dbus_call_members::MemberSums;
/// use dbus_calls::EventView;
/// use dbus_message::MessageView;
///
/// let wanted = Wanted { form: Form::Text, unanswered: false, errors: false, slower: None };
/// let mut list = CallList::new(alloc, wanted);
/// let mut sums = MemberSums::new(alloc);
/// let names = CallNames { sender: None, destination: None };
/// let view = MessageView::of(bytes)?;
/// let place = Place { number: 1, time: None };
/// list.take(&mut sums, place, names, &EventView::of(&view))?;
/// list.finish(&mut sums)?;
/// println!(rt; "{}", sums.table(Form::Text)?)?;
/// ```
#[derive(Drop)]
pub struct MemberSums {
    pub(crate) alloc: Global,
    pub(crate) members: BTreeMap<String, MemberSum>,
    // Whether no call is left out for want of memory.
    pub(crate) complete: bool,
    ghost ordered: { IsOrdered string_cmp members } by { Prim.hlevel props },
}

impl MemberSums {
    ghost use Rattle.dbus_call_members.specs.Summing.{AreSums, is_short, sums_in, with_one};

    /// The sums of no calls. It allocates nothing.
    pub fn new(alloc: Global) -> MemberSums
        ensures sums { AreSums result [] }
        ensures short { is_short result ≡ false }
    {
        MemberSums {
            alloc,
            members: BTreeMap::new(alloc),
            complete: true,
        }
    }

    /// Whether an allocation failed, so that a call is left out. Then no call is added any more.
    pub fn is_short(&self) -> bool
        ensures { result ≡ is_short self.now }
    {
        !self.complete
    }

    /// Adds a call of the member to its sums.
    pub(crate) fn count(
        &mut self,
        member: &str,
        sent: Option<u64>,
        outcome: Outcome,
    ) -> Result<(), AllocError>
        ensures adds { OnOk result ((name : List ℕ) →
            sums_in self.new name ≡ with_one member.now sent (outcome_seen outcome.entry) (sums_in self.old) name) }
        ensures short { is_short self.new ≡ is_short self.old }
    {
        if let Some(sum) = self.members.get_mut(member) {
            *sum = sum.with_call(sent, outcome);
            return Ok(());
        }
        let name = String::from_str(self.alloc, member)?;
        let first = MemberSum::none().with_call(sent, outcome);
        self.members.insert(name, first)?;
        Ok(())
    }
}
