//! The sums of members as a sink of calls.
#![tactic(auto)]

ghost use Rattle.std.specs.Prelude.{◌≡◌, IfOk, OnOk, string_bytes};
ghost use Rattle.dbus_value_model.specs.declared.order.Order.{Order};
ghost use Rattle.dbus_message_model.specs.Messages.{MessageTree};
ghost use Rattle.dbus_view.specs.Views.{Views};
ghost use Rattle.dbus_call_lines.specs.CallLines.{called};
ghost use Rattle.dbus_call_members.specs.SumLaws as laws;
ghost use Rattle.dbus_call_members.specs.Summing.{Adds, members};

use crate::member_sums::MemberSums;
use dbus_call_lines::{CallNames, CallSink, Form, Outcome, Place, write_member};
use dbus_show::{Draft, StringDraft};
use dbus_view::MessageView;
use std::alloc::{AllocError, Global};

impl CallSink for MemberSums {
    ghost texts = { members };

    ghost gains = { Adds };

    fn write_kept<D: Draft>(
        draft: &mut D,
        _form: Form,
        _place: Place,
        _names: CallNames<'_>,
        view: &MessageView,
    ) {
        write_member(draft, view);
    }

    fn add(&mut self, _form: Form, place: Place, text: &str, outcome: Outcome) {
        if self.complete {
            match self.count(text, place.time, outcome) {
                Ok(()) => {}
                Err(AllocError) => self.complete = false,
            }
        }
    }

    fn add_seen(
        &mut self,
        form: Form,
        place: Place,
        _names: CallNames<'_>,
        view: &MessageView,
        outcome: Outcome,
    ) {
        match member_of(self.alloc, view) {
            Ok(member) => self.add(form, place, member.as_str(), outcome),
            Err(AllocError) => self.complete = false,
        }
    }

    ghost nothing = { laws.nothing };

    ghost joins = { laws.joins };
}

// The member that the call of the view names.
fn member_of(alloc: Global, view: &MessageView) -> Result<String, AllocError>
    ensures { (order : Order) (m : MessageTree) → Views view.now order m →
        IfOk result (λ member. string_bytes member ≡ called m) }
{
    let mut member = String::new(alloc);
    member_into(&mut member, view)?;
    Ok(member)
}

// Writes it into an empty text.
fn member_into(out: &mut String, view: &MessageView) -> Result<(), AllocError>
    ensures { (order : Order) (m : MessageTree) → Views view.now order m →
        OnOk result (string_bytes out.new ≡ called m) }
{
    let mut draft = StringDraft::new(out);
    write_member(&mut draft, view);
    draft.finish()
}
