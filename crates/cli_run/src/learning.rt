//! The owners of names that the messages of an input tell.
ghost use Rattle.std.specs.Prelude.{◌≡◌, OnOk, Some, option_map};
ghost use Rattle.dbus_value_model.specs.declared.order.Order.{Order};
ghost use Rattle.dbus_message_model.specs.Messages.{MessageTree};
ghost use Rattle.dbus_view.specs.Views.{Views};
ghost use Rattle.dbus_calls.specs.OwnerChanges.{is_text};
ghost use Rattle.dbus_names.specs.Kept.{state_of};
ghost use Rattle.cli_run.specs.Learning.{asks_for, known_after, matters, name_sender};

use cli_options::{Question, Selection};
use dbus_calls::{EventView, is_ownable};
use dbus_match::Rule;
use dbus_names::{NameFilter, Names};
use dbus_view::MessageView;
use std::alloc::AllocError;

/// If the selection learns, learns from the message who has a name whose owner matters to it. D-Bus
/// Specification, "Message Bus Names".
pub(crate) fn learn(
    selection: &Selection,
    view: &MessageView,
    names: &mut Names,
) -> Result<(), AllocError>
    ensures { (order : Order) (m : MessageTree) → Views view.now order m →
        OnOk result (state_of names.new ≡ known_after (Some selection.now) (state_of names.old) m) }
{
    if !selection.learns {
        return Ok(());
    }
    let asked = AskedNames { selection };
    let message = EventView::of(view);
    names.take(&message, &asked)
}

// The names beside unique ones whose owners matter: if rules are to match, no more are kept than the
// rules have.
#[derive(Clone, Copy, Drop)]
struct AskedNames<'a> {
    selection: &'a Selection,
}

impl<'a> NameFilter for AskedNames<'a> {
    ghost wanted = { λ asked. asks_for asked.selection.now };

    fn wants(&self, name: &str) -> bool {
        is_ownable(name) && matters(self.selection, name)
    }
}

// Whether the owner of the name matters to what is asked.
fn matters(selection: &Selection, name: &str) -> bool
    ensures { result ≡ matters selection.now.question selection.now.rules.items name.now }
{
    match selection.question {
        Question::Matches => name_sender(&selection.rules, name),
        Question::MayMatch => true,
    }
}

// Whether one of the rules asks for messages from this name.
fn name_sender(rules: &[Rule], name: &str) -> bool
    ensures { result ≡ name_sender rules.now name.now }
{
    rules.iter().any(|rule| is_text(rule.sender(), name))
}

// Whether the text is there, and it is this.
fn is_text(text: Option<&str>, value: &str) -> bool
    ensures { result ≡ is_text (option_map (λ t. t.now) text.entry) value.now }
{
    match text {
        Some(text) => text == value,
        None => false,
    }
}
