//! Which messages are selected, by the owners of names that are known.
ghost use Rattle.std.specs.Prelude.{◌≡◌, ◌↔◌, ℕ, IfOk, IsTrue, List, Some, length};
ghost use Rattle.std.specs.FinSet.{from_list};
ghost use Rattle.dbus_value_model.specs.declared.order.Order.{Order};
ghost use Rattle.dbus_message_model.specs.Messages.{MessageTree};
ghost use Rattle.dbus_header.specs.MessageOutcomes.{IsWhole};
ghost use Rattle.dbus_validate.specs.Validating.{IsValidatedWhole};
ghost use Rattle.dbus_match.specs.Matching.{ownerships};
ghost use Rattle.dbus_names.specs.Kept.{state_of};
ghost use Rattle.dbus_names.specs.NameStates.{known_first};
ghost use Rattle.dbus_view.specs.Views.{Views};
ghost use Rattle.cli_run.specs.Learning.{IsSelected, Selects, known, selection_of};
ghost use Rattle.cli_run.specs.LineNames.{first_names};

use crate::learning::learn;
use crate::place::Lent;
use crate::selector::Selector;
use cli_options::Selection;
use dbus_match::Owner;
use dbus_names::Names;
use dbus_rule_set::Owners;
use dbus_view::MessageView;
use std::alloc::{AllocError, Global};

/// The selector of a selection, if there is one.
///
/// `AllocError`: there is not enough memory for a set of its rules.
pub(crate) fn selector_of(selection: &Option<Selection>) -> Result<Option<Selector<'_>>, AllocError>
    ensures { IfOk result (λ selector. selection_of selector ≡ selection.now) }
{
    match selection {
        Some(selection) => Ok(Some(Selector::new(selection)?)),
        None => Ok(None),
    }
}

/// Whether the message is selected by the owners that are known before it. What it tells of owners
/// is learned then, and kept in `learned`. Without a selector, all messages are.
pub(crate) fn picks(
    selector: &Option<Selector>,
    lent: &Lent,
    learned: &mut Option<Names>,
) -> Result<bool, AllocError>
    requires { IsValidatedWhole lent.now.limits lent.now.bytes.now lent.now.validated }
    ensures { (order : Order) (m : MessageTree) →
        IsWhole lent.now.limits lent.now.bytes.now order m (length lent.now.bytes.now) →
        IfOk result (IsSelected (selection_of selector.now) m learned.old learned.new) }
{
    match selector {
        Some(selector) => select(selector, lent, learned),
        None => Ok(true),
    }
}

/// Whether the message of the view is selected by the owners of these names. Without a selector,
/// all messages are.
pub(crate) fn selects(selector: &Option<Selector>, view: &MessageView, names: &Names) -> bool
    ensures { (order : Order) (m : MessageTree) → Views view.now order m →
        IsTrue result ↔ Selects (selection_of selector.now) (state_of names.now) m }
{
    match selector {
        Some(selector) => selector.selects(view, names.owners()),
        None => true,
    }
}

// The same by a selector.
fn select(selector: &Selector, lent: &Lent, learned: &mut Option<Names>) -> Result<bool, AllocError>
    requires { IsValidatedWhole lent.now.limits lent.now.bytes.now lent.now.validated }
    ensures { (order : Order) (m : MessageTree) →
        IsWhole lent.now.limits lent.now.bytes.now order m (length lent.now.bytes.now) →
        IfOk result (IsSelected (Some selector.now.selection.now) m learned.old learned.new) }
{
    let view = MessageView::of_validated(lent.bytes, lent.limits, lent.validated);
    let selection = selector.selection;
    let mut known = take_known(selection, learned)?;
    let is_selected = selector.selects(&view, known.owners());
    learn(selection, &view, &mut known)?;
    *learned = Some(known);
    Ok(is_selected)
}

// What is known since a message was looked at, else the selection's own owners.
fn take_known(selection: &Selection, learned: &mut Option<Names>) -> Result<Names, AllocError>
    ensures { IfOk result (λ names. state_of names ≡ known (Some selection.now) learned.old) }
{
    match learned.take() {
        Some(names) => Ok(names),
        None => first_known(*selection.owners.allocator(), &selection.owners),
    }
}

// These owners are known, and no message was looked at.
fn first_known(alloc: Global, owners: &[Owner]) -> Result<Names, AllocError>
    ensures { IfOk result (λ names. state_of names ≡ known_first (from_list (ownerships owners.now))) }
{
    Ok(Names::new(alloc, owners_of(alloc, owners)?))
}

/// The names that are known before the first message: those of the owners that a selection gives.
pub(crate) fn first_names(alloc: Global, selection: &Option<Selection>) -> Result<Names, AllocError>
    ensures { IfOk result (λ names. state_of names ≡ first_names selection.now) }
{
    match selection {
        Some(selection) => first_known(alloc, &selection.owners),
        None => Ok(Names::new(alloc, Owners::new(alloc))),
    }
}

// These owners, each once.
fn owners_of(alloc: Global, owners: &[Owner]) -> Result<Owners, AllocError>
    ensures { IfOk result (λ all. all ≡ from_list (ownerships owners.now)) }
{
    let mut all = Owners::new(alloc);
    for owner in owners {
        all.add(owner.name.as_str(), owner.unique.as_str())?;
    }
    Ok(all)
}
