//! Where calls go once it is known what came of them.
#![tactic(auto)]

ghost use Rattle.std.specs.Prelude.{[], ◌∷◌, ◌++◌, List};
ghost use Rattle.dbus_value_model.specs.declared.order.Order.{Order};
ghost use Rattle.dbus_message_model.specs.Messages.{MessageTree};
ghost use Rattle.dbus_view.specs.Views.{Views};
ghost use Rattle.dbus_call_lines.specs.Keeping.{EndedCall, Texts, ended};
ghost use Rattle.dbus_call_lines.specs.Names.{names_seen};
ghost use Rattle.dbus_call_lines.specs.Outcomes.{outcome_seen};

use crate::call_names::CallNames;
use crate::form::Form;
use crate::outcome::Outcome;
use crate::place::Place;
use dbus_show::Draft;
use dbus_view::MessageView;

/// Where a [`CallList`](crate::CallList) puts the calls that it is to have, each once it is known
/// what came of it. If it cannot take a call, it takes none after it, and only its maker asks at
/// the end whether it has all.
pub trait CallSink {
    // The text that is kept of a call until then.
    ghost texts: { Texts };

    // It gained calls that ended.
    ghost gains: { Self → List EndedCall → Self → Type 0 };

    /// Appends the text that is to be kept of the call of the view, which is at this place, and
    /// whose connections are known by these names.
    fn write_kept<D: Draft>(
        draft: &mut D,
        form: Form,
        place: Place,
        names: CallNames<'_>,
        view: &MessageView,
    )
        ensures { (order : Order) (m : MessageTree) → Views view.now order m →
            D.gains draft.old (texts form place (names_seen names.entry) m) draft.new };

    /// Adds a call that was at this place, of which this text was kept, and of which this came.
    fn add(&mut self, form: Form, place: Place, text: &str, outcome: Outcome)
        ensures { gains self.old (ended form place text.now (outcome_seen outcome.entry) ∷ []) self.new };

    /// Adds the call of the view, which is at this place, whose connections are known by these
    /// names, and of which this came at once.
    fn add_seen(
        &mut self,
        form: Form,
        place: Place,
        names: CallNames<'_>,
        view: &MessageView,
        outcome: Outcome,
    )
        ensures { (order : Order) (m : MessageTree) → Views view.now order m →
            gains self.old (ended form place (texts form place (names_seen names.entry) m) (outcome_seen outcome.entry) ∷ []) self.new };

    // What is left alone gains nothing.
    ghost nothing: { (a : Self) → gains a [] a };

    // What gains some calls and then others gains the ones and the others.
    ghost joins: { (a b c : Self) (s t : List EndedCall) → gains a s b → gains b t c →
        gains a (s ++ t) c };
}
