//! Calls that ended, as lines.
#![tactic(auto)]

ghost use Rattle.dbus_call_lines.specs.CallLines.{front};
ghost use Rattle.dbus_call_lines.specs.LineSink.{WritesLines};
ghost use Rattle.dbus_call_lines.specs.LineSink as laws;

use crate::call_names::CallNames;
use crate::ending::write_end;
use crate::form::Form;
use crate::fronts::write_front;
use crate::outcome::Outcome;
use crate::place::Place;
use crate::sink::CallSink;
use dbus_show::Draft;
use dbus_view::MessageView;

/// The lines of calls, which a draft gains: of each what [`write_front`] and [`write_end`] write.
#[derive(Drop)]
pub struct Lines<D> {
    /// The draft.
    pub draft: D,
}

impl<D: Draft> CallSink for Lines<D> {
    ghost texts = { front };

    ghost gains = { WritesLines D.gains };

    fn write_kept<T: Draft>(
        draft: &mut T,
        form: Form,
        place: Place,
        names: CallNames<'_>,
        view: &MessageView,
    ) {
        write_front(draft, form, place, names, view);
    }

    fn add(&mut self, form: Form, place: Place, text: &str, outcome: Outcome) {
        self.draft.push_str(text);
        write_end(&mut self.draft, form, place.time, outcome);
    }

    fn add_seen(
        &mut self,
        form: Form,
        place: Place,
        names: CallNames<'_>,
        view: &MessageView,
        outcome: Outcome,
    ) {
        write_front(&mut self.draft, form, place, names, view);
        write_end(&mut self.draft, form, place.time, outcome);
    }

    ghost nothing = { laws.nothing D.gains D.nothing };

    ghost joins = { laws.joins D.gains D.joins };
}
