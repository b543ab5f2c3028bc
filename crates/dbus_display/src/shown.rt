//! Values that can be printed. D-Bus Specification, "Type System".
#![tactic(auto)]

use crate::formatter_draft::FormatterDraft;
use dbus_show_view::write_shown_values;
use dbus_values::Values;
use dbus_walk::{Spot, lengths_of};
use std::fmt;

/// The values that are left, all of them, as what can be printed: each as `dbus-wire show` has it,
/// and `, ` between two, as in `s:"a", u:1`. The values stay what they are. Nothing is allocated.
///
/// ```rust
/// use dbus_display::Shown;
/// use dbus_message::MessageView;
///
/// let values = MessageView::of(bytes)?.body();
/// println!(rt; "{}", Shown(&values))?;
/// ```
#[derive(Clone, Copy)]
pub struct Shown<'v, 'a>(pub &'v Values<'a>);

impl fmt::Display for Shown<'_, '_> {
    ghost use Rattle.std.specs.Prelude.{ℕ, List};
    ghost use Rattle.std.specs.Fmt.{WritesOnOk};
    ghost use Rattle.dbus_value_model.specs.Values.{ValueTrees};
    ghost use Rattle.dbus_values.specs.States.{AreLeft};
    ghost use Rattle.dbus_show.specs.ShownValues.{joined, value_texts};

    /// Writes the text. The error is the formatter's: no clause says so, since those of `fmt::Write`
    /// tell nothing of a write that failed.
    fn fmt<W: fmt::Write>(&self, f: &mut fmt::Formatter<W>) -> fmt::Result
        ensures shown { (vs : ValueTrees) (rest : List ℕ) → AreLeft self.now.0.now vs rest →
            WritesOnOk W.write_str_gives f.old result (joined (value_texts vs)) f.new }
    {
        let (source, place) = self.0.place();
        let mut table = [0; 255];
        let spot = Spot {
            at: place.at,
            types: place.types,
            lengths: lengths_of(place.types, &mut table),
            depth_left: place.depth_left,
        };
        let mut draft = FormatterDraft {
            formatter: f,
            failed: false,
        };
        write_shown_values(&mut draft, &source, &spot);
        if draft.failed {
            Err(fmt::Error)
        } else {
            Ok(())
        }
    }
}
