//! A value seen and passed over. D-Bus Specification, "Marshaling (Wire Format)".
#![tactic(auto)]

ghost use Rattle.std.specs.Prelude.{◌≡◌, ◌<◌, ◌≤◌, ℕ, List, length};
ghost use Rattle.dbus_value_model.specs.Values.{ValueTree};
ghost use Rattle.dbus_walk.specs.Standing.{StandsAt, StandsThere, end_of};
ghost use Rattle.dbus_values.specs.Seen.{AreSeenInside, IsSeen, weight_in};
ghost use Rattle.dbus_values.specs.States.{weight};

use crate::seeing::{array_view, number_view};
use crate::values::Values;
use crate::view::ValueView;
use dbus_types::lengths_in;
use dbus_walk::{Layout, MessageBytes, Spot, layout, skip_value, text_in};

/// How the value at a spot is seen, and the offset after it. Only a container other than an array
/// is gone through.
pub(crate) fn pass<'a>(source: &MessageBytes<'a>, spot: &Spot<'a>) -> (ValueView<'a>, usize)
    requires stands { StandsThere source.now spot.now }
    requires few { length spot.now.types.now ≤ 255 }
    ensures seen { (v : ValueTree) (rest : List ℕ) → StandsAt source.now spot.now v rest →
        IsSeen result.0 v × (result.1 ≡ end_of source.now spot.now v) }
    ensures parts { (v : ValueTree) (rest : List ℕ) → StandsAt source.now spot.now v rest →
        AreSeenInside source.now.order source.now.bytes.now spot.now.at v result.0 }
    ensures less { weight_in result.0 < weight spot.now.depth_left spot.now.types.now }
{
    match layout(source, spot) {
        Layout::Number { start, size } => {
            (
                number_view(source, start, spot.types[0]),
                start + usize::from(size),
            )
        }
        Layout::LongText { start, size } => {
            let text = text_in(source.bytes, start + 4, size);
            let after = start + 4 + size + 1;
            if spot.types[0] == b's' {
                return (ValueView::Str(text), after);
            }
            (ValueView::Path(text), after)
        }
        Layout::ShortText { size } => {
            let text = text_in(source.bytes, spot.at + 1, size);
            (ValueView::Sig(text), spot.at + 1 + size + 1)
        }
        Layout::Variant { types, at } => {
            let noted = Spot {
                lengths: &[1],
                ..*spot
            };
            let held = Values::new(source, at, types, spot.depth_left - 1);
            (ValueView::Variant(held), skip_value(source, &noted))
        }
        Layout::Array(run) => (array_view(source, spot, run), run.end),
        Layout::Struct { start } => {
            let fields = &spot.types[1..spot.types.len() - 1];
            let parts = Values::new(source, start, fields, spot.depth_left - 1);
            (ValueView::Struct(parts), after_parts(source, spot))
        }
        Layout::Entry { start } => {
            let both = &spot.types[1..spot.types.len() - 1];
            let parts = Values::new(source, start, both, spot.depth_left);
            (ValueView::Entry(parts), after_parts(source, spot))
        }
    }
}

/// The offset after a struct or a dict entry. How long the types in it are is noted first.
fn after_parts(source: &MessageBytes<'_>, spot: &Spot<'_>) -> usize
    requires stands { StandsThere source.now spot.now }
    requires few { length spot.now.types.now ≤ 255 }
    ensures { (v : ValueTree) (rest : List ℕ) → StandsAt source.now spot.now v rest →
        result ≡ end_of source.now spot.now v }
{
    let mut table = [0; 255];
    let noted = Spot {
        lengths: lengths_in(spot.types, &mut table),
        ..*spot
    };
    skip_value(source, &noted)
}
