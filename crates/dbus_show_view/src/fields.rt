//! Header fields as text, from a message's bytes. D-Bus Specification, "Header Fields".
#![tactic(auto)]

ghost use Rattle.std.specs.Prelude.{◌≡◌, ◌++◌, ℕ, List, codes, true};
ghost use Rattle.dbus_types.specs.SignatureCodes.{AreLengths};
ghost use Rattle.dbus_value_model.specs.Values.{ValueTree};
ghost use Rattle.dbus_walk.specs.Standing.{StandsAt, StandsThere, end_of};
ghost use Rattle.std.specs.List.{flat_map};
ghost use Rattle.dbus_message_model.specs.Messages.{FieldTree};
ghost use Rattle.dbus_show.specs.ShownMessages.{bare, field_name, field_text};
ghost use Rattle.dbus_value_text.specs.Runs.{AreInRun, IsRun};
ghost use Rattle.dbus_show_view.specs.Plain.{named};

use crate::plain::Plain;
use dbus_message_model::field_table::is_known;
use dbus_show::{Draft, push_field_name, write_field_name, write_integer};
use dbus_value_text::{FieldForm, FieldRun, write_field_run, write_value};
use dbus_walk::{Layout, MessageBytes, Spot, layout, text_in};

/// All fields, each after a space and its name.
#[derive(Clone, Copy)]
pub(crate) struct Named;

impl FieldForm for Named {
    ghost is_taken = { λ _. true };

    ghost is_text = { λ _ _ code v text. text ≡ named code v };

    #[inline]
    fn takes(_code: u8) -> bool {
        true
    }

    fn field<D: Draft>(
        &self,
        draft: &mut D,
        source: &MessageBytes<'_>,
        _place: usize,
        code: u8,
        spot: &Spot<'_>,
    ) -> usize {
        write_name(draft, code);
        if is_known(code) {
            return write_bare(draft, source, spot);
        }
        write_value::<Plain, D>(draft, source, spot)
    }
}

/// Appends the header fields of a run as [`show_validated`](crate::show_validated) has them: each
/// after a space, as its name, `=` and its value. D-Bus Specification, "Header Fields".
pub fn write_shown_fields<D: Draft>(draft: &mut D, run: &FieldRun<'_>)
    requires stand { IsRun run.now }
    ensures shown { (fs : List FieldTree) (rest : List ℕ) → AreInRun run.now fs rest →
        D.gains draft.old (flat_map field_text fs) draft.new }
{
    write_field_run(draft, run, &Named, "", "");
}

/// Appends a space, the name of a field and `=`.
#[inline]
fn write_name<D: Draft>(draft: &mut D, code: u8)
    ensures { D.gains draft.old (codes " " ++ (field_name code ++ codes "=")) draft.new }
{
    push_field_name!(
        draft,
        code,
        " ",
        "=",
        {
            draft.push_code(b' ');
            write_field_name(draft, code);
            draft.push_code(b'=');
        }
    )
}

/// Appends a text or a UINT32 alone, and of any other type the text of the value: the offset after
/// the value.
fn write_bare<D: Draft>(draft: &mut D, source: &MessageBytes<'_>, spot: &Spot<'_>) -> usize
    requires stands { StandsThere source.now spot.now }
    requires noted { AreLengths spot.now.types.now spot.now.lengths.now }
    ensures shown { (v : ValueTree) (rest : List ℕ) → StandsAt source.now spot.now v rest →
        D.gains draft.old (bare v) draft.new × (result ≡ end_of source.now spot.now v) }
{
    match layout(source, spot) {
        Layout::LongText { start, size } => {
            draft.push_str(text_in(source.bytes, start + 4, size));
            start + 4 + size + 1
        }
        Layout::ShortText { size } => {
            draft.push_str(text_in(source.bytes, spot.at + 1, size));
            spot.at + 1 + size + 1
        }
        Layout::Number { start, .. } if spot.types[0] == b'u' => {
            write_integer(draft, source.order.u32_at(source.bytes, start));
            start + 4
        }
        _ => write_value::<Plain, D>(draft, source, spot),
    }
}
