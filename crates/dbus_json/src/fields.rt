//! Header fields as JSON, from a message's bytes. D-Bus Specification, "Header Fields".
#![tactic(auto)]

ghost use Rattle.std.specs.Prelude.{◌++◌, suc, nat_lt, codes, not};
ghost use Rattle.dbus_message_model.specs.Messages.{is_known as is_known_code};
ghost use Rattle.dbus_show.specs.ShownMessages.{field_name};
ghost use Rattle.dbus_json.specs.JsonIntegers.{integers_of};
ghost use Rattle.dbus_json.specs.JsonMessages.{IsKnown, IsOther, end_text};
ghost use Rattle.dbus_json.specs.JsonValues.{plain};

use crate::json::Json;
use dbus_message_model::field_table::is_known;
use dbus_show::{Draft, push_field_name, write_field_name, write_integer};
use dbus_value_text::{FieldForm, write_types, write_value};
use dbus_walk::{MessageBytes, Spot};

/// Appends the name of a field, as that of a member.
#[inline]
fn write_name<D: Draft>(draft: &mut D, code: u8)
    ensures { D.gains draft.old (plain (field_name code) ++ codes ":") draft.new }
{
    push_field_name!(
        draft,
        code,
        "\"",
        "\":",
        {
            draft.push_code(b'"');
            write_field_name(draft, code);
            draft.push_str("\":");
        }
    )
}

/// The fields that are known, as members by their names.
#[derive(Clone, Copy)]
pub(crate) struct KnownFields<const SAFE: bool>;

impl<const SAFE: bool> FieldForm for KnownFields<SAFE> {
    ghost is_taken = { is_known_code };

    ghost is_text = { λ _ _ code v text. IsKnown (integers_of SAFE) code v text };

    #[inline]
    fn takes(code: u8) -> bool {
        is_known(code)
    }

    fn field<D: Draft>(
        &self,
        draft: &mut D,
        source: &MessageBytes<'_>,
        _place: usize,
        code: u8,
        spot: &Spot<'_>,
    ) -> usize {
        write_name(draft, code);
        write_value::<Json<SAFE>, D>(draft, source, spot)
    }
}

/// The fields that are not known, as objects.
#[derive(Clone, Copy)]
pub(crate) struct OtherFields<const SAFE: bool> {
    /// The place after the last known field among all fields, counted from 0, or 0 if none is
    /// known.
    pub(crate) known_end: usize,
}

impl<const SAFE: bool> FieldForm for OtherFields<SAFE> {
    ghost is_taken = { λ code. not (is_known_code code) };

    ghost is_text = { λ form place code v text.
        IsOther (integers_of SAFE) (nat_lt (suc place) form.known_end) place code v text };

    #[inline]
    fn takes(code: u8) -> bool {
        !is_known(code)
    }

    fn field<D: Draft>(
        &self,
        draft: &mut D,
        source: &MessageBytes<'_>,
        place: usize,
        code: u8,
        spot: &Spot<'_>,
    ) -> usize {
        draft.push_str("{\"code\":");
        write_integer(draft, code);
        draft.push_str(",\"type\":\"");
        write_types(draft, spot.types);
        draft.push_str("\",\"value\":");
        let after = write_value::<Json<SAFE>, D>(draft, source, spot);
        write_place(draft, place, self.known_end);
        after
    }
}

/// Appends the end of the object of a field that is not known: its place among all fields first, if
/// a known field stands after it.
fn write_place<D: Draft>(draft: &mut D, place: usize, known_end: usize)
    ensures { D.gains draft.old (end_text (nat_lt (suc place) known_end) place) draft.new }
{
    if place < known_end.saturating_sub(1) {
        draft.push_str(",\"place\":");
        write_integer(draft, place);
        draft.push_code(b'}');
        return;
    }
    draft.push_code(b'}');
}
