//! The form of values as text. D-Bus Specification, "Type System".
#![tactic(auto)]

ghost use Rattle.std.specs.Prelude.{◌≡◌, ◌<◌, ◌∷◌, [], codes};
ghost use Rattle.dbus_show.specs.ShownValues.{value_text};
ghost use Rattle.dbus_show_view.specs.Plain.{open_text, close_text};
ghost use Rattle.dbus_show_view.specs.PlainLaws.{whole_text};

use dbus_show::{Draft, write_hex, write_quoted};
use dbus_value_text::{ValueForm, write_number_at, write_types};
use dbus_walk::{Container, MessageBytes};
use std::str;

/// Appends the code of a type and a colon.
#[inline]
fn write_code<D: Draft>(draft: &mut D, code: u8)
    requires { code < 128 }
    ensures { D.gains draft.old (code ∷ 58 ∷ []) draft.new }
{
    let text = [code, b':'];
    // Both are ASCII, so that they are text.
    draft.push_str(unsafe { str::from_utf8_unchecked(&text) });
}

/// Values as text for a reader.
pub(crate) struct Plain;

impl ValueForm for Plain {
    ghost is_text = { λ v text. text ≡ value_text v };

    ghost open_text = { open_text };

    ghost close_text = { close_text };

    ghost separator_text = { codes ", " };

    #[inline]
    fn number<D: Draft>(draft: &mut D, source: &MessageBytes<'_>, at: usize, code: u8) {
        write_code(draft, code);
        write_number_at(draft, source.bytes, at, source.order, code);
    }

    #[inline]
    fn text<D: Draft>(draft: &mut D, code: u8, text: &str) {
        write_code(draft, code);
        write_quoted(draft, text);
    }

    #[inline]
    fn bytes<D: Draft>(draft: &mut D, bytes: &[u8]) {
        draft.push_str("ay:");
        write_hex(draft, bytes);
    }

    #[inline]
    fn open<D: Draft>(draft: &mut D, kind: Container, types: &[u8]) {
        match kind {
            Container::Variant => draft.push_code(b'<'),
            Container::Array => {
                write_types(draft, types);
                draft.push_str(":[");
            }
            Container::Struct => draft.push_code(b'('),
            Container::Entry => draft.push_code(b'{'),
        }
    }

    #[inline]
    fn close<D: Draft>(draft: &mut D, kind: Container) {
        draft.push_code(match kind {
            Container::Variant => b'>',
            Container::Array => b']',
            Container::Struct => b')',
            Container::Entry => b'}',
        });
    }

    #[inline]
    fn separator() -> &'static str {
        ", "
    }

    ghost whole = { whole_text };
}
