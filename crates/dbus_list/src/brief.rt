//! The form of values in a line. D-Bus Specification, "Type System".
#![tactic(auto)]

ghost use Rattle.std.specs.Prelude.{codes};
ghost use Rattle.dbus_value_text.specs.Gaining.{GainsSome};
ghost use Rattle.dbus_list.specs.BriefValues.{IsBrief, IsBriefDouble, close_text, open_text};
ghost use Rattle.dbus_list.specs.BriefLaws.{whole_brief};

use dbus_json::finite;
use dbus_show::{Draft, write_hex, write_quoted};
use dbus_value_text::{ValueForm, write_number_at};
use dbus_walk::{Container, MessageBytes};
use ryu::Buffer;

/// Appends a DOUBLE.
fn write_double<D: Draft>(draft: &mut D, bits: u64)
    ensures { GainsSome D.gains draft.old (IsBriefDouble bits) draft.new }
{
    match finite(bits) {
        Some(number) => draft.push_str(Buffer::new().format_finite(number)),
        None => draft.push_str(match bits {
            0x7ff0_0000_0000_0000 => "inf",
            0xfff0_0000_0000_0000 => "-inf",
            _ => "nan",
        }),
    }
}

/// Values for the reader of a line.
pub(crate) struct Brief;

impl ValueForm for Brief {
    ghost is_text = { IsBrief };

    ghost open_text = { open_text };

    ghost close_text = { close_text };

    ghost separator_text = { codes ", " };

    #[inline]
    fn number<D: Draft>(draft: &mut D, source: &MessageBytes<'_>, at: usize, code: u8) {
        if code == b'd' {
            write_double(draft, source.order.u64_at(source.bytes, at));
        } else {
            write_number_at(draft, source.bytes, at, source.order, code);
        }
    }

    #[inline]
    fn text<D: Draft>(draft: &mut D, _code: u8, text: &str) {
        if !draft.is_full() {
            write_quoted(draft, text);
        }
    }

    #[inline]
    fn bytes<D: Draft>(draft: &mut D, bytes: &[u8]) {
        draft.push_str("0x");
        write_hex(draft, bytes);
    }

    #[inline]
    fn open<D: Draft>(draft: &mut D, kind: Container, _types: &[u8]) {
        draft.push_code(match kind {
            Container::Variant => b'<',
            Container::Array => b'[',
            Container::Struct => b'(',
            Container::Entry => b'{',
        });
    }

    #[inline]
    fn close<D: Draft>(draft: &mut D, kind: Container) {
        draft.push_code(match kind {
            Container::Variant => b'>',
            Container::Array => b']',
            Container::Struct => b')',
            Container::Entry => b'}',
        });
    }

    #[inline]
    fn separator() -> &'static str {
        ", "
    }

    #[inline]
    fn is_past<D: Draft>(draft: &D) -> bool {
        draft.is_full()
    }

    ghost whole = { whole_brief };
}
