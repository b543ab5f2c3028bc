//! The form of values as JSON. RFC 8259; D-Bus Specification, "Type System".
#![tactic(auto)]

ghost use Rattle.std.specs.Prelude.{◌≡◌, ℕ, ◌+◌, ◌≤◌, codes, drop, length, not, take};
ghost use Rattle.dbus_texts.specs.Types.{NumberCode, number_code};
ghost use Rattle.dbus_types.specs.Alignments.{width};
ghost use Rattle.dbus_value_model.specs.Reading.{number_of};
ghost use Rattle.dbus_json.specs.declared.integers.Integers.TheVariants.{Safe};
ghost use Rattle.dbus_json.specs.JsonIntegers.{integers_of, may_be_number, wide_size};
ghost use Rattle.dbus_json.specs.JsonValues.{IsJson, IsNumber};
ghost use Rattle.dbus_value_text.specs.Gaining.{GainsSome};
ghost use Rattle.dbus_json.specs.Form.{open_text, close_text};
ghost use Rattle.dbus_json.specs.FormLaws.{whole_json};

use crate::doubles::write_double;
use crate::integers::Integers;
use crate::texts::write_string;
use dbus_show::{Draft, write_hex};
use dbus_value_text::{ValueForm, write_number_at, write_types};
use dbus_walk::{Container, MessageBytes};

/// Whether the number at `at`, of the type that has this code, is an integer of 64 bits that is a
/// string if integers are to be safe.
#[inline]
fn is_quoted(source: &MessageBytes<'_>, at: usize, code: u8) -> bool
    requires inside { (k : NumberCode) → number_code k ≡ code → at + width k ≤ length source.now.bytes.now }
    ensures { (k : NumberCode) → number_code k ≡ code →
        result ≡ not (may_be_number Safe (wide_size k
        (number_of source.now.order (take (width k) (drop at source.now.bytes.now))))) }
{
    let size = match code {
        b'x' => source
            .order
            .u64_at(source.bytes, at)
            .cast_signed()
            .unsigned_abs(),
        b't' => source.order.u64_at(source.bytes, at),
        _ => return false,
    };
    !Integers::Safe.may_be_number(size)
}

/// Appends the number at `at`, of the type that has this code, which is no DOUBLE: an integer of 64
/// bits as a string if it may be no number.
fn write_safe<D: Draft>(draft: &mut D, source: &MessageBytes<'_>, at: usize, code: u8)
    requires inside { (k : NumberCode) → number_code k ≡ code → at + width k ≤ length source.now.bytes.now }
    requires whole { code ≡ 100 → ⊥ }
    ensures { (k : NumberCode) → number_code k ≡ code →
        GainsSome D.gains draft.old
        (IsNumber Safe k (number_of source.now.order (take (width k) (drop at source.now.bytes.now))))
        draft.new }
{
    if is_quoted(source, at, code) {
        draft.push_code(b'"');
        write_number_at(draft, source.bytes, at, source.order, code);
        draft.push_code(b'"');
    } else {
        write_number_at(draft, source.bytes, at, source.order, code);
    }
}

/// Values as JSON, in which integers are safe or not.
pub(crate) struct Json<const SAFE: bool>;

impl<const SAFE: bool> ValueForm for Json<SAFE> {
    ghost is_text = { IsJson (integers_of SAFE) };

    ghost open_text = { open_text };

    ghost close_text = { close_text };

    ghost separator_text = { codes "," };

    #[inline]
    fn number<D: Draft>(draft: &mut D, source: &MessageBytes<'_>, at: usize, code: u8) {
        if code == b'd' {
            write_double(draft, source.order.u64_at(source.bytes, at));
        } else if SAFE {
            write_safe(draft, source, at, code);
        } else {
            write_number_at(draft, source.bytes, at, source.order, code);
        }
    }

    #[inline]
    fn text<D: Draft>(draft: &mut D, _code: u8, text: &str) {
        write_string(draft, text);
    }

    #[inline]
    fn bytes<D: Draft>(draft: &mut D, bytes: &[u8]) {
        draft.push_code(b'"');
        write_hex(draft, bytes);
        draft.push_code(b'"');
    }

    #[inline]
    fn open<D: Draft>(draft: &mut D, kind: Container, types: &[u8]) {
        match kind {
            Container::Variant => {
                draft.push_str("{\"type\":\"");
                write_types(draft, types);
                draft.push_str("\",\"value\":");
            }
            Container::Array | Container::Struct | Container::Entry => draft.push_code(b'['),
        }
    }

    #[inline]
    fn close<D: Draft>(draft: &mut D, kind: Container) {
        draft.push_code(match kind {
            Container::Variant => b'}',
            Container::Array | Container::Struct | Container::Entry => b']',
        });
    }

    #[inline]
    fn separator() -> &'static str {
        ","
    }

    ghost whole = { whole_json (integers_of SAFE) };
}
