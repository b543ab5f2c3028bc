//! The bytes around a place.
#![tactic(auto)]

ghost use Rattle.std.specs.Prelude.{◌≤◌, length};
ghost use Rattle.std.specs.List.{flat_map};
ghost use Rattle.dbus_explain.specs.Explained.{byte_text, marked, window};

use dbus_show::{Draft, write_hex};

/// How many bytes are shown before the place, and from there on.
const BEFORE: usize = 8;

const FROM: usize = 8;

/// Appends a byte after a space.
fn write_byte<D: Draft>(draft: &mut D, byte: u8)
    ensures { D.gains draft.old (byte_text byte) draft.new }
{
    draft.push_code(b' ');
    write_hex(draft, &[byte]);
}

/// Appends bytes, each after a space.
fn write_bytes<D: Draft>(draft: &mut D, bytes: &[u8])
    ensures { D.gains draft.old (flat_map byte_text bytes.now) draft.new }
{
    for byte in bytes {
        write_byte(draft, *byte);
    }
}

/// Appends bytes of which the first is between brackets, and each other after a space; if there is
/// none, the brackets.
fn write_marked<D: Draft>(draft: &mut D, bytes: &[u8])
    ensures { D.gains draft.old (marked bytes.now) draft.new }
{
    match bytes {
        [byte, after @ ..] => {
            draft.push_str(" [");
            write_hex(draft, &[*byte]);
            draft.push_code(b']');
            write_bytes(draft, after);
        }
        [] => draft.push_str(" []"),
    }
}

/// Appends the bytes around a place: at most eight before it, the byte there between brackets, and
/// at most seven after that.
pub(crate) fn write_window<D: Draft>(draft: &mut D, bytes: &[u8], at: usize)
    requires { at ≤ length bytes.now }
    ensures { D.gains draft.old (window bytes.now at) draft.new }
{
    let (before, rest) = bytes.split_at(at);
    write_bytes(draft, &before[at.saturating_sub(BEFORE)..]);
    write_marked(draft, &rest[..rest.len().min(FROM)]);
}
