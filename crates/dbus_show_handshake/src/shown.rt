//! Bytes as text.
#![tactic(auto)]

ghost use Rattle.std.specs.Prelude.{◌≡◌, true};
ghost use Rattle.std.specs.Str.{IsUtf8};
ghost use Rattle.dbus_show_handshake.specs.ShownHandshakes.{has_other, shown};

use dbus_show::{Draft, write_hex, write_quoted};
use std::str;

/// Whether a byte is not ASCII.
fn has_other(bytes: &[u8]) -> bool
    ensures { result ≡ has_other bytes.now }
{
    bytes.iter().any(|byte| *byte > 127)
}

/// Appends bytes: as a text between quotation marks if all are ASCII, or else two lower case digits
/// for each.
pub(crate) fn write_shown<D: Draft>(draft: &mut D, bytes: &[u8])
    ensures { D.gains draft.old (shown bytes.now) draft.new }
{
    if has_other(bytes) {
        write_hex(draft, bytes);
    } else {
        // All are ASCII, so that they are text.
        write_quoted(draft, unsafe { str::from_utf8_unchecked(bytes) });
    }
}
