//! Texts as JSON. RFC 8259, section 7.
#![tactic(auto)]

ghost use Rattle.dbus_json.specs.JsonValues.{string};

use dbus_show::{Draft, Escapes, write_quoted_by};

/// Appends a text as a string of JSON: `"` and `\` stand after a backslash, the control characters
/// of ASCII and hidden characters as `\u001b`, one that UTF-16 has in two units as two of them, and
/// every other character is itself. [`is_hidden`](dbus_show::is_hidden) says which are hidden.
pub fn write_string<D: Draft>(draft: &mut D, text: &str)
    ensures { D.gains draft.old (string text.now) draft.new }
{
    write_quoted_by(draft, text, Escapes::Json);
}
