//! Characters.
#![tactic(auto)]

ghost use Rattle.std.specs.Char.{encode_utf8};

use dbus_show::Draft;

/// Appends a character.
pub(crate) fn push_char<D: Draft>(draft: &mut D, c: char)
    ensures { D.gains draft.old (encode_utf8 c) draft.new }
{
    let mut bytes = [0; 4];
    draft.push_str(c.encode_utf8(&mut bytes));
}
