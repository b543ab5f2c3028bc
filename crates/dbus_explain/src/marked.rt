//! A place in a line.
#![tactic(auto)]

ghost use Rattle.dbus_show.specs.Escapes.{escaped};
ghost use Rattle.dbus_show.specs.declared.escapes.Escapes.TheVariants.{Line};
ghost use Rattle.dbus_explain.specs.Explained.{blanks, marked_lines};

use crate::blanks::Blanks;
use dbus_show::{Draft, Escapes, write_escaped};

/// Appends two lines that show a place in a line, each after two spaces and ended by a line feed:
/// what comes before the place and what is there, with control characters of ASCII as `\x1b` and
/// hidden characters as `\u{202e}`; and a `^` below the first character that is there, or below the
/// end if nothing is.
///
/// ```text
///   {"type":"signal","serial":0}
///                             ^
/// ```
///
/// Only the draft allocates.
pub fn write_marked_line<D: Draft>(draft: &mut D, before: &str, there: &str)
    ensures { D.gains draft.old (marked_lines before.now there.now) draft.new }
{
    draft.push_str("  ");
    write_escaped(draft, before, Escapes::Line);
    write_escaped(draft, there, Escapes::Line);
    draft.push_str("\n  ");
    write_blanks_for(draft, before);
    draft.push_str("^\n");
}

/// Appends a blank for each character that shows a text.
fn write_blanks_for<D: Draft>(draft: &mut D, text: &str)
    ensures { D.gains draft.old (blanks (escaped Line text.now)) draft.new }
{
    write_escaped(&mut Blanks { draft }, text, Escapes::Line);
}
