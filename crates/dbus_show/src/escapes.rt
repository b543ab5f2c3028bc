//! Which characters of a text are escaped, and what stands for them.
#![tactic(auto)]

ghost use Rattle.std.specs.Prelude.{◌≡◌, ◌<◌, ◌/◌, ◌%◌, ◌∷◌, [], ◌++◌, codes, true};
ghost use Rattle.std.specs.Char.Escape.{escape_unicode};
ghost use Rattle.hex.specs.Hex.{encode_lower};
ghost use Rattle.dbus_show.specs.Escapes.{escape, is_escaped, is_hidden, is_quote, units_text};

use crate::draft::Draft;
use crate::hexadecimal::write_byte;

/// Which characters of a text are escaped as it is written, and how.
#[derive(Clone, Copy, Debug, PartialEq, Eq)]
pub enum Escapes {
    /// As `show` has texts: `"` and `\` after a backslash, control characters of ASCII as `\x1b`.
    Shown,
    /// As in strings of JSON: `"` and `\` after a backslash, control characters of ASCII and hidden
    /// characters as `\u001b`, or as two such units if UTF-16 has two. RFC 8259, section 7.
    Json,
    /// Hidden characters alone, as `\u{202e}`.
    Hidden,
    /// What may not be in a line that a terminal shows: control characters of ASCII as `\x1b`, and
    /// hidden characters as `\u{202e}`.
    Line,
}

/// Whether a character is hidden: beyond ASCII, a terminal may obey it, or it is not drawn.
///
/// These are the control characters U+0080 to U+009F, those that turn the direction of writing, as
/// U+202E, separators of lines, characters without a width, as U+200B and U+FEFF, the soft hyphen,
/// and tags. Unicode, chapter 23, "Special Areas and Format Characters".
pub fn is_hidden(character: char) -> bool
    ensures { result ≡ is_hidden character }
{
    matches!(
        character,
        '\u{80}'..='\u{9f}'
            | '\u{ad}'
            | '\u{61c}'
            | '\u{180e}'
            | '\u{200b}'..='\u{200f}'
            | '\u{2028}'..='\u{202e}'
            | '\u{2060}'..='\u{206f}'
            | '\u{feff}'
            | '\u{fff9}'..='\u{fffb}'
            | '\u{e0000}'..='\u{e0fff}'
    )
}

/// Whether it is a quotation mark or a backslash.
fn is_quote(character: char) -> bool
    ensures { result ≡ is_quote character }
{
    character == '"' || character == '\\'
}

/// Whether a character is escaped.
pub(crate) fn is_escaped(character: char, escapes: Escapes) -> bool
    ensures { result ≡ is_escaped escapes character }
{
    match escapes {
        Escapes::Shown => is_quote(character) || character.is_ascii_control(),
        Escapes::Json => {
            is_quote(character) || character.is_ascii_control() || is_hidden(character)
        }
        Escapes::Hidden => is_hidden(character),
        Escapes::Line => character.is_ascii_control() || is_hidden(character),
    }
}

/// Appends a unit of UTF-16 as `\u` and four digits.
fn write_unit<D: Draft>(draft: &mut D, unit: u16)
    ensures { D.gains draft.old (codes "\\u" ++ encode_lower (unit / 256 ∷ unit % 256 ∷ [])) draft.new }
{
    draft.push_str("\\u");
    write_byte(draft, (unit / 256) as u8);
    write_byte(draft, (unit % 256) as u8);
}

/// Appends the units of a character in UTF-16. RFC 8259, section 7.
fn write_units<D: Draft>(draft: &mut D, character: char)
    ensures { D.gains draft.old (units_text character) draft.new }
{
    let code = character as u32;
    if code < 0x1_0000 {
        write_unit(draft, code as u16);
        return;
    }
    let bits = code - 0x1_0000;
    write_unit(draft, (0xd800 + bits / 0x400) as u16);
    write_unit(draft, (0xdc00 + bits % 0x400) as u16);
}

/// Appends a character as `\u{`, its code and `}`.
fn write_code<D: Draft>(draft: &mut D, character: char)
    ensures { D.gains draft.old (escape_unicode character) draft.new }
{
    for part in character.escape_unicode() {
        draft.push_str(part.encode_utf8(&mut [0; 4]));
    }
}

/// Appends a character of ASCII as `\x` and two digits.
fn write_ascii<D: Draft>(draft: &mut D, character: char)
    requires { character < 128 }
    ensures { D.gains draft.old (codes "\\x" ++ encode_lower (character ∷ [])) draft.new }
{
    draft.push_str("\\x");
    write_byte(draft, character as u8);
}

/// Appends what stands for a character that is escaped.
pub(crate) fn write_escape<D: Draft>(draft: &mut D, character: char, escapes: Escapes)
    requires { is_escaped escapes character ≡ true }
    ensures { D.gains draft.old (escape escapes character) draft.new }
{
    if is_quote(character) {
        draft.push_code(b'\\');
        draft.push_code(character as u8);
        return;
    }
    match escapes {
        Escapes::Shown => write_ascii(draft, character),
        Escapes::Json => write_units(draft, character),
        Escapes::Hidden => write_code(draft, character),
        Escapes::Line => {
            if character.is_ascii_control() {
                write_ascii(draft, character);
            } else {
                write_code(draft, character);
            }
        }
    }
}
