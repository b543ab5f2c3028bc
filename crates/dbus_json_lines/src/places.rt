//! Where the tokens of a text begin. RFC 8259, section 2.
#![tactic(auto)]

ghost use Rattle.std.specs.Prelude.{◌≡◌, ◌<◌, ◌^◌, ℕ, List, [], length};
ghost use Rattle.json.specs.Lex.{class, lex_byte};
ghost use Rattle.dbus_json_lines.specs.Places.{mode_of, next_mode, start, start_if, start_of};

// Where a scan stands in a text.
#[derive(Clone, Copy)]
pub(crate) enum Scan {
    // Between lexemes.
    Between,
    // In a number or a literal.
    Word,
    // In a string.
    Text,
    // In a string after a backslash.
    Escape,
}

// Where a scan stands after a byte.
fn after(scan: Scan, byte: u8) -> Scan
    ensures { mode_of result ≡ next_mode (mode_of scan) (class byte) }
{
    match scan {
        Scan::Escape => Scan::Text,
        Scan::Text => match byte {
            b'"' => Scan::Between,
            b'\\' => Scan::Escape,
            _ => Scan::Text,
        },
        Scan::Between | Scan::Word => match byte {
            b'{' | b'}' | b'[' | b']' | b':' | b',' => Scan::Between,
            b' ' | b'\t' | b'\n' | b'\r' => Scan::Between,
            b'"' => match scan {
                Scan::Between => Scan::Text,
                _ => Scan::Word,
            },
            _ => Scan::Word,
        },
    }
}

// Whether a lexeme begins at a byte that is no comma and no colon.
fn begins(scan: Scan, byte: u8) -> bool
    ensures { (at : ℕ) (rest : List ℕ) →
        start at (lex_byte (mode_of scan) (class byte) byte rest (λ next. [])) ≡ start_if result at }
{
    match byte {
        b'{' | b'}' | b'[' | b']' => matches!(scan, Scan::Between | Scan::Word),
        b':' | b',' | b' ' | b'\t' | b'\n' | b'\r' => false,
        _ => matches!(scan, Scan::Between),
    }
}

/// The offset of the token of this number in a text of JSON, both counted from 0, or the end of the
/// text if it has fewer tokens. Commas and colons are none.
#[tactic(auto, unfolding(crate::specs::Places::starts_from))]
pub(crate) fn offset_of(text: &[u8], token: usize) -> usize
    ensures place { result ≡ start_of text.now token }
    ensures few { length text.now < 2 ^ 64 }
{
    let end = text.len();
    let mut scan = Scan::Between;
    let mut left = token;
    let mut at = 0;
    while at < end {
        if begins(scan, text[at]) {
            if left == 0 {
                return at;
            }
            left -= 1;
        }
        scan = after(scan, text[at]);
        at += 1;
    }
    end
}
