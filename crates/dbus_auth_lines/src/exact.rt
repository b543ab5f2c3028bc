//! Whether a line is as the library writes it. D-Bus Specification, "Authentication Protocol",
//! "Protocol Overview" and the sections of each command.

ghost use Rattle.std.specs.Prelude.{◌≡◌, ◌≤◌, ◌&&◌, ◌++◌, ◌↔◌, ℕ, List, Ok, IsTrue, MatchOption, bytes_eq, codes, false, length, map, nat_le};
ghost use Rattle.std.specs.List.{flat_map, list_all};
ghost use Rattle.std.specs.Char.{to_ascii_lowercase};
ghost use Rattle.hex.specs.Hex.{decode_of};
ghost use Rattle.dbus_auth_lines.specs.Lines.{client_meaning, hex_word, server_meaning, spaced, text_word, words};
ghost use Rattle.dbus_auth_lines.specs.WordPlaces.{SaysToClient, SaysToServer};
ghost use Rattle.dbus_auth_lines.specs.WrittenLines.{IsExactClientLine, IsExactServerLine, is_client_text, is_plain, is_server_text, is_word};

use crate::places::{ClientWords, ServerWords, client_words, server_words};
use crate::words::{next_word, text_at};
use crate::writing::{is_error_text, is_word_text};

/// Whether a line of a client, given without its CR LF, is exact: the very bytes that
/// [`crate::client_text`] writes for what it says, with one space between words, none at the end,
/// and hexadecimal digits in lower case. A line that is `Other` is not, nor is one of more than
/// 16,384 bytes with its CR LF. It allocates nothing.
///
/// Readers differ in what they make of other lines: to some, `BEGIN` and a space is not BEGIN. Who
/// looks on at a handshake passes exact lines alone.
pub fn is_exact_client_line(line: &[u8]) -> bool
    ensures { IsTrue result ↔ IsExactClientLine line.now }
{
    is_short(line) && is_client_text(line, client_words(line))
}

/// Whether a line of a server, given without its CR LF, is exact, as [`is_exact_client_line`] says:
/// the very bytes that [`crate::server_text`] writes for what it says.
pub fn is_exact_server_line(line: &[u8]) -> bool
    ensures { IsTrue result ↔ IsExactServerLine line.now }
{
    is_short(line) && is_server_text(line, server_words(line))
}

/// Whether the line has at most 16,384 bytes with its CR LF.
fn is_short(line: &[u8]) -> bool
    ensures { result ≡ nat_le (length line.now) 16382 }
{
    line.len() <= 16382
}

/// Whether what the client's line says is written as it, but for its length.
fn is_client_text(line: &[u8], said: ClientWords) -> bool
    requires { SaysToServer line.now said (client_meaning line.now) }
    ensures { result ≡ is_client_text line.now (client_meaning line.now) }
{
    match said {
        ClientWords::Auth => line == b"AUTH".as_slice(),
        ClientWords::AuthBy { mech, response } => {
            is_auth_text(line, text_at(line, mech), text_at(line, response))
        }
        ClientWords::Cancel => line == b"CANCEL".as_slice(),
        ClientWords::Begin => line == b"BEGIN".as_slice(),
        ClientWords::DataOf(digits) => is_hex_text(line, b"DATA", text_at(line, digits)),
        ClientWords::Error(text) => is_error_line(line, text_at(line, text)),
        ClientWords::Negotiate => line == b"NEGOTIATE_UNIX_FD".as_slice(),
        ClientWords::Other => false,
    }
}

/// The same of a server's line.
fn is_server_text(line: &[u8], said: ServerWords) -> bool
    requires { SaysToClient line.now said (server_meaning line.now) }
    ensures { result ≡ is_server_text line.now (server_meaning line.now) }
{
    match said {
        ServerWords::Rejected(mechanisms) => is_rejected_text(line, text_at(line, mechanisms)),
        ServerWords::Accepted(digits) => is_hex_text(line, b"OK", text_at(line, digits)),
        ServerWords::DataOf(digits) => is_hex_text(line, b"DATA", text_at(line, digits)),
        ServerWords::Error(text) => is_error_line(line, text_at(line, text)),
        ServerWords::Agree => line == b"AGREE_UNIX_FD".as_slice(),
        ServerWords::Other => false,
    }
}

/// What follows these bytes at the start of a text.
#[tactic(auto, using(crate::proofs::ExactLines::follows, crate::proofs::ExactLines::follows_not))]
fn after<'a>(text: &'a [u8], front: &[u8]) -> Option<&'a [u8]>
    ensures { MatchOption result
        ((x : List ℕ) → bytes_eq text.now (front.now ++ x) ≡ false)
        (λ rest. (x : List ℕ) → bytes_eq text.now (front.now ++ x) ≡ bytes_eq rest.now x) }
{
    text.strip_prefix(front)
}

/// Whether the line is `AUTH`, the mechanism and the response of these digits, as it is written.
fn is_auth_text(line: &[u8], mech: &[u8], digits: &[u8]) -> bool
    ensures { (bytes : List ℕ) → decode_of digits.now ≡ Ok bytes →
        result ≡ (is_word mech.now && bytes_eq line.now (codes "AUTH " ++ mech.now ++ hex_word bytes)) }
{
    match after(line, b"AUTH ") {
        Some(rest) => is_word_text(mech) && is_hex_text(rest, mech, digits),
        None => false,
    }
}

/// Whether the text is these first bytes, and then the bytes of the digits as they are written.
fn is_hex_text(text: &[u8], front: &[u8], digits: &[u8]) -> bool
    ensures { (bytes : List ℕ) → decode_of digits.now ≡ Ok bytes →
        result ≡ bytes_eq text.now (front.now ++ hex_word bytes) }
{
    match after(text, front) {
        Some(rest) => is_hex_word(rest, digits),
        None => false,
    }
}

/// Whether the text is a space and the digits in lower case; nothing if there are none.
#[tactic(auto, using(crate::proofs::ExactLines::some_digits))]
fn is_hex_word(text: &[u8], digits: &[u8]) -> bool
    ensures { (bytes : List ℕ) → decode_of digits.now ≡ Ok bytes →
        result ≡ bytes_eq text.now (hex_word bytes) }
{
    if digits.is_empty() {
        return text.is_empty();
    }
    match after(text, b" ") {
        Some(word) => is_lower_of(word, digits),
        None => false,
    }
}

/// Whether the word is these digits in lower case.
fn is_lower_of(word: &[u8], digits: &[u8]) -> bool
    ensures { result ≡ bytes_eq word.now (map to_ascii_lowercase digits.now) }
{
    is_lower(word) && word.eq_ignore_ascii_case(digits)
}

/// Whether no letter is in upper case.
fn is_lower(text: &[u8]) -> bool
    ensures { IsTrue result ↔ (map to_ascii_lowercase text.now ≡ text.now) }
{
    text.iter().all(|b| b.to_ascii_lowercase() == *b)
}

/// Whether the line is `ERROR` and this text, as it is written.
fn is_error_line(line: &[u8], text: &[u8]) -> bool
    ensures { result ≡
        (list_all is_plain text.now && bytes_eq line.now (codes "ERROR" ++ text_word text.now)) }
{
    match after(line, b"ERROR") {
        Some(rest) => is_error_text(text) && is_text_word(rest, text),
        None => false,
    }
}

/// Whether the text is a space and this word; nothing if it has no bytes.
fn is_text_word(text: &[u8], word: &[u8]) -> bool
    ensures { result ≡ bytes_eq text.now (text_word word.now) }
{
    match text.split_first() {
        Some((first, rest)) => *first == b' ' && !word.is_empty() && rest == word,
        None => word.is_empty(),
    }
}

/// Whether the line is `REJECTED` and the words of this text, as it is written.
fn is_rejected_text(line: &[u8], text: &[u8]) -> bool
    ensures { result ≡
        (list_all is_word (words text.now) &&
        bytes_eq line.now (codes "REJECTED" ++ flat_map spaced (words text.now))) }
{
    match after(line, b"REJECTED") {
        Some(rest) => are_spaced_words(rest, text),
        None => false,
    }
}

/// Whether these bytes are the words of the text, each after one space.
fn are_spaced_words(bytes: &[u8], text: &[u8]) -> bool
    ensures { result ≡
        (list_all is_word (words text.now) &&
        bytes_eq bytes.now (flat_map spaced (words text.now))) }
{
    let mut rest = bytes;
    let mut from = 0;
    while let Some(place) = next_word(text, from) {
        let word = text_at(text, place);
        if !is_word_text(word) {
            return false;
        }
        let Some(left) = after_word(rest, word) else {
            return false;
        };
        rest = left;
        from = place.at + place.length;
    }
    rest.is_empty()
}

/// What follows one space and the word at the start of a text.
fn after_word<'a>(text: &'a [u8], word: &[u8]) -> Option<&'a [u8]>
    ensures { MatchOption result
        ((x : List ℕ) → bytes_eq text.now (spaced word.now ++ x) ≡ false)
        (λ rest. (x : List ℕ) → bytes_eq text.now (spaced word.now ++ x) ≡ bytes_eq rest.now x) }
{
    match after(text, b" ") {
        Some(rest) => after(rest, word),
        None => None,
    }
}
