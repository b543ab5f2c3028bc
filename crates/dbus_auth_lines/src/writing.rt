//! Lines as they are written. D-Bus Specification, "Authentication Protocol", "Protocol Overview"
//! and the sections of each command.

ghost use Rattle.std.specs.Prelude.{◌≡◌, ◌++◌, ℕ, IfOk, map, codes};
ghost use Rattle.std.specs.List.{list_all, flat_map};
ghost use Rattle.dbus_auth_lines.specs.Lines.{hex_word, text_word, ended, spaced, client_line, server_line, client_command, server_command};
ghost use Rattle.dbus_auth_lines.specs.WrittenLines.{Writes, is_word, is_printed, is_plain, is_client_spelled, is_server_spelled, within_limit, client_text_of, server_text_of};

use crate::lines::{ClientLine, ServerLine};
use std::alloc::{AllocError, Allocator};
use thiserror::Error;

/// Why a line is not written.
#[derive(Clone, Copy, PartialEq, Eq, Debug, Drop, Error)]
pub enum TextFault {
    /// An allocation failed.
    #[error("allocation failed")]
    Memory,
    /// No line spells this: it is `Other`; a mechanism is empty or has a byte outside 33 to 126;
    /// the text of `ERROR` has a byte outside 1 to 127 or has CR or LF; or the line would have more
    /// than 16,384 bytes with its CR LF.
    #[error("no line spells this")]
    Unspellable,
}

impl From<AllocError> for TextFault {
    ghost use Rattle.std.specs.Prelude.{◌≡◌};
    ghost use Rattle.dbus_auth_lines.specs.declared.writing.TextFault.TheVariants.{Memory};

    ghost from_gives = { λ _ e. e ≡ Memory };

    fn from(_: AllocError) -> Self {
        TextFault::Memory
    }
}

/// The line of a client with its CR LF: the command and its words, joined by one space.
/// Hexadecimal words are in lower case, and empty bytes are written as no word.
///
/// Returns `Unspellable` exactly as [`TextFault`] says, and `Memory` if an allocation failed.
pub fn client_text<A: Allocator + Copy>(
    alloc: A,
    line: &ClientLine<A>,
) -> Result<Vec<u8, A>, TextFault>
    ensures { Writes (λ v. v.items) result (client_text_of (client_command line.now)) }
{
    if !is_client_line_spelled(line) {
        return Err(TextFault::Unspellable);
    }
    within(client_bytes(alloc, line)?)
}

/// The line of a server with its CR LF, written as `client_text` does. The words of `REJECTED` are
/// mechanisms.
///
/// Returns `Unspellable` exactly as [`TextFault`] says, and `Memory` if an allocation failed.
pub fn server_text<A: Allocator + Copy>(
    alloc: A,
    line: &ServerLine<A>,
) -> Result<Vec<u8, A>, TextFault>
    ensures { Writes (λ v. v.items) result (server_text_of (server_command line.now)) }
{
    if !is_server_line_spelled(line) {
        return Err(TextFault::Unspellable);
    }
    within(server_bytes(alloc, line)?)
}

/// The line of a client with its CR LF, whether or not it is spelled. Of `Other`, the CR LF alone.
///
/// Returns `AllocError` if an allocation failed.
pub fn client_bytes<A: Allocator + Copy>(
    alloc: A,
    line: &ClientLine<A>,
) -> Result<Vec<u8, A>, AllocError>
    ensures { IfOk result (λ v. v.items ≡ ended (client_line (client_command line.now))) }
{
    let mut text = match line {
        ClientLine::Auth => Vec::from_slice(alloc, b"AUTH")?,
        ClientLine::AuthBy { mech, response } => auth_bytes(alloc, mech, response)?,
        ClientLine::Cancel => Vec::from_slice(alloc, b"CANCEL")?,
        ClientLine::Begin => Vec::from_slice(alloc, b"BEGIN")?,
        ClientLine::DataOf(bytes) => with_hex(alloc, Vec::from_slice(alloc, b"DATA")?, bytes)?,
        ClientLine::Error(text) => with_text(Vec::from_slice(alloc, b"ERROR")?, text)?,
        ClientLine::Negotiate => Vec::from_slice(alloc, b"NEGOTIATE_UNIX_FD")?,
        ClientLine::Other => Vec::new(alloc),
    };
    text.extend_from_slice(b"\r\n")?;
    Ok(text)
}

/// The line of a server with its CR LF, whether or not it is spelled. Of `Other`, the CR LF alone.
///
/// Returns `AllocError` if an allocation failed.
pub fn server_bytes<A: Allocator + Copy>(
    alloc: A,
    line: &ServerLine<A>,
) -> Result<Vec<u8, A>, AllocError>
    ensures { IfOk result (λ v. v.items ≡ ended (server_line (server_command line.now))) }
{
    let mut text = match line {
        ServerLine::Rejected(words) => with_words(Vec::from_slice(alloc, b"REJECTED")?, words)?,
        ServerLine::Accepted(guid) => with_hex(alloc, Vec::from_slice(alloc, b"OK")?, &guid.0)?,
        ServerLine::DataOf(bytes) => with_hex(alloc, Vec::from_slice(alloc, b"DATA")?, bytes)?,
        ServerLine::Error(text) => with_text(Vec::from_slice(alloc, b"ERROR")?, text)?,
        ServerLine::Agree => Vec::from_slice(alloc, b"AGREE_UNIX_FD")?,
        ServerLine::Other => Vec::new(alloc),
    };
    text.extend_from_slice(b"\r\n")?;
    Ok(text)
}

/// `AUTH` with a mechanism and its response.
fn auth_bytes<A: Allocator + Copy>(
    alloc: A,
    mech: &[u8],
    response: &[u8],
) -> Result<Vec<u8, A>, AllocError>
    ensures { IfOk result (λ v. v.items ≡ codes "AUTH " ++ mech.now ++ hex_word response.now) }
{
    let mut text = Vec::from_slice(alloc, b"AUTH ")?;
    text.extend_from_slice(mech)?;
    with_hex(alloc, text, response)
}

/// The text with a space and the bytes in hexadecimal, if there are bytes.
fn with_hex<A: Allocator + Copy>(
    alloc: A,
    mut text: Vec<u8, A>,
    bytes: &[u8],
) -> Result<Vec<u8, A>, AllocError>
    ensures { IfOk result (λ v. v.items ≡ text.items ++ hex_word bytes.now) }
{
    if !bytes.is_empty() {
        text.push(b' ')?;
        let digits = hex::encode(alloc, bytes)?;
        text.extend_from_slice(digits.as_bytes())?;
    }
    Ok(text)
}

/// The text with a space and a further text, if there is one.
fn with_text<A: Allocator + Copy>(
    mut text: Vec<u8, A>,
    more: &[u8],
) -> Result<Vec<u8, A>, AllocError>
    ensures { IfOk result (λ v. v.items ≡ text.items ++ text_word more.now) }
{
    if !more.is_empty() {
        text.push(b' ')?;
        text.extend_from_slice(more)?;
    }
    Ok(text)
}

/// The text with a space and each word.
fn with_words<A: Allocator + Copy>(
    mut text: Vec<u8, A>,
    words: &[Vec<u8, A>],
) -> Result<Vec<u8, A>, AllocError>
    ensures { IfOk result (λ v. v.items ≡
        text.items ++ flat_map spaced (map (λ w. w.items) words.now)) }
{
    for word in words {
        text.push(b' ')?;
        text.extend_from_slice(word)?;
    }
    Ok(text)
}

/// The text with its CR LF, if it is not too long.
fn within<A: Allocator>(text: Vec<u8, A>) -> Result<Vec<u8, A>, TextFault>
    ensures { Writes (λ v. v.items) result (within_limit text.items) }
{
    if text.len() > 16384 {
        return Err(TextFault::Unspellable);
    }
    Ok(text)
}

/// Whether bytes spell the client's line: its words and its text fit a line.
fn is_client_line_spelled<A: Allocator>(line: &ClientLine<A>) -> bool
    ensures { result ≡ is_client_spelled (client_command line.now) }
{
    match line {
        ClientLine::AuthBy { mech, .. } => is_word_text(mech),
        ClientLine::Error(text) => is_error_text(text),
        ClientLine::Other => false,
        ClientLine::Auth
        | ClientLine::Cancel
        | ClientLine::Begin
        | ClientLine::DataOf(_)
        | ClientLine::Negotiate => true,
    }
}

/// The same of a server's line.
fn is_server_line_spelled<A: Allocator>(line: &ServerLine<A>) -> bool
    ensures { result ≡ is_server_spelled (server_command line.now) }
{
    match line {
        ServerLine::Rejected(words) => are_words(words),
        ServerLine::Error(text) => is_error_text(text),
        ServerLine::Other => false,
        ServerLine::Accepted(_) | ServerLine::DataOf(_) | ServerLine::Agree => true,
    }
}

/// Whether each is a word of a line.
fn are_words<A: Allocator>(words: &[Vec<u8, A>]) -> bool
    ensures { result ≡ list_all is_word (map (λ w. w.items) words.now) }
{
    for word in words {
        if !is_word_text(word) {
            return false;
        }
    }
    true
}

/// Whether the bytes are a word of a line.
pub(crate) fn is_word_text(bytes: &[u8]) -> bool
    ensures { result ≡ is_word bytes.now }
{
    !bytes.is_empty() && are_printed(bytes)
}

/// Whether all bytes are printable ASCII but the space.
fn are_printed(bytes: &[u8]) -> bool
    ensures { result ≡ list_all is_printed bytes.now }
{
    bytes.iter().all(|b| 33 <= *b && *b <= 126)
}

/// Whether the bytes are allowed after `ERROR`.
pub(crate) fn is_error_text(bytes: &[u8]) -> bool
    ensures { result ≡ list_all is_plain bytes.now }
{
    bytes
        .iter()
        .all(|b| 0 < *b && *b < 128 && *b != b'\r' && *b != b'\n')
}
