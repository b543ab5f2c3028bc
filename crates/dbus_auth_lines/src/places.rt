//! What a line means, by the places of its words. It allocates nothing. D-Bus Specification,
//! "Authentication Protocol", "Protocol Overview" and the sections of each command.

ghost use Rattle.std.specs.Prelude.{◌≡◌, ℕ, ◌≤◌, length, drop, List, codes, bytes_eq};
ghost use Rattle.std.specs.List.{list_all};
ghost use Rattle.hex.specs.Hex.{is_hex_digit};
ghost use Rattle.dbus_auth_lines.specs.ClientCommands as client;
ghost use Rattle.dbus_auth_lines.specs.ServerCommands as server;
ghost use Rattle.dbus_auth_lines.specs.Lines.{command_name, words, alone, auth_by, accepted, client_meaning, server_meaning, client_name, server_name, client_row, server_row};
ghost use Rattle.dbus_auth_lines.specs.WordPlaces.{AreClientPlaces, AreServerPlaces, IsErrorText, IsWithin, SaysToClient, SaysToServer, client_found, is_hex, server_found, text_at};

use crate::words::{WordPlace, is_alone, next_word, only_word, text_at, word_len, words_from};

/// What a line of a client says, by the places of its words in the line.
#[derive(Clone, Copy, PartialEq, Eq, Debug, Drop)]
pub enum ClientWords {
    /// `AUTH` alone, which asks for the server's mechanisms.
    Auth,
    /// `AUTH` with a mechanism and its initial response.
    AuthBy {
        /// The mechanism's name.
        mech: WordPlace,
        /// The response's hexadecimal digits, or no bytes at the mechanism's end.
        response: WordPlace,
    },
    /// `CANCEL`, which gives the mechanism up.
    Cancel,
    /// `BEGIN`, the last line: messages follow.
    Begin,
    /// `DATA` and its hexadecimal digits, or no bytes where the command ends.
    DataOf(WordPlace),
    /// `ERROR` and its text, which may be empty: all after one space, up to the line's end.
    Error(WordPlace),
    /// `NEGOTIATE_UNIX_FD`, which asks to pass descriptors.
    Negotiate,
    /// Any other line.
    Other,
}

/// What a line of a server says, by the places of its words in the line.
#[derive(Clone, Copy, PartialEq, Eq, Debug, Drop)]
pub enum ServerWords {
    /// `REJECTED` and the mechanisms that the server offers: from the first one up to the line's
    /// end, spaces after the last one too. If there are none, no bytes at the line's end.
    Rejected(WordPlace),
    /// `OK` and the 32 hexadecimal digits of the server's GUID.
    Accepted(WordPlace),
    /// `DATA` and its hexadecimal digits, or no bytes where the command ends.
    DataOf(WordPlace),
    /// `ERROR` and its text, which may be empty: all after one space, up to the line's end.
    Error(WordPlace),
    /// `AGREE_UNIX_FD`, which agrees to pass descriptors.
    Agree,
    /// Any other line.
    Other,
}

/// What a line of a client means, given without its CR LF, as [`crate::read_client`] says, without
/// memory for its words: each is returned by its own place, also if another has the same bytes.
pub fn client_words(line: &[u8]) -> ClientWords
    ensures says { SaysToServer line.now result (client_meaning line.now) }
    ensures places { AreClientPlaces line.now (length (command_name line.now)) result }
{
    let found = find_client(line);
    match found {
        ClientWords::AuthBy { response, .. } if !is_hex(text_at(line, response)) => {
            ClientWords::Other
        }
        ClientWords::DataOf(digits) if !is_hex(text_at(line, digits)) => ClientWords::Other,
        _ => found,
    }
}

/// What a line of a server means, given without its CR LF, as [`crate::read_server`] says, without
/// memory for its words, which are returned by their places as by [`client_words`].
pub fn server_words(line: &[u8]) -> ServerWords
    ensures says { SaysToClient line.now result (server_meaning line.now) }
    ensures places { AreServerPlaces line.now (length (command_name line.now)) result }
{
    let found = find_server(line);
    match found {
        ServerWords::Accepted(digits) | ServerWords::DataOf(digits)
            if !is_hex(text_at(line, digits)) => { ServerWords::Other }
        _ => found,
    }
}

/// What a client's line says if those of its words are hexadecimal that have to be; else it is
/// `Other`.
#[tactic(auto, unfolding(crate::specs::Lines::client_meaning, crate::specs::Lines::arguments), using(crate::proofs::Spaces::take_command_name))]
pub(crate) fn find_client(line: &[u8]) -> ClientWords
    ensures is { client_found line.now result ≡ client_meaning line.now }
    ensures places { AreClientPlaces line.now (length (command_name line.now)) result }
{
    let end = word_len(line);
    client_line_by(client_name_of(&line[..end]), line, end)
}

/// What a server's line says if those of its words are hexadecimal that have to be; else it is
/// `Other`.
#[tactic(auto, unfolding(crate::specs::Lines::server_meaning, crate::specs::Lines::arguments), using(crate::proofs::Spaces::take_command_name))]
pub(crate) fn find_server(line: &[u8]) -> ServerWords
    ensures is { server_found line.now result ≡ server_meaning line.now }
    ensures places { AreServerPlaces line.now (length (command_name line.now)) result }
{
    let end = word_len(line);
    server_line_by(server_name_of(&line[..end]), line, end)
}

/// A client's line, by the command that it names, and what comes from there on.
#[tactic(auto, using(crate::proofs::Meanings::client_data_word))]
fn client_line_by(name: ClientName, line: &[u8], end: usize) -> ClientWords
    requires { end ≤ length line.now }
    ensures is { client_found line.now result ≡ client_row name (words (drop end line.now)) line.now }
    ensures places { AreClientPlaces line.now end result }
{
    match name {
        ClientName::Auth => find_auth(line, end),
        ClientName::Cancel => client_alone(line, end, ClientWords::Cancel),
        ClientName::Begin => client_alone(line, end, ClientWords::Begin),
        ClientName::Data => match only_word(line, end) {
            Some(digits) => ClientWords::DataOf(digits),
            None => ClientWords::Other,
        },
        ClientName::Error => ClientWords::Error(error_text(line)),
        ClientName::Negotiate => client_alone(line, end, ClientWords::Negotiate),
        ClientName::Unknown => ClientWords::Other,
    }
}

/// A server's line, by the command that it names, and what comes from there on.
#[tactic(auto, using(crate::proofs::Meanings::server_data_word))]
fn server_line_by(name: ServerName, line: &[u8], end: usize) -> ServerWords
    requires { end ≤ length line.now }
    ensures is { server_found line.now result ≡ server_row name (words (drop end line.now)) line.now }
    ensures places { AreServerPlaces line.now end result }
{
    match name {
        ServerName::Rejected => ServerWords::Rejected(words_from(line, end)),
        ServerName::Ok => find_accepted(line, end),
        ServerName::Data => match only_word(line, end) {
            Some(digits) => ServerWords::DataOf(digits),
            None => ServerWords::Other,
        },
        ServerName::Error => ServerWords::Error(error_text(line)),
        ServerName::Agree => find_agree(line, end),
        ServerName::Unknown => ServerWords::Other,
    }
}

/// The command that a client's line names.
#[derive(Clone, Copy, Drop)]
pub enum ClientName {
    Auth,
    Cancel,
    Begin,
    Data,
    Error,
    Negotiate,
    Unknown,
}

/// The command that a server's line names.
#[derive(Clone, Copy, Drop)]
pub enum ServerName {
    Rejected,
    Ok,
    Data,
    Error,
    Agree,
    Unknown,
}

/// The command of a client that has this name.
fn client_name_of(name: &[u8]) -> ClientName
    ensures { result ≡ client_name name.now }
{
    if name == b"AUTH".as_slice() {
        ClientName::Auth
    } else if name == b"CANCEL".as_slice() {
        ClientName::Cancel
    } else if name == b"BEGIN".as_slice() {
        ClientName::Begin
    } else if name == b"DATA".as_slice() {
        ClientName::Data
    } else if name == b"ERROR".as_slice() {
        ClientName::Error
    } else if name == b"NEGOTIATE_UNIX_FD".as_slice() {
        ClientName::Negotiate
    } else {
        ClientName::Unknown
    }
}

/// The command of a server that has this name.
fn server_name_of(name: &[u8]) -> ServerName
    ensures { result ≡ server_name name.now }
{
    if name == b"REJECTED".as_slice() {
        ServerName::Rejected
    } else if name == b"OK".as_slice() {
        ServerName::Ok
    } else if name == b"DATA".as_slice() {
        ServerName::Data
    } else if name == b"ERROR".as_slice() {
        ServerName::Error
    } else if name == b"AGREE_UNIX_FD".as_slice() {
        ServerName::Agree
    } else {
        ServerName::Unknown
    }
}

/// A line of a client that takes no words.
fn client_alone(line: &[u8], end: usize, said: ClientWords) -> ClientWords
    requires from { end ≤ length line.now }
    requires places { AreClientPlaces line.now end said }
    ensures is { client_found line.now result ≡ alone (client_found line.now said) client.Other (words (drop end line.now)) }
    ensures places { AreClientPlaces line.now end result }
{
    if is_alone(line, end) {
        said
    } else {
        ClientWords::Other
    }
}

/// `AGREE_UNIX_FD`, which takes no words.
fn find_agree(line: &[u8], end: usize) -> ServerWords
    requires { end ≤ length line.now }
    ensures is { server_found line.now result ≡ alone server.Agree server.Other (words (drop end line.now)) }
    ensures places { AreServerPlaces line.now end result }
{
    if is_alone(line, end) {
        ServerWords::Agree
    } else {
        ServerWords::Other
    }
}

/// `AUTH`, by what comes after it.
fn find_auth(line: &[u8], end: usize) -> ClientWords
    requires { end ≤ length line.now }
    ensures is { client_found line.now result ≡ auth_by (words (drop end line.now)) }
    ensures places { AreClientPlaces line.now end result }
{
    let Some(mech) = next_word(line, end) else {
        return ClientWords::Auth;
    };
    match only_word(line, mech.at + mech.length) {
        Some(response) => ClientWords::AuthBy { mech, response },
        None => ClientWords::Other,
    }
}

/// `OK`, by what comes after it.
fn find_accepted(line: &[u8], end: usize) -> ServerWords
    requires { end ≤ length line.now }
    ensures is { server_found line.now result ≡ accepted (words (drop end line.now)) }
    ensures places { AreServerPlaces line.now end result }
{
    match only_word(line, end) {
        Some(digits) if digits.length == 32 => ServerWords::Accepted(digits),
        _ => ServerWords::Other,
    }
}

/// What comes after `ERROR` and one space.
fn error_text(line: &[u8]) -> WordPlace
    ensures is { text_at line.now result ≡ drop 6 line.now }
    ensures place { IsErrorText line.now result }
{
    let at = line.len().min(6);
    WordPlace {
        at,
        length: line.len() - at,
    }
}

/// Whether a text is bytes in hexadecimal.
#[tactic(auto, using(crate::proofs::RoundTrips::hex_digits))]
fn is_hex(text: &[u8]) -> bool
    ensures { result ≡ is_hex text.now }
{
    text.len() % 2 == 0 && are_digits(text)
}

/// Whether all bytes are hexadecimal digits.
fn are_digits(text: &[u8]) -> bool
    ensures { result ≡ list_all is_hex_digit text.now }
{
    text.iter().all(|b| is_digit(*b))
}

/// Whether the byte is a hexadecimal digit, of either case.
fn is_digit(b: u8) -> bool
    ensures { result ≡ is_hex_digit b }
{
    matches!(b, b'0'..=b'9' | b'A'..=b'F' | b'a'..=b'f')
}
