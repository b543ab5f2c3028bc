//! What a line means, with its words in memory of their own. D-Bus Specification, "Authentication
//! Protocol", "Protocol Overview" and the sections of each command.

ghost use Rattle.std.specs.Prelude.{◌≡◌, ◌+◌, ◌++◌, Some, None, IfOk, option_map, map, length};
ghost use Rattle.hex.specs.Hex.{decode_of};
ghost use Rattle.dbus_auth_lines.specs.Lines.{command_name, words, by_hex, client_meaning, server_meaning, client_command, server_command};
ghost use Rattle.dbus_auth_lines.specs.LineForms.{MeansToServer, MeansToClient};
ghost use Rattle.dbus_auth_lines.specs.ServerCommands as server;
ghost use Rattle.dbus_auth_lines.specs.WordPlaces.{AreClientPlaces, AreServerPlaces, IsWithin, client_found, server_found, text_at};

use crate::lines::{ClientLine, Guid, ServerLine};
use crate::places::{ClientWords, ServerWords, find_client, find_server};
use crate::words::{WordPlace, next_word, text_at};
use std::alloc::{AllocError, Allocator};

/// What a line of a client means, given without its CR LF.
///
/// The command is what comes before the first space; words follow it, separated by one or more
/// spaces, and spaces at the end do not count. A line with another command, with a word too many or
/// with a word that is no hexadecimal text is `Other`, and never an error. After `ERROR` all bytes
/// after one space are the text, its spaces too.
///
/// Returns `AllocError` if an allocation failed.
#[tactic(auto, using(crate::proofs::Meanings::client_answer_means))]
pub fn read_client<A: Allocator + Copy>(alloc: A, line: &[u8]) -> Result<ClientLine<A>, AllocError>
    ensures row { IfOk result (λ said. MeansToServer line.now (client_command said)) }
    ensures meaning { IfOk result (λ said. client_command said ≡ client_meaning line.now) }
{
    copy_client(alloc, find_client(line), line)
}

/// What a line of a server means, given without its CR LF: as `read_client`, with the server's
/// commands. `OK` takes one word of exactly 32 hexadecimal digits, and `REJECTED` any words.
///
/// Returns `AllocError` if an allocation failed.
#[tactic(auto, using(crate::proofs::Meanings::server_answer_means))]
pub fn read_server<A: Allocator + Copy>(alloc: A, line: &[u8]) -> Result<ServerLine<A>, AllocError>
    ensures row { IfOk result (λ said. MeansToClient line.now (server_command said)) }
    ensures meaning { IfOk result (λ said. server_command said ≡ server_meaning line.now) }
{
    copy_server(alloc, find_server(line), line)
}

/// A client's line, by the places of its words.
fn copy_client<A: Allocator + Copy>(
    alloc: A,
    words: ClientWords,
    line: &[u8],
) -> Result<ClientLine<A>, AllocError>
    requires { AreClientPlaces line.now (length (command_name line.now)) words }
    ensures { IfOk result (λ said. client_command said ≡ client_found line.now words) }
{
    Ok(match words {
        ClientWords::Auth => ClientLine::Auth,
        ClientWords::AuthBy { mech, response } => match read_hex(alloc, line, response)? {
            Some(response) => ClientLine::AuthBy {
                mech: copy_text(alloc, line, mech)?,
                response,
            },
            None => ClientLine::Other,
        },
        ClientWords::Cancel => ClientLine::Cancel,
        ClientWords::Begin => ClientLine::Begin,
        ClientWords::DataOf(digits) => match read_hex(alloc, line, digits)? {
            Some(bytes) => ClientLine::DataOf(bytes),
            None => ClientLine::Other,
        },
        ClientWords::Error(text) => ClientLine::Error(copy_text(alloc, line, text)?),
        ClientWords::Negotiate => ClientLine::Negotiate,
        ClientWords::Other => ClientLine::Other,
    })
}

/// A server's line, by the places of its words.
fn copy_server<A: Allocator + Copy>(
    alloc: A,
    words: ServerWords,
    line: &[u8],
) -> Result<ServerLine<A>, AllocError>
    requires { AreServerPlaces line.now (length (command_name line.now)) words }
    ensures { IfOk result (λ said. server_command said ≡ server_found line.now words) }
{
    Ok(match words {
        ServerWords::Rejected(mechanisms) => {
            ServerLine::Rejected(all_words(alloc, text_at(line, mechanisms))?)
        }
        ServerWords::Accepted(digits) => read_guid(text_at(line, digits)),
        ServerWords::DataOf(digits) => match read_hex(alloc, line, digits)? {
            Some(bytes) => ServerLine::DataOf(bytes),
            None => ServerLine::Other,
        },
        ServerWords::Error(text) => ServerLine::Error(copy_text(alloc, line, text)?),
        ServerWords::Agree => ServerLine::Agree,
        ServerWords::Other => ServerLine::Other,
    })
}

/// The bytes that the word there spells in hexadecimal.
fn read_hex<A: Allocator + Copy>(
    alloc: A,
    line: &[u8],
    word: WordPlace,
) -> Result<Option<Vec<u8, A>>, AllocError>
    requires { IsWithin line.now word }
    ensures { IfOk result (λ r. option_map (λ v. v.items) r ≡
        by_hex Some None (decode_of (text_at line.now word))) }
{
    match hex::decode(alloc, text_at(line, word)) {
        Ok(bytes) => Ok(Some(bytes)),
        Err(hex::FromHexError::OutOfMemory) => Err(AllocError),
        Err(_) => Ok(None),
    }
}

/// A copy of the text there.
fn copy_text<A: Allocator>(alloc: A, line: &[u8], text: WordPlace) -> Result<Vec<u8, A>, AllocError>
    requires { IsWithin line.now text }
    ensures { IfOk result (λ copy. copy.items ≡ text_at line.now text) }
{
    Vec::from_slice(alloc, text_at(line, text))
}

/// The words of a text, each in memory of its own.
fn all_words<A: Allocator + Copy>(alloc: A, text: &[u8]) -> Result<Vec<Vec<u8, A>, A>, AllocError>
    ensures { IfOk result (λ ws. map (λ w. w.items) ws.items ≡ words text.now) }
{
    let mut found = Vec::new(alloc);
    let mut from = 0;
    while let Some(word) = next_word(text, from) {
        found.push(copy_text(alloc, text, word)?)?;
        from = word.at + word.length;
    }
    Ok(found)
}

/// The line OK with a word of 32 bytes: a GUID, if these are hexadecimal digits.
fn read_guid<A: Allocator>(word: &[u8]) -> ServerLine<A>
    requires { length word.now ≡ 32 }
    ensures { server_command result ≡ by_hex server.Accepted server.Other (decode_of word.now) }
{
    match <[u8; 16] as hex::FromHex>::from_hex(word) {
        Ok(bytes) => ServerLine::Accepted(Guid(bytes)),
        Err(_) => ServerLine::Other,
    }
}
