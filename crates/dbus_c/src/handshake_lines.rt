//! One line of a handshake, in numbers, for who looks on.
#![tactic(auto)]

ghost use Rattle.std.specs.Prelude.{◌≡◌};
ghost use Rattle.dbus_auth_lines.specs.CutterViews.{fault_of};
ghost use Rattle.dbus_auth_lines.specs.Cut.{Beginning, BeginsAs};
ghost use Rattle.dbus_c.specs.Handshakes.{HasClientLine, HasServerLine, TellsLine, client_told, fault_told, line_told, nothing_told, place_told, server_told};

use crate::answers::{PARTIAL, REFUSED, WHOLE};
use crate::line_command::{
    AGREE_UNIX_FD, AUTH, BEGIN, CANCEL, DATA, ERROR, NEGOTIATE_UNIX_FD, OK, OTHER, REJECTED,
};
use crate::parts::TextPlace;
use dbus_auth_lines::scanning::{BadLine, first_line};
use dbus_auth_lines::{
    ClientWords, ServerWords, WordPlace, client_words, is_exact_client_line, is_exact_server_line,
    server_words,
};

// No text.
pub(crate) const NOWHERE: WordPlace = WordPlace { at: 0, length: 0 };

/// A line of a handshake. Fields that do not apply are 0. D-Bus Specification, "Authentication
/// Protocol".
#[repr(C)]
#[derive(Drop)]
pub struct HandshakeLine {
    /// Of a line: the number of bytes that it has, its CR LF included.
    pub length: u64,
    /// Of bytes that are refused and not too long: the offset of the first one that a line may not
    /// have there.
    pub offset: u64,
    /// Of a line: the number of its command, as [`crate::line_command`] has it.
    pub command: u32,
    /// 1 if the line has more than 16,384 bytes; else 0.
    pub is_too_long: u16,
    /// 1 if there is a line and it is exact: its bytes are those that an end of this library writes
    /// for what it says; else 0.
    pub is_exact: u16,
    /// The mechanism of `AUTH`.
    pub mechanism: TextPlace,
    /// The hexadecimal digits of the response of `AUTH`, of `DATA` or of the GUID of `OK`; the text
    /// of `ERROR`; the mechanisms of `REJECTED`, from the first one up to the line's end, with the
    /// spaces after the last one.
    pub text: TextPlace,
}

/// Writes the line of a client that the bytes begin with, and returns [`WHOLE`]. If they begin with
/// none, returns [`PARTIAL`] if more bytes may make one, and [`REFUSED`] with the first fault if
/// not. It allocates nothing.
///
/// The byte 0 that a client sends before its first line is none of it. D-Bus Specification,
/// "Authentication Protocol".
///
/// Readers differ in what they make of a line that is not exact: to some, `BEGIN` and a space is
/// not BEGIN, and they read on.
#[unsafe(no_mangle)]
pub extern "C" fn dbus_wire_client_line(bytes: &[u8], out: &mut HandshakeLine) -> u32
    ensures { (b : Beginning) → BeginsAs bytes.now b → TellsLine HasClientLine b result out.new }
{
    match first_line(bytes) {
        Ok(Some(line)) => {
            *out = client_told(
                line.len() + 2,
                is_exact_client_line(line),
                client_words(line),
            );
            WHOLE
        }
        Ok(None) => tell_nothing(out),
        Err(fault) => tell_fault(fault, out),
    }
}

/// As [`dbus_wire_client_line`], of a line of a server.
#[unsafe(no_mangle)]
pub extern "C" fn dbus_wire_server_line(bytes: &[u8], out: &mut HandshakeLine) -> u32
    ensures { (b : Beginning) → BeginsAs bytes.now b → TellsLine HasServerLine b result out.new }
{
    match first_line(bytes) {
        Ok(Some(line)) => {
            *out = server_told(
                line.len() + 2,
                is_exact_server_line(line),
                server_words(line),
            );
            WHOLE
        }
        Ok(None) => tell_nothing(out),
        Err(fault) => tell_fault(fault, out),
    }
}

// What is told of a client's line of this length.
pub(crate) fn client_told(length: usize, exact: bool, words: ClientWords) -> HandshakeLine
    ensures { result ≡ client_told length exact words }
{
    match words {
        ClientWords::Auth => line_told(length, exact, AUTH, NOWHERE, NOWHERE),
        ClientWords::AuthBy { mech, response } => line_told(length, exact, AUTH, mech, response),
        ClientWords::Cancel => line_told(length, exact, CANCEL, NOWHERE, NOWHERE),
        ClientWords::Begin => line_told(length, exact, BEGIN, NOWHERE, NOWHERE),
        ClientWords::DataOf(digits) => line_told(length, exact, DATA, NOWHERE, digits),
        ClientWords::Error(text) => line_told(length, exact, ERROR, NOWHERE, text),
        ClientWords::Negotiate => line_told(length, exact, NEGOTIATE_UNIX_FD, NOWHERE, NOWHERE),
        ClientWords::Other => line_told(length, exact, OTHER, NOWHERE, NOWHERE),
    }
}

// And of a server's.
pub(crate) fn server_told(length: usize, exact: bool, words: ServerWords) -> HandshakeLine
    ensures { result ≡ server_told length exact words }
{
    match words {
        ServerWords::Rejected(mechanisms) => line_told(
            length, exact, REJECTED, NOWHERE, mechanisms,
        ),
        ServerWords::Accepted(digits) => line_told(length, exact, OK, NOWHERE, digits),
        ServerWords::DataOf(digits) => line_told(length, exact, DATA, NOWHERE, digits),
        ServerWords::Error(text) => line_told(length, exact, ERROR, NOWHERE, text),
        ServerWords::Agree => line_told(length, exact, AGREE_UNIX_FD, NOWHERE, NOWHERE),
        ServerWords::Other => line_told(length, exact, OTHER, NOWHERE, NOWHERE),
    }
}

// A line of a handshake as C is told it.
pub(crate) fn line_told(
    length: usize,
    exact: bool,
    command: u32,
    mechanism: WordPlace,
    text: WordPlace,
) -> HandshakeLine
    ensures { result ≡ line_told length exact command mechanism text }
{
    HandshakeLine {
        length: length as u64,
        offset: 0,
        command,
        is_too_long: 0,
        is_exact: if exact { 1 } else { 0 },
        mechanism: place_told(mechanism),
        text: place_told(text),
    }
}

// Where a text stands; there is none if it has no bytes.
fn place_told(place: WordPlace) -> TextPlace
    ensures { result ≡ place_told place }
{
    if place.length == 0 {
        return TextPlace {
            offset: 0,
            length: 0,
            is_there: 0,
        };
    }
    TextPlace {
        offset: place.at as u64,
        length: place.length as u64,
        is_there: 1,
    }
}

// More bytes are wanted.
pub(crate) fn tell_nothing(out: &mut HandshakeLine) -> u32
    ensures told { out.new ≡ nothing_told }
    ensures answer { result ≡ PARTIAL }
{
    *out = line_told(0, false, OTHER, NOWHERE, NOWHERE);
    PARTIAL
}

// The bytes are at fault.
pub(crate) fn tell_fault(fault: BadLine, out: &mut HandshakeLine) -> u32
    ensures told { out.new ≡ fault_told (fault_of fault) }
    ensures answer { result ≡ REFUSED }
{
    *out = line_told(0, false, OTHER, NOWHERE, NOWHERE);
    match fault {
        BadLine::TooLong => out.is_too_long = 1,
        BadLine::BadByte { at } => out.offset = at as u64,
    }
    REFUSED
}
