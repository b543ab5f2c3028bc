//! One who looks on at a handshake, as a proxy does, in numbers.
#![tactic(auto)]

ghost use Rattle.std.specs.Prelude.{◌≡◌, ◌≢◌};
ghost use Rattle.dbus_auth.specs.ServerViews.{IsWaiting};
ghost use Rattle.dbus_auth_lines.specs.Cut.{Beginning, BeginsAs};
ghost use Rattle.dbus_watch.specs.WatchViews.{watch_state};
ghost use Rattle.dbus_c.specs.Handshakes.{nothing_told};
ghost use Rattle.dbus_c.specs.Watching.{IsOver, LooksAtClient, LooksAtServer, Starts, passage_number, state_numbered, watch_in};

use crate::answers::{NO_VALUE, REFUSED, WAITS, WHOLE};
use crate::handshake_lines::{
    HandshakeLine, NOWHERE, client_told, line_told, server_told, tell_fault, tell_nothing,
};
use crate::line_command::NUL;
use dbus_auth::ServerState;
use dbus_auth_lines::scanning::{BadLine, first_line};
use dbus_auth_lines::{client_words, is_exact_client_line, is_exact_server_line, server_words};
use dbus_watch::{Passage, Watch, WatchFault};

/// What one knows who looks on at a handshake. Before the first byte all is 0.
#[repr(C)]
#[derive(Drop)]
pub struct HandshakeWatch {
    /// The server's state, as its answers tell it: 0 while it waits for AUTH, 1 for DATA, 2 for
    /// BEGIN; 3 once messages have begun; any other number once something was refused.
    pub server: u32,
    /// How many of the client's lines the server has still to answer.
    pub unanswered: u32,
    /// 0 until the client's byte 0 came.
    pub started: u32,
    /// Which of these is NEGOTIATE_UNIX_FD, the first one if there are several, counted from 1; 0
    /// if none is.
    pub asked: u32,
}

/// Looks at what the bytes of a client begin with, and writes it: the byte 0 before its first line,
/// with a length of 1 and the command [`NUL`], or a line, as [`crate::dbus_wire_client_line`] does.
/// Returns
///
/// - [`WHOLE`] if it is to be passed on: a line that is exact and, if it is BEGIN, that the server
///   waits for. After BEGIN both sides send messages;
/// - [`WAITS`] at BEGIN while the server has lines to answer that came before it. Nothing is
///   changed: look at it again after the next line of the server;
/// - [`crate::PARTIAL`] if more bytes are needed. Nothing is changed;
/// - [`NO_VALUE`] if messages have begun. Nothing is changed;
/// - [`REFUSED`] if it is not to be passed on: a fault of the line, which is told; a line that is
///   not exact; BEGIN although the server has not accepted the client; or a line too many before
///   the server's answers. It returns so from then on, and tells nothing then.
#[unsafe(no_mangle)]
pub extern "C" fn dbus_wire_watch_client(
    watch: &mut HandshakeWatch,
    bytes: &[u8],
    out: &mut HandshakeLine,
) -> u32
    ensures line { IsWaiting (watch_in watch.old).server → watch.old.started ≢ 0 →
        (b : Beginning) → BeginsAs bytes.now b → LooksAtClient b result out.new watch.old watch.new }
    ensures first { IsWaiting (watch_in watch.old).server → watch.old.started ≡ 0 →
        Starts bytes.now result out.new watch.old watch.new }
    ensures over { (IsWaiting (watch_in watch.old).server → ⊥) →
        IsOver result out.new watch.old watch.new }
{
    match state_of(watch.server) {
        ServerState::Begun => tell_over(NO_VALUE, out),
        ServerState::Closed => tell_over(REFUSED, out),
        _ if watch.started == 0 => start(watch, bytes, out),
        _ => look_at_client(watch, bytes, out),
    }
}

/// The same of the bytes of a server, which sends no byte 0. A line that answers none of the client
/// is refused, and one that answers NEGOTIATE_UNIX_FD and is neither AGREE_UNIX_FD nor ERROR.
#[unsafe(no_mangle)]
pub extern "C" fn dbus_wire_watch_server(
    watch: &mut HandshakeWatch,
    bytes: &[u8],
    out: &mut HandshakeLine,
) -> u32
    ensures line { IsWaiting (watch_in watch.old).server → (b : Beginning) → BeginsAs bytes.now b →
        LooksAtServer b result out.new watch.old watch.new }
    ensures over { (IsWaiting (watch_in watch.old).server → ⊥) →
        IsOver result out.new watch.old watch.new }
{
    match state_of(watch.server) {
        ServerState::Begun => tell_over(NO_VALUE, out),
        ServerState::Closed => tell_over(REFUSED, out),
        _ => look_at_server(watch, bytes, out),
    }
}

// A line of the client, while lines are passed.
fn look_at_client(watch: &mut HandshakeWatch, bytes: &[u8], out: &mut HandshakeLine) -> u32
    ensures { (b : Beginning) → BeginsAs bytes.now b →
        LooksAtClient b result out.new watch.old watch.new }
{
    match first_line(bytes) {
        Ok(Some(line)) => {
            *out = client_told(
                line.len() + 2,
                is_exact_client_line(line),
                client_words(line),
            );
            let mut state = state_in(watch);
            let passed = state.pass_client_line(line);
            keep(watch, state);
            number_of(passed)
        }
        Ok(None) => tell_nothing(out),
        Err(fault) => {
            watch.server = 4;
            tell_fault(fault, out)
        }
    }
}

// And one of the server.
fn look_at_server(watch: &mut HandshakeWatch, bytes: &[u8], out: &mut HandshakeLine) -> u32
    ensures { (b : Beginning) → BeginsAs bytes.now b →
        LooksAtServer b result out.new watch.old watch.new }
{
    match first_line(bytes) {
        Ok(Some(line)) => {
            *out = server_told(
                line.len() + 2,
                is_exact_server_line(line),
                server_words(line),
            );
            let mut state = state_in(watch);
            let passed = state.pass_server_line(line);
            keep(watch, state);
            number_of(passed)
        }
        Ok(None) => tell_nothing(out),
        Err(fault) => {
            watch.server = 4;
            tell_fault(fault, out)
        }
    }
}

// The client's byte 0.
fn start(watch: &mut HandshakeWatch, bytes: &[u8], out: &mut HandshakeLine) -> u32
    ensures { Starts bytes.now result out.new watch.old watch.new }
{
    match bytes.first() {
        None => tell_nothing(out),
        Some(0) => {
            watch.started = 1;
            *out = line_told(1, true, NUL, NOWHERE, NOWHERE);
            WHOLE
        }
        Some(_) => {
            watch.server = 4;
            tell_fault(BadLine::BadByte { at: 0 }, out)
        }
    }
}

// Past the handshake nothing is told.
fn tell_over(answer: u32, out: &mut HandshakeLine) -> u32
    ensures told { out.new ≡ nothing_told }
    ensures answer { result ≡ answer }
{
    tell_nothing(out);
    answer
}

// What is known, out of its numbers.
fn state_in(watch: &HandshakeWatch) -> Watch
    ensures { watch_state result ≡ watch_in watch.now }
{
    Watch {
        server: state_of(watch.server),
        unanswered: watch.unanswered,
        asked: watch.asked,
    }
}

// What is known, as numbers.
fn keep(watch: &mut HandshakeWatch, state: Watch)
    ensures known { watch_in watch.new ≡ watch_state state }
    ensures started { watch.new.started ≡ watch.old.started }
{
    watch.server = match state.server {
        ServerState::WaitingForAuth => 0,
        ServerState::WaitingForData => 1,
        ServerState::WaitingForBegin => 2,
        ServerState::Begun => 3,
        ServerState::Closed => 4,
    };
    watch.unanswered = state.unanswered;
    watch.asked = state.asked;
}

// The server's state that has this number.
fn state_of(number: u32) -> ServerState
    ensures { result ≡ state_numbered number }
{
    match number {
        0 => ServerState::WaitingForAuth,
        1 => ServerState::WaitingForData,
        2 => ServerState::WaitingForBegin,
        3 => ServerState::Begun,
        _ => ServerState::Closed,
    }
}

// What becomes of a line, by its number.
fn number_of(passed: Result<Passage, WatchFault>) -> u32
    ensures { result ≡ passage_number passed }
{
    match passed {
        Ok(Passage::Passes | Passage::Begins) => WHOLE,
        Ok(Passage::Waits) => WAITS,
        Err(_) => REFUSED,
    }
}
