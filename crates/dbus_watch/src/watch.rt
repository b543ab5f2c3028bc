//! One who looks on at a handshake, as a proxy does: which lines it passes, and when messages
//! begin.

ghost use Rattle.std.specs.Prelude.{◌≡◌, ◌==◌, false, ℕ, List, MatchBool};
ghost use Rattle.dbus_auth_lines.specs.ServerCommands.{ServerCommand};
ghost use Rattle.dbus_auth_lines.specs.Lines.{client_meaning, server_meaning};
ghost use Rattle.dbus_auth_lines.specs.WrittenLines.{IsExactClientLine, IsExactServerLine};
ghost use Rattle.dbus_auth_lines.specs.WordPlaces.{SaysToClient};
ghost use Rattle.dbus_watch.specs.Watches.{answered, answers, asks, at_first, begins, passed_to_client, passed_to_server, refused, refuses, settles};

use dbus_auth::ServerState;
use dbus_auth_lines::{
    ClientWords, ServerWords, client_words, is_exact_client_line, is_exact_server_line,
    server_words,
};
use thiserror::Error;

/// What becomes of a line that is not refused.
#[derive(Clone, Copy, PartialEq, Eq, Debug, Drop)]
pub enum Passage {
    /// It is passed on.
    Passes,
    /// It is BEGIN, and is passed on. What both sides send after it are messages.
    Begins,
    /// It is BEGIN, and the server has still to answer lines that came before it. Nothing is
    /// changed: pass lines of the server, and then this one again.
    Waits,
}

/// Why a line is not passed.
#[derive(Clone, Copy, PartialEq, Eq, Debug, Drop, Error)]
pub enum WatchFault {
    /// The line is not exact, as `is_exact_client_line` says, so readers may differ in what they
    /// make of it.
    #[error("the line is not as the library writes it")]
    Inexact,
    /// It is BEGIN, and the server has not accepted the client.
    #[error("BEGIN came before the server accepted the client")]
    NotAccepted,
    /// A line of the server came that answers none of the client.
    #[error("the server sent a line that answers none")]
    Unasked,
    /// A line of the server came that answers NEGOTIATE_UNIX_FD, and is neither AGREE_UNIX_FD nor
    /// ERROR. A client ends the handshake there.
    #[error("the server answered NEGOTIATE_UNIX_FD by neither AGREE_UNIX_FD nor ERROR")]
    NotSettled,
    /// The server has 4,294,967,295 lines of the client to answer.
    #[error("the client sent too many lines before it was answered")]
    TooMany,
    /// No more lines are passed: messages have begun, or a line was refused. Nothing is changed.
    #[error("no more lines are passed")]
    Over,
}

/// What one knows who looks on at a handshake: the server's state, as its answers tell it, and how
/// many of the client's lines it has still to answer. A server answers each line of the client by
/// one line, but for BEGIN.
///
/// It passes exact lines alone, and BEGIN once the server has answered all that came before it, and
/// has accepted the client. So each server begins messages where the watch says so, also one that
/// makes more or less of other lines than the specification does: [`crate::laws::watch_law`].
///
/// The byte 0 that a client sends before its first line is none of its lines. D-Bus Specification,
/// "Authentication Protocol", "Authentication state diagrams".
#[derive(Clone, Copy, PartialEq, Eq, Debug, Drop)]
pub struct Watch {
    /// The server's state, as its answers tell it: `Begun` if messages have begun, and `Closed` if
    /// a line was refused.
    pub server: ServerState,
    /// How many of the client's lines the server has still to answer.
    pub unanswered: u32,
    /// Which of these is NEGOTIATE_UNIX_FD, the first one if there are several, counted from 1; 0 if
    /// none is.
    pub asked: u32,
}

impl Watch {
    ghost use Rattle.dbus_auth.specs.ServerViews.{IsWaiting};
    ghost use Rattle.dbus_watch.specs.WatchViews.{DidPass, watch_state};

    /// A watch that has seen no line.
    pub fn new() -> Self
        ensures { watch_state result ≡ at_first }
    {
        Watch {
            server: ServerState::WaitingForAuth,
            unanswered: 0,
            asked: 0,
        }
    }

    /// Looks at a line of the client, given without its CR LF, and says whether to pass it on.
    ///
    /// Returns `Over` if no more lines are passed, and else `Inexact` of a line that is not exact,
    /// `NotAccepted` and `TooMany` as [`WatchFault`] says. After a fault no line is passed.
    pub fn pass_client_line(&mut self, line: &[u8]) -> Result<Passage, WatchFault>
        ensures exact { IsExactClientLine line.now →
            DidPass result (watch_state self.new)
            (passed_to_server (watch_state self.old) (client_meaning line.now)) }
        ensures inexact { (IsExactClientLine line.now → ⊥) →
            DidPass result (watch_state self.new)
            (refused (watch_state self.old)) }
    {
        if !self.is_talking() {
            return Err(WatchFault::Over);
        }
        if !is_exact_client_line(line) {
            return self.refuse(WatchFault::Inexact);
        }
        match client_words(line) {
            ClientWords::Begin => self.begin(),
            ClientWords::Negotiate => self.ask(true),
            _ => self.ask(false),
        }
    }

    /// The same of a line of the server.
    ///
    /// Returns `Over` if no more lines are passed, and else `Inexact` of a line that is not exact,
    /// `Unasked` of one that answers none, and `NotSettled` as [`WatchFault`] says. After a fault no
    /// line is passed.
    pub fn pass_server_line(&mut self, line: &[u8]) -> Result<Passage, WatchFault>
        ensures exact { IsExactServerLine line.now →
            DidPass result (watch_state self.new)
            (passed_to_client (watch_state self.old) (server_meaning line.now)) }
        ensures inexact { (IsExactServerLine line.now → ⊥) →
            DidPass result (watch_state self.new)
            (refused (watch_state self.old)) }
    {
        if !self.is_talking() {
            return Err(WatchFault::Over);
        }
        if !is_exact_server_line(line) {
            return self.refuse(WatchFault::Inexact);
        }
        if self.unanswered == 0 {
            return self.refuse(WatchFault::Unasked);
        }
        self.answer(server_words(line))
    }

    /// Whether lines are passed.
    fn is_talking(&self) -> bool
        ensures { MatchBool result (IsWaiting self.now.server) (IsWaiting self.now.server → ⊥) }
    {
        match self.server {
            ServerState::WaitingForAuth
            | ServerState::WaitingForData
            | ServerState::WaitingForBegin => true,
            ServerState::Begun | ServerState::Closed => false,
        }
    }

    /// No line is passed from here on.
    fn refuse(&mut self, fault: WatchFault) -> Result<Passage, WatchFault>
        ensures { DidPass result (watch_state self.new) (refuses (watch_state self.old) fault) }
    {
        self.server = ServerState::Closed;
        Err(fault)
    }

    /// BEGIN, while lines are passed.
    fn begin(&mut self) -> Result<Passage, WatchFault>
        ensures { DidPass result (watch_state self.new) (begins (watch_state self.old)) }
    {
        if self.unanswered > 0 {
            return Ok(Passage::Waits);
        }
        match self.server {
            ServerState::WaitingForBegin => {
                self.server = ServerState::Begun;
                Ok(Passage::Begins)
            }
            _ => self.refuse(WatchFault::NotAccepted),
        }
    }

    /// Another line of the client, which asks for descriptors or not, while lines are passed.
    fn ask(&mut self, descriptors: bool) -> Result<Passage, WatchFault>
        ensures { DidPass result (watch_state self.new) (asks (watch_state self.old) descriptors) }
    {
        if self.unanswered == u32::MAX {
            return self.refuse(WatchFault::TooMany);
        }
        self.unanswered += 1;
        if descriptors && self.asked == 0 {
            self.asked = self.unanswered;
        }
        Ok(Passage::Passes)
    }

    /// An answer of the server, while lines are passed, to one that it has still to answer.
    fn answer(&mut self, said: ServerWords) -> Result<Passage, WatchFault>
        requires { (self.old.unanswered == 0) ≡ false }
        ensures { (line : List ℕ) (c : ServerCommand) → SaysToClient line said c →
            DidPass result (watch_state self.new) (answers (watch_state self.old) c) }
    {
        if self.asked == 1 && !settles(said) {
            return self.refuse(WatchFault::NotSettled);
        }
        self.unanswered -= 1;
        self.asked = self.asked.saturating_sub(1);
        self.server = answered(said, self.server);
        Ok(Passage::Passes)
    }
}

/// Whether a line may answer NEGOTIATE_UNIX_FD.
fn settles(said: ServerWords) -> bool
    ensures { (line : List ℕ) (c : ServerCommand) → SaysToClient line said c → result ≡ settles c }
{
    matches!(said, ServerWords::Agree | ServerWords::Error(_))
}

/// The state in which an answer leaves the server.
fn answered(said: ServerWords, state: ServerState) -> ServerState
    ensures { (line : List ℕ) (c : ServerCommand) → SaysToClient line said c →
        result ≡ answered c state }
{
    match said {
        ServerWords::Rejected(_) => ServerState::WaitingForAuth,
        ServerWords::Accepted(_) => ServerState::WaitingForBegin,
        ServerWords::DataOf(_) => ServerState::WaitingForData,
        ServerWords::Error(_) | ServerWords::Agree | ServerWords::Other => state,
    }
}
