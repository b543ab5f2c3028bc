//! The server's end of a connection: its state machine over bytes that come in pieces.

ghost use Rattle.std.specs.Prelude.{◌≡◌, IfOk, OnErr};
ghost use Rattle.dbus_auth.specs.Bounded.{within};
ghost use Rattle.dbus_auth.specs.Ends.{counts_as, server_counts, server_sends, server_takes, server_turn, status_after};
ghost use Rattle.dbus_auth.specs.EndStepViews.{DidStep, IsReply};
ghost use Rattle.dbus_auth.specs.Machines.{ServerMachine};
ghost use Rattle.dbus_auth.specs.ServerViews.{server_action, server_at, server_machine};
ghost use Rattle.dbus_auth_lines.specs.Lines.{server_command};

use crate::bounds::{Bounds, Counted};
use crate::end::{End, Machine, Reply};
use crate::end_step::{EndStep, Status};
use crate::server::{Server, ServerAct, ServerStage};
use dbus_auth_lines::writing::server_bytes;
use dbus_auth_lines::{ServerLine, read_client};
use std::alloc::{AllocError, Allocator, Global};

impl<A: Allocator + Copy> Machine<A> for Server {
    ghost State = { ServerMachine };

    ghost shown = { server_machine };

    ghost shown_as = { server_at };

    ghost turn = { server_turn };

    type Next = ServerStage;

    fn answer(&self, alloc: A, line: &[u8]) -> Result<(Reply<A>, ServerStage), AllocError> {
        let said = read_client(alloc, line)?;
        let (act, next) = self.step(alloc, &said)?;
        Ok((reply_to(alloc, &act)?, next))
    }

    fn go_on(&mut self, next: ServerStage) {
        self.go_to(next);
    }
}

/// What an act sends, and the status of the end after it.
fn reply_to<A: Allocator + Copy>(alloc: A, act: &ServerAct<A>) -> Result<Reply<A>, AllocError>
    ensures { IfOk result (λ r.
        IsReply r (server_sends (server_action act.now))
        (counts_as server_counts (server_action act.now)) (status_after (server_action act.now))) }
{
    let (send, counts, status) = match act {
        ServerAct::Send(line) => (server_bytes(alloc, line)?, counted(line), Status::Talking),
        ServerAct::Begin => (Vec::new(alloc), Counted::Step, Status::Begun),
        ServerAct::Disconnect => (Vec::new(alloc), Counted::Step, Status::Closed),
    };
    Ok(Reply {
        send,
        counts,
        status,
    })
}

/// What a line counts as.
fn counted<A: Allocator>(line: &ServerLine<A>) -> Counted
    ensures { result ≡ server_counts (server_command line.now) }
{
    match line {
        ServerLine::Rejected(_) => Counted::Rejection,
        ServerLine::Error(_) | ServerLine::Agree => Counted::Stay,
        ServerLine::Accepted(_) | ServerLine::DataOf(_) | ServerLine::Other => Counted::Step,
    }
}

/// The server's end of a connection. It keeps the bytes of an unfinished line, at most 16,383.
#[derive(Drop)]
pub struct ServerEnd<A: Allocator = Global> {
    end: End<Server, A>,
}

impl<A: Allocator + Copy> ServerEnd<A> {
    ghost use Rattle.dbus_auth.specs.EndViews.{server_end_state};
    ghost use Rattle.dbus_auth.specs.World.{server_at_first};
    ghost use Rattle.dbus_auth.specs.declared.states.ServerState.TheVariants as at;

    /// The end of a server in its first state. It allocates nothing yet.
    pub fn new(alloc: A, server: Server) -> Self
        requires { (server_machine server).state ≡ at.WaitingForAuth }
        ensures { server_end_state result ≡ server_at_first (server_machine server) }
    {
        ServerEnd {
            end: End::new(alloc, server),
        }
    }

    /// Bounds what the end sends, from here on: how often it rejects a client, and how many lines
    /// leave it in its state. Past that it closes, as [`Bounds`] says. A server for anybody needs
    /// bounds: [`crate::laws::bounds_law`] says how many lines it sends then.
    pub fn set_bounds(&mut self, bounds: Bounds)
        ensures { server_end_state self.new ≡ within bounds (server_end_state self.old) }
    {
        self.end.set_bounds(bounds);
    }

    /// Takes at most one line of the piece, with the byte 0 before the first line, and answers it.
    /// If the piece holds more, pass the rest again.
    ///
    /// A first byte other than 0 and a line with a fault close the end: nothing is taken and
    /// nothing sent. An end that has begun or is closed takes and sends nothing, so nothing after
    /// BEGIN is taken.
    ///
    /// Returns `AllocError` if an allocation failed. The end is unchanged then: pass the same piece
    /// again.
    ///
    /// ```rust
    /// use dbus_auth::{Guid, Server, ServerEnd, Status};
    /// use std::io::Write;
    ///
    /// let mut end = ServerEnd::new(alloc, Server::new(Guid([7; 16]), Some(1000), false));
    /// // What a client of user 1000 sends, and then its first message.
    /// let mut rest = b"\0AUTH EXTERNAL 31303030\r\nBEGIN\r\nl\x01".as_slice();
    /// for _ in 0..rest.len() {
    ///     let step = end.take(rest)?;
    ///     rt.stdout().write_all(&step.send)?;
    ///     rest = rest.get(step.taken..).unwrap_or(&[]);
    ///     if step.status != Status::Talking {
    ///         break;
    ///     }
    /// }
    /// ```
    pub fn take(&mut self, piece: &[u8]) -> Result<EndStep<A>, AllocError>
        ensures step { IfOk result (λ s.
            DidStep s (server_end_state self.new)
            (server_takes (server_end_state self.old) piece.now)) }
        ensures err { OnErr result (server_end_state self.new ≡ server_end_state self.old) }
    {
        self.end.take(piece)
    }

    /// Whether both ends agreed to pass Unix file descriptors: see [`Server::agreed`].
    ///
    /// ```rust
    /// use dbus_auth::{Guid, Server, ServerEnd};
    /// use std::io::Write;
    ///
    /// let server = Server::new(Guid([7; 16]), Some(1000), false).with_descriptors(true);
    /// let mut end = ServerEnd::new(alloc, server);
    /// let mut rest = b"\0AUTH EXTERNAL 31303030\r\nNEGOTIATE_UNIX_FD\r\n".as_slice();
    /// for _ in 0..2 {
    ///     let step = end.take(rest)?;
    ///     rt.stdout().write_all(&step.send)?;
    ///     rest = rest.get(step.taken..).unwrap_or(&[]);
    /// }
    /// println!(rt; "{}", end.agreed())?;
    /// ```
    pub fn agreed(&self) -> bool
        ensures { result ≡ (server_end_state self.now).machine.agreed }
    {
        self.end.machine.agreed()
    }
}
