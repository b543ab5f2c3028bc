//! The client's end of a connection: its state machine over bytes that come in pieces.

ghost use Rattle.std.specs.Prelude.{◌≡◌, ◌++◌, true, false, IfOk, OnOk, OnErr, option_map};
ghost use Rattle.dbus_auth.specs.Bounded.{within};
ghost use Rattle.dbus_auth.specs.ClientViews.{client_action, client_at, client_machine};
ghost use Rattle.dbus_auth.specs.Ends.{client_counts, client_greets, client_sends, client_starts, client_takes, client_turn, counts_as, status_after};
ghost use Rattle.dbus_auth_lines.specs.Lines.{client_command};
ghost use Rattle.dbus_auth.specs.EndStepViews.{DidStep, IsReply};
ghost use Rattle.dbus_auth.specs.Machines.{ClientMachine};

use crate::bounds::{Bounds, Counted};
use crate::client::{Client, ClientAct, ClientStage, ClientTurn};
use crate::end::{End, Machine, Reply};
use crate::end_step::{EndStep, Status};
use dbus_auth_lines::writing::client_bytes;
use dbus_auth_lines::{ClientLine, Guid, read_server};
use std::alloc::{AllocError, Allocator, Global};

impl<A: Allocator + Copy> Machine<A> for Client<A> {
    ghost State = { ClientMachine };

    ghost shown = { client_machine };

    ghost shown_as = { λ c next. client_at c next.0 next.1 };

    ghost turn = { client_turn };

    type Next = (ClientStage, usize);

    fn answer(
        &self,
        alloc: A,
        line: &[u8],
    ) -> Result<(Reply<A>, (ClientStage, usize)), AllocError> {
        let said = read_server(alloc, line)?;
        let ClientTurn { act, stage, tried } = self.step(alloc, &said)?;
        Ok((reply_to(alloc, &act)?, (stage, tried)))
    }

    fn go_on(&mut self, next: (ClientStage, usize)) {
        self.go_to(next.0, next.1);
    }
}

/// What an act sends, and the status of the end after it.
fn reply_to<A: Allocator + Copy>(alloc: A, act: &ClientAct<A>) -> Result<Reply<A>, AllocError>
    ensures { IfOk result (λ r.
        IsReply r (client_sends (client_action act.now))
        (counts_as client_counts (client_action act.now)) (status_after (client_action act.now))) }
{
    let (send, counts, status) = match act {
        ClientAct::Send(line) => (client_bytes(alloc, line)?, counted(line), Status::Talking),
        ClientAct::Begin => {
            let begin = client_bytes(alloc, &ClientLine::Begin)?;
            (begin, Counted::Step, Status::Begun)
        }
        ClientAct::Disconnect => (Vec::new(alloc), Counted::Step, Status::Closed),
    };
    Ok(Reply {
        send,
        counts,
        status,
    })
}

/// What a line counts as.
fn counted<A: Allocator>(line: &ClientLine<A>) -> Counted
    ensures { result ≡ client_counts (client_command line.now) }
{
    match line {
        ClientLine::Error(_) => Counted::Stay,
        ClientLine::Auth
        | ClientLine::AuthBy { .. }
        | ClientLine::Cancel
        | ClientLine::Begin
        | ClientLine::DataOf(_)
        | ClientLine::Negotiate
        | ClientLine::Other => Counted::Step,
    }
}

/// The same of the first act, with the byte 0.
fn greeted_by<A: Allocator + Copy>(
    alloc: A,
    act: &ClientAct<A>,
) -> Result<(Vec<u8, A>, Status), AllocError>
    ensures { IfOk result (λ r.
        (r.0.items ≡ client_greets (client_action act.now)) ×
        (r.1 ≡ status_after (client_action act.now))) }
{
    let mut send = Vec::new(alloc);
    let status = match act {
        ClientAct::Send(line) => {
            send.push(0)?;
            send.extend_from_slice(&client_bytes(alloc, line)?)?;
            Status::Talking
        }
        ClientAct::Begin => Status::Begun,
        ClientAct::Disconnect => Status::Closed,
    };
    Ok((send, status))
}

/// The client's end of a connection. It keeps the bytes of an unfinished line, at most 16,383.
#[derive(Drop)]
pub struct ClientEnd<A: Allocator = Global> {
    end: End<Client<A>, A>,
}

impl<A: Allocator + Copy> ClientEnd<A> {
    ghost use Rattle.dbus_auth.specs.EndViews.{client_end_state};
    ghost use Rattle.dbus_auth.specs.World.{client_at_first};
    ghost use Rattle.dbus_auth.specs.declared.states.ClientState.TheVariants as now;

    /// The end of a client that has not started. It allocates nothing yet.
    pub fn new(alloc: A, client: Client<A>) -> Self
        requires { (client_machine client).state ≡ now.Fresh }
        ensures { client_end_state result ≡ client_at_first (client_machine client) }
    {
        ClientEnd {
            end: End::new(alloc, client),
        }
    }

    /// Bounds what the end sends, from here on: how many lines leave it in its state. Past that it
    /// closes, as [`Bounds`] says. [`crate::laws::bounds_law`] says how many lines it sends then.
    pub fn set_bounds(&mut self, bounds: Bounds)
        ensures bounded { client_end_state self.new ≡ within bounds (client_end_state self.old) }
        ensures started { (client_end_state self.new).started ≡ (client_end_state self.old).started }
    {
        self.end.set_bounds(bounds);
    }

    /// The first bytes to be sent: the byte 0 and the line that asks for the first mechanism. If
    /// there is no mechanism, no bytes, and the end is closed. The end must not have started.
    ///
    /// Returns `AllocError` if an allocation failed. The end is unchanged then: start it again.
    #[tactic(auto, unfolding(crate::specs::Ends::client_starts))]
    pub fn start(&mut self) -> Result<Vec<u8, A>, AllocError>
        requires { (client_end_state self.old).started ≡ false }
        ensures send { IfOk result (λ send. send.items ≡
            (client_starts (client_end_state self.old)).send) }
        ensures after { OnOk result
            (client_end_state self.new ≡ (client_starts (client_end_state self.old)).after) }
        ensures started { OnOk result ((client_end_state self.new).started ≡ true) }
        ensures err { OnErr result (client_end_state self.new ≡ client_end_state self.old) }
    {
        let ClientTurn { act, stage, tried } = self.end.machine.next_mechanism(self.end.alloc)?;
        let (send, status) = greeted_by(self.end.alloc, &act)?;
        self.end.machine.go_to(stage, tried);
        self.end.started = true;
        self.end.status = status;
        Ok(send)
    }

    /// Takes at most one line of the piece, and answers it. If the piece holds more, pass the rest
    /// again. The end must have started.
    ///
    /// A line with a fault closes the end: nothing is taken and nothing sent. An end that has begun
    /// or is closed takes and sends nothing, so nothing after the line that it answers by BEGIN is
    /// taken.
    ///
    /// Returns `AllocError` if an allocation failed. The end is unchanged then: pass the same piece
    /// again.
    ///
    /// ```rust
    /// use dbus_auth::{Client, ClientEnd, Mechanism, Status};
    /// use std::io::Write;
    ///
    /// if let Ok(client) = Client::new(vec![in alloc; Mechanism::External(Some(1000))]?) {
    ///     let mut end = ClientEnd::new(alloc, client);
    ///     rt.stdout().write_all(&end.start()?)?;
    ///     let step = end.take(b"OK 0123456789abcdef0123456789abcdef\r\n")?;
    ///     rt.stdout().write_all(&step.send)?;
    ///     println!(rt; "{}", step.status == Status::Begun)?;
    /// }
    /// ```
    pub fn take(&mut self, piece: &[u8]) -> Result<EndStep<A>, AllocError>
        requires { (client_end_state self.old).started ≡ true }
        ensures step { IfOk result (λ s.
            DidStep s (client_end_state self.new)
            (client_takes (client_end_state self.old) piece.now)) }
        ensures started { (client_end_state self.new).started ≡ true }
        ensures err { OnErr result (client_end_state self.new ≡ client_end_state self.old) }
    {
        self.end.take(piece)
    }

    /// The GUID of the server, once it has accepted the client.
    pub fn guid(&self) -> Option<Guid>
        ensures { option_map (λ g. g.0) result ≡ (client_end_state self.now).machine.guid }
    {
        self.end.machine.guid()
    }

    /// Whether both ends agreed to pass Unix file descriptors, once the client has begun: see
    /// [`Client::agreed`].
    pub fn agreed(&self) -> bool
        ensures { result ≡ (client_end_state self.now).machine.agreed }
    {
        self.end.machine.agreed()
    }
}
