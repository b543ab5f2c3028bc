//! The state machines over lines, without an end of a connection.

ghost use Rattle.std.specs.Prelude.{◌≡◌};
ghost use Rattle.dbus_auth.specs.ClientViews.{client_machine};
ghost use Rattle.dbus_auth.specs.declared.states.ClientState.TheVariants as now;

use crate::setups::{client_of, server_of};
use case_questions::{Memory, Question, Reply, bytes_of};
use dbus_auth::{Client, ClientAct, ClientState, Server, ServerAct, ServerState};
use dbus_auth_lines::{client_text, read_client, read_server, server_text};
use dbus_handshake_input::Side;
use std::alloc::{AllocError, Allocator};

trait Machine<A: Allocator + Copy> {
    // Adds what it does on a line, and nothing if it hears no more.
    fn hear(&mut self, reply: &mut Reply, memory: Memory<A>, line: &[u8]) -> Result<(), AllocError>;
}

impl<A: Allocator + Copy> Machine<A> for Server {
    fn hear(
        &mut self,
        reply: &mut Reply,
        memory: Memory<A>,
        line: &[u8],
    ) -> Result<(), AllocError> {
        let line = read_client(memory.spare, line)?;
        let act = match self.state() {
            ServerState::Begun | ServerState::Closed => return Ok(()),
            ServerState::WaitingForAuth
            | ServerState::WaitingForData
            | ServerState::WaitingForBegin => self.receive(memory.heap, line)?,
        };
        match act {
            ServerAct::Send(line) => reply.made(server_text(memory.spare, &line)),
            ServerAct::Begin => reply.word("begin"),
            ServerAct::Disconnect => reply.word("disconnect"),
        }
        Ok(())
    }
}

// What a client does.
fn say_act<A: Allocator + Copy>(reply: &mut Reply, spare: A, act: &ClientAct<A>) {
    match act {
        ClientAct::Send(line) => reply.made(client_text(spare, line)),
        ClientAct::Begin => reply.word("begin"),
        ClientAct::Disconnect => reply.word("disconnect"),
    }
}

impl<A: Allocator + Copy> Machine<A> for Client<A> {
    fn hear(
        &mut self,
        reply: &mut Reply,
        memory: Memory<A>,
        line: &[u8],
    ) -> Result<(), AllocError> {
        let line = read_server(memory.spare, line)?;
        let act = match self.state() {
            ClientState::Fresh | ClientState::Begun | ClientState::Closed => return Ok(()),
            ClientState::WaitingForData
            | ClientState::WaitingForOk
            | ClientState::WaitingForAgree
            | ClientState::WaitingForReject => self.receive(memory.heap, line)?,
        };
        say_act(reply, memory.spare, &act);
        Ok(())
    }
}

// Adds what a machine does on the lines of `lines=`, in hexadecimal digits with a comma between any
// two. A call that was refused memory is made again.
fn hear_lines<A: Allocator + Copy, M: Machine<A>>(
    reply: &mut Reply,
    memory: Memory<A>,
    question: Question<'_>,
    machine: &mut M,
) {
    let Some(lines) = question.setting("lines") else {
        return;
    };
    for digits in lines.split(',') {
        let line = bytes_of(memory.spare, digits);
        if machine.hear(reply, memory, &line).is_err()
            && machine.hear(reply, memory, &line).is_err()
        {
            reply.fail();
        }
    }
}

// Adds whether both ends agreed to pass descriptors, if they did.
fn say_agreed(reply: &mut Reply, agreed: bool) {
    if agreed {
        reply.word("agreed");
    }
}

// What a server does on lines, its state then, and whether it agreed.
fn say_server<A: Allocator + Copy>(
    reply: &mut Reply,
    memory: Memory<A>,
    question: Question<'_>,
    server: &mut Server,
) {
    hear_lines(reply, memory, question, server);
    reply.variant(&server.state());
    say_agreed(reply, server.agreed());
}

// What a client that has not started does as it starts and on lines, its state then, the GUID that
// it has, and whether it agreed. A call that was refused memory is made again.
fn say_client<A: Allocator + Copy>(
    reply: &mut Reply,
    memory: Memory<A>,
    question: Question<'_>,
    client: &mut Client<A>,
) -> Option<()>
    requires { (client_machine client.old).state ≡ now.Fresh }
{
    let act = match client.start(memory.heap) {
        Ok(act) => act,
        Err(AllocError) => client.start(memory.heap).ok()?,
    };
    say_act(reply, memory.spare, &act);
    hear_lines(reply, memory, question, client);
    reply.variant(&client.state());
    reply.found(client.guid());
    say_agreed(reply, client.agreed());
    Some(())
}

/// Adds what the machine of a side does as it starts and on lines, its state then, the GUID that a
/// client has, and whether both agreed.
pub(crate) fn say_machine<A: Allocator + Copy>(
    reply: &mut Reply,
    memory: Memory<A>,
    question: Question<'_>,
    side: Side,
) -> Option<()> {
    match side {
        Side::Server => {
            let mut server = server_of(memory.spare, question)?;
            say_server(reply, memory, question, &mut server);
            Some(())
        }
        Side::Client => {
            let mut client = client_of(memory.spare, question)?;
            say_client(reply, memory, question, &mut client)
        }
    }
}
