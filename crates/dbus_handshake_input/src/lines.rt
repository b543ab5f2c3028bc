//! One line of a side.
ghost use Rattle.std.specs.Prelude.{◌≡◌};
ghost use Rattle.dbus_handshake_input.specs.Ahead.{source_of};
ghost use Rattle.dbus_handshake_input.specs.Heard.{HearsLine, ReadsLine, client_says, is_nothing, refusal_of, server_says};
ghost use Rattle.dbus_auth_lines.specs.Lines.{client_command, server_command};
ghost use Rattle.dbus_handshake_input.specs.Passing.{Counts};

use crate::fault::{HandshakeFault, HandshakeReason};
use crate::read_ahead::ReadAhead;
use crate::side::Side;
use crate::visitor::LineVisitor;
use dbus_auth_lines::{ClientLine, LineCutter, LineFault, ServerLine, read_client, read_server};
use dbus_device::{DeviceFault, Source};
use std::alloc::{AllocError, Allocator};

// What a line says of the handshake.
#[derive(Clone, Copy)]
pub(crate) enum Said {
    // It is the client's last one.
    Begin,
    // The handshake goes on, or a server's messages follow, if it accepted.
    GoesOn {
        // Whether the server accepts by it.
        is_ok: bool,
    },
    // It is no command of the side.
    Nothing,
}

impl Said {
    // Whether it is no command of the side.
    fn is_nothing(self) -> bool
        ensures { result ≡ is_nothing self }
    {
        matches!(self, Said::Nothing)
    }
}

// The fault of a line, with its place in the line.
fn fault_of(fault: LineFault) -> HandshakeFault
    ensures { result ≡ refusal_of fault }
{
    match fault {
        LineFault::Memory => HandshakeFault::Memory,
        LineFault::TooLong => HandshakeFault::Refused {
            at: 16_382,
            reason: HandshakeReason::LineTooLong,
        },
        LineFault::BadByte { at } => HandshakeFault::Refused {
            at,
            reason: HandshakeReason::LineByte,
        },
    }
}

// The next line, without its CR LF. Places count from its start.
pub(crate) fn next_line<A: Allocator + Copy, R: Source>(
    alloc: A,
    side: Side,
    input: &mut ReadAhead<R>,
) -> Result<Vec<u8, A>, HandshakeFault>
    ensures reads { ReadsLine R.left R.calls R.packets R.packet side input.old input.new result }
    ensures failed { Counts (R.failures (source_of input.old)) (R.failures (source_of input.new))
        result }
    ensures same_reference { R.reference (source_of input.new) ≡
        R.reference (source_of input.old) }
{
    let mut cutter = LineCutter::new(alloc);
    let mut size = 0;
    'pieces: loop {
        match input.has_more() {
            Ok(true) => {}
            Ok(false) => {
                return Err(HandshakeFault::Refused {
                    at: size,
                    reason: HandshakeReason::Truncated,
                });
            }
            Err(DeviceFault) => return Err(HandshakeFault::Device),
        }
        match cutter.take(input.kept()) {
            Ok((count, Some(line))) => {
                input.pass(count);
                return Ok(line);
            }
            Ok((count, None)) => {
                input.pass(count);
                size += count;
            }
            Err(fault) => return Err(fault_of(fault)),
        }
    }
}

// What a line says, which a visitor hears if it is a command of the side.
#[tactic(auto, using(crate::proofs::LineSteps::client_says_so, crate::proofs::LineSteps::server_says_so, crate::proofs::LineSteps::hears_so))]
pub(crate) fn hear_line<A: Allocator + Copy, V: LineVisitor>(
    alloc: A,
    side: Side,
    offset: usize,
    line: &[u8],
    visitor: &mut V,
) -> Result<Said, AllocError>
    ensures { HearsLine V.hears side offset line.now visitor.old visitor.new result }
{
    match side {
        Side::Client => {
            let read = read_client(alloc, line)?;
            let said = client_said(&read);
            if said.is_nothing() {
                return Ok(said);
            }
            visitor.client_line(offset, line, &read);
            Ok(said)
        }
        Side::Server => {
            let read = read_server(alloc, line)?;
            let said = server_said(&read);
            if said.is_nothing() {
                return Ok(said);
            }
            visitor.server_line(offset, line, &read);
            Ok(said)
        }
    }
}

// What a line of a client says.
fn client_said<A: Allocator>(line: &ClientLine<A>) -> Said
    ensures { result ≡ client_says (client_command line.now) }
{
    match line {
        ClientLine::Begin => Said::Begin,
        ClientLine::Other => Said::Nothing,
        ClientLine::Auth
        | ClientLine::AuthBy { .. }
        | ClientLine::Cancel
        | ClientLine::DataOf(_)
        | ClientLine::Error(_)
        | ClientLine::Negotiate => Said::GoesOn { is_ok: false },
    }
}

// What a line of a server says.
fn server_said<A: Allocator>(line: &ServerLine<A>) -> Said
    ensures { result ≡ server_says (server_command line.now) }
{
    match line {
        ServerLine::Accepted(_) => Said::GoesOn { is_ok: true },
        ServerLine::Other => Said::Nothing,
        ServerLine::Rejected(_)
        | ServerLine::DataOf(_)
        | ServerLine::Error(_)
        | ServerLine::Agree => Said::GoesOn { is_ok: false },
    }
}
