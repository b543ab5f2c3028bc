//! An end of the authentication handshake that C keeps from call to call.
#![tactic(auto)]

ghost use Rattle.std.specs.Prelude.{◌≡◌, None};
ghost use Rattle.dbus_c.specs.Handshakes.{IsBoundTold, IsEndMade, TellsGuidText, TellsStep, agreed_told, fault_number, made_told, number_of, step_told};
ghost use Rattle.dbus_c_auth.specs.Handshakes.{client_made, server_made};
ghost use Rattle.dbus_c_handle.specs.Checkers.{handshake_of};

use crate::answers::{NO_HANDSHAKE, NO_MEMORY, NO_ROOM, NO_VALUE, PARTIAL, REFUSED, WHOLE};
use dbus_auth::{Bounds, Status};
use dbus_c_auth::{Mechanisms, Step, TakeFault, write_guid};
use dbus_c_handle::WireHandle;
use std::alloc::{AllocError, Global};

/// What a call did with its piece and its room.
#[repr(C)]
#[derive(Drop)]
pub struct HandshakeStep {
    /// The number of bytes of the piece that were taken. Pass the others again.
    pub count: u64,
    /// The number of bytes that were written: send them to the peer.
    pub reply: u64,
}

/// Makes the end of a server that offers these mechanisms, with the GUID that a text of 32
/// hexadecimal digits spells: [`WHOLE`]. Else there is none: [`REFUSED`] if the text is another
/// one, [`NO_MEMORY`] if memory runs out. What the handle kept is not freed.
///
/// **The user in `mechanisms` has to be the one that the transport reports.** D-Bus Specification,
/// "Authentication Protocol".
#[unsafe(no_mangle)]
pub extern "C" fn dbus_wire_server_new(
    alloc: Global,
    guid: &[u8],
    mechanisms: &Mechanisms,
    handshake: &mut WireHandle,
) -> u32
    ensures { IsEndMade (server_made guid.now mechanisms.now) result handshake.new.state }
{
    made_told(handshake.make_server(alloc, guid, mechanisms))
}

/// Makes the end of a client that asks for these mechanisms, EXTERNAL first, with this trace of
/// ANONYMOUS: [`WHOLE`]. Else there is none: [`REFUSED`] if the trace has over 255 bytes,
/// [`NO_MEMORY`] if memory runs out. What the handle kept is not freed. D-Bus Specification,
/// "Authentication Protocol".
#[unsafe(no_mangle)]
pub extern "C" fn dbus_wire_client_new(
    alloc: Global,
    mechanisms: &Mechanisms,
    trace: &[u8],
    handshake: &mut WireHandle,
) -> u32
    ensures { IsEndMade (client_made mechanisms.now trace.now) result handshake.new.state }
{
    made_told(handshake.make_client(alloc, mechanisms, trace))
}

/// Passes the end a piece of what its peer sent. The end takes at most one line of it, and writes
/// what it sends to the start of `reply`.
///
/// [`PARTIAL`] while the handshake goes on, [`WHOLE`] once it succeeded, [`REFUSED`] once it
/// failed; from then on nothing is taken and nothing sent, so what follows `BEGIN`, or the line of
/// `OK`, is left. The first call on a client takes nothing and writes the byte 0 and its first
/// line. [`NO_ROOM`] if `reply` has less room than [`dbus_c_auth::REPLY_ROOM`], [`NO_MEMORY`] if
/// memory runs out, [`NO_HANDSHAKE`] if there is no end: then nothing is changed or written. D-Bus
/// Specification, "Authentication Protocol".
#[unsafe(no_mangle)]
pub extern "C" fn dbus_wire_handshake_take(
    handshake: &mut WireHandle,
    piece: &[u8],
    reply: &mut [u8],
    out: &mut HandshakeStep,
) -> u32
    ensures { TellsStep handshake.old.state handshake.new.state piece.now reply.old reply.new result out.old
        out.new }
{
    match handshake.go_on(piece, reply) {
        None => NO_HANDSHAKE,
        Some(Err(fault)) => fault_number(fault),
        Some(Ok(step)) => {
            *out = step_told(step);
            number_of(step.status)
        }
    }
}

/// Bounds what the end sends from here on: at most this many lines of REJECTED, and this many that
/// leave it in its state, which are ERROR and AGREE_UNIX_FD. At the line that it would answer by
/// one more, it fails, takes nothing and sends nothing. [`WHOLE`], or [`NO_HANDSHAKE`] if there is
/// no end. D-Bus Specification, "Server states".
#[unsafe(no_mangle)]
pub extern "C" fn dbus_wire_handshake_bound(
    handshake: &mut WireHandle,
    rejections: u32,
    errors: u32,
) -> u32
    ensures { IsBoundTold (record { rejections = rejections; errors = errors })
        (handshake_of handshake.old.state) handshake.old.state handshake.new.state result }
{
    if handshake.set_bounds(Bounds { rejections, errors }) {
        WHOLE
    } else {
        NO_HANDSHAKE
    }
}

/// Writes the GUID of the server that accepted the client, as 32 hexadecimal digits in lower case,
/// to the start of `out`: [`WHOLE`]. Else `out` stays as it is: [`NO_VALUE`] if none did or the end
/// is a server's, [`NO_ROOM`] if there is room for fewer, [`NO_HANDSHAKE`] if there is no end.
/// D-Bus Specification, "OK Command".
#[unsafe(no_mangle)]
pub extern "C" fn dbus_wire_handshake_guid(handshake: &mut WireHandle, out: &mut [u8]) -> u32
    ensures same { handshake.new.state ≡ handshake.old.state }
    ensures told { TellsGuidText (handshake_of handshake.old.state) result out.old out.new }
{
    match handshake.guid() {
        None => NO_HANDSHAKE,
        Some(None) => NO_VALUE,
        Some(Some(guid)) => {
            if write_guid(guid, out) {
                WHOLE
            } else {
                NO_ROOM
            }
        }
    }
}

/// [`WHOLE`] if both ends agreed to pass Unix file descriptors, so that messages may come with some
/// from then on; [`NO_VALUE`] if not, or not yet; [`NO_HANDSHAKE`] if there is no end. D-Bus
/// Specification, "NEGOTIATE_UNIX_FD Command", "AGREE_UNIX_FD Command".
#[unsafe(no_mangle)]
pub extern "C" fn dbus_wire_handshake_agreed(handshake: &mut WireHandle) -> u32
    ensures same { handshake.new.state ≡ handshake.old.state }
    ensures told { result ≡ agreed_told (handshake_of handshake.old.state) }
{
    match handshake.agreed() {
        None => NO_HANDSHAKE,
        Some(true) => WHOLE,
        Some(false) => NO_VALUE,
    }
}

/// Frees the end, if there is one: from then on there is none.
#[unsafe(no_mangle)]
pub extern "C" fn dbus_wire_handshake_free(alloc: Global, handshake: &mut WireHandle)
    ensures { handshake.new.state ≡ None }
{
    handshake.free(alloc);
}

// The number of an answer to the making of an end.
fn made_told(made: Result<bool, AllocError>) -> u32
    ensures { result ≡ made_told made }
{
    match made {
        Ok(true) => WHOLE,
        Ok(false) => REFUSED,
        Err(_) => NO_MEMORY,
    }
}

// The number of what an end answers.
fn number_of(status: Status) -> u32
    ensures { result ≡ number_of status }
{
    match status {
        Status::Talking => PARTIAL,
        Status::Begun => WHOLE,
        Status::Closed => REFUSED,
    }
}

// The number of why nothing was done.
fn fault_number(fault: TakeFault) -> u32
    ensures { result ≡ fault_number fault }
{
    match fault {
        TakeFault::Memory => NO_MEMORY,
        TakeFault::Room => NO_ROOM,
    }
}

// What is told of a step.
fn step_told(step: Step) -> HandshakeStep
    ensures { result ≡ step_told step }
{
    HandshakeStep {
        count: step.count as u64,
        reply: step.written as u64,
    }
}
