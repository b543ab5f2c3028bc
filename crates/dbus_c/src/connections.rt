//! One side of a connection that C keeps from call to call: the handshake, and then messages.
#![tactic(auto)]

ghost use Rattle.std.specs.Prelude.{◌≡◌, None, MatchOption, option_map};
ghost use Rattle.dbus_c_handle.specs.Checkers.{handshake_of};
ghost use Rattle.dbus_c_handle.specs.Connections.{start_of};
ghost use Rattle.dbus_c.specs.Connections.{IsConnectionMade, TellsCall, TellsCame, TellsDescriptor, TellsGivenUp, TellsSent, TellsSerial, came_told, connected_told, destination_given, guid_told, settings_given, taken_told};
ghost use Rattle.dbus_c.specs.Rules.{IsOwner};

use crate::answers::{NO_CONNECTION, NO_HANDSHAKE, NO_MEMORY, NO_ROOM, NO_VALUE, REFUSED, WHOLE};
use crate::connection_event as event;
use crate::given_limits::{WireLimits, at_most, given_limits};
use crate::reasons::{field_named, reason_number};
use crate::rules::bus_name;
use dbus_auth_lines::Guid;
use dbus_c_connection::{KeptStep, NoCall, What};
use dbus_c_handle::WireHandle;
use dbus_connection::Settings;
use std::alloc::{AllocError, Global};

/// What came of some bytes. Fields that do not apply are 0.
#[repr(C)]
#[derive(Drop)]
pub struct ConnectionStep {
    /// The number of bytes that were taken. Pass the others again.
    pub count: u64,
    /// Of [`event::WANTS`]: nothing comes before so many bytes are at hand. Of a
    /// message, and of [`event::PASSED`]: how many bytes it has.
    pub wanted: u64,
    /// Of a message that answers a call: the number that the call was given.
    pub call: u64,
    /// Of [`event::NO_MESSAGE`]: the fault's offset, in bytes from the first that was not taken.
    pub offset: u64,
    /// What came, as [`event`] has it.
    pub event: u32,
    /// Of a message: 1 if it answers a call.
    pub is_reply: u32,
    /// Of a message: how many of the Unix file descriptors that came are its own: the first of those
    /// that no message has.
    pub unix_fds: u32,
    /// Of [`event::BEGUN`]: 1 if both ends agreed to pass Unix file descriptors.
    pub descriptors: u32,
    /// Of [`event::NO_MESSAGE`]: the number of the fault's reason.
    pub reason: u32,
    /// Of [`event::NO_MESSAGE`]: the code of the header field that is missing, if that is the reason.
    pub field: u32,
    /// Of [`event::PASSED`]: the message's serial.
    pub serial: u32,
    /// Of [`event::PASSED`]: its type.
    pub kind: u16,
    /// Of [`event::PASSED`]: its flags.
    pub flags: u16,
    /// Of [`event::BEGUN`] at a client: the server's GUID.
    pub guid: [u8; 16],
}

/// Makes the side of a connection of an end that has not started, which `handshake` then keeps no
/// more, for messages within these limits, and so many calls that may wait, at most 65,535:
/// [`WHOLE`]. A message of more than `longest` bytes is passed over; from the limits' message on
/// that has no effect. Else there is no side: [`NO_HANDSHAKE`] if there is no end or a client's has
/// started, [`NO_MEMORY`] if memory runs out. What `connection` kept is not freed. D-Bus
/// Specification, "Authentication Protocol".
#[unsafe(no_mangle)]
pub extern "C" fn dbus_wire_connection_new(
    alloc: Global,
    handshake: &mut WireHandle,
    limits: &WireLimits,
    longest: u32,
    calls: u32,
    connection: &mut WireHandle,
) -> u32
    ensures taken { handshake.new.state ≡ None }
    ensures made { IsConnectionMade (start_of (handshake_of handshake.old.state))
        (settings_given limits.now longest calls) result connection.new.state }
{
    let settings = settings_given(limits, longest, calls);
    connected_told(connection.make_connection(alloc, handshake, settings))
}

/// Hands the connection what came: the bytes that it has not taken, and those after them. `out` has
/// what came of them, one thing a call: [`WHOLE`]. While there are bytes to send, it takes nothing.
/// [`NO_MEMORY`] if memory runs out, [`NO_CONNECTION`] if there is no connection: then nothing is
/// changed or written. D-Bus Specification, "Authentication Protocol" and "Message Protocol".
#[unsafe(no_mangle)]
pub extern "C" fn dbus_wire_connection_take(
    connection: &mut WireHandle,
    bytes: &[u8],
    out: &mut ConnectionStep,
) -> u32
    ensures { TellsCame connection.old.state connection.new.state bytes.now result out.old out.new }
{
    match connection.take_bytes(bytes) {
        None => NO_CONNECTION,
        Some(Err(_)) => NO_MEMORY,
        Some(Ok(came)) => {
            *out = came_told(came);
            WHOLE
        }
    }
}

/// Tells the connection that a Unix file descriptor came with a read, before which so many bytes
/// were at hand that are not taken: [`WHOLE`]. Tell each before the bytes of its read. It goes to a
/// message of which [`ConnectionStep::unix_fds`] counts it, in order. [`REFUSED`] if more than
/// [`dbus_c_connection::MOST_DESCRIPTORS`] would wait, or if no message has any from now on: one was
/// passed over that may have had some, they were not agreed on, or one was refused before.
/// [`NO_CONNECTION`] if there is no connection. D-Bus Specification, "Header Fields" (UNIX_FDS).
#[unsafe(no_mangle)]
pub extern "C" fn dbus_wire_connection_descriptor(connection: &mut WireHandle, at_hand: u64) -> u32
    ensures { TellsDescriptor at_hand connection.old.state connection.new.state result }
{
    match connection.keep_descriptor(at_hand) {
        None => NO_CONNECTION,
        Some(false) => REFUSED,
        Some(true) => WHOLE,
    }
}

/// Writes the bytes that the connection has to send to the start of `out`: [`WHOLE`]. Then it has
/// none to send. [`NO_ROOM`] if there is room for fewer: then nothing is changed. In both cases
/// `count` is their number. [`NO_CONNECTION`] if there is no connection; then nothing is written.
#[unsafe(no_mangle)]
pub extern "C" fn dbus_wire_connection_unsent(
    connection: &mut WireHandle,
    out: &mut [u8],
    count: &mut u64,
) -> u32
    ensures { TellsSent connection.old.state connection.new.state out.old out.new result count.old count.new }
{
    let room = out.len();
    match connection.send(out) {
        None => NO_CONNECTION,
        Some(number) => {
            *count = number as u64;
            if number <= room { WHOLE } else { NO_ROOM }
        }
    }
}

/// Writes the serial of a message that is sent now and waits for no reply: [`WHOLE`]. It is never 0,
/// nor that of a call that waits. [`NO_CONNECTION`] if there is no connection. D-Bus Specification,
/// "Message Format" (the serial).
#[unsafe(no_mangle)]
pub extern "C" fn dbus_wire_connection_serial(connection: &mut WireHandle, serial: &mut u32) -> u32
    ensures { TellsSerial connection.old.state connection.new.state result serial.old serial.new }
{
    match connection.serial() {
        None => NO_CONNECTION,
        Some(number) => {
            *serial = number;
            WHOLE
        }
    }
}

/// The same of a call of a method, to this name or, if that is empty, to none, which waits for its
/// reply from now on: [`WHOLE`]. `call` is what is told of the reply. Else nothing is changed:
/// [`REFUSED`] if the name is neither a bus name nor empty, [`NO_ROOM`] if as many calls wait as
/// may, [`NO_MEMORY`] if memory runs out, [`NO_CONNECTION`] if there is no connection. D-Bus
/// Specification, "Message Types" ("Method Calls").
#[unsafe(no_mangle)]
pub extern "C" fn dbus_wire_connection_call(
    alloc: Global,
    connection: &mut WireHandle,
    destination: &[u8],
    call: u64,
    serial: &mut u32,
) -> u32
    ensures { TellsCall destination.now call connection.old.state connection.new.state result serial.old
        serial.new }
{
    let Some(destination) = destination_given(destination) else {
        return REFUSED;
    };
    match connection.call(alloc, destination, call) {
        None => NO_CONNECTION,
        Some(Err(NoCall::Full)) => NO_ROOM,
        Some(Err(NoCall::Memory)) => NO_MEMORY,
        Some(Ok(number)) => {
            *serial = number;
            WHOLE
        }
    }
}

/// Gives up the call of this serial, which waits no longer, and writes what it was given: [`WHOLE`].
/// [`NO_VALUE`] if no call waits with it, [`NO_CONNECTION`] if there is no connection: then nothing
/// is written.
#[unsafe(no_mangle)]
pub extern "C" fn dbus_wire_connection_give_up(
    connection: &mut WireHandle,
    serial: u32,
    call: &mut u64,
) -> u32
    ensures { TellsGivenUp serial connection.old.state connection.new.state result call.old call.new }
{
    match connection.give_up(serial) {
        None => NO_CONNECTION,
        Some(None) => NO_VALUE,
        Some(Some(number)) => {
            *call = number;
            WHOLE
        }
    }
}

/// Frees the connection, if there is one: from then on there is none.
#[unsafe(no_mangle)]
pub extern "C" fn dbus_wire_connection_free(alloc: Global, connection: &mut WireHandle)
    ensures { connection.new.state ≡ None }
{
    connection.free(alloc);
}

// The settings that numbers stand for.
fn settings_given(limits: &WireLimits, longest: u32, calls: u32) -> Settings
    ensures { result ≡ settings_given limits.now longest calls }
{
    Settings {
        limits: given_limits(limits),
        longest,
        calls: at_most(calls, 65_535) as u16,
    }
}

// The number of an answer to the making of a connection.
fn connected_told(made: Result<bool, AllocError>) -> u32
    ensures { result ≡ connected_told made }
{
    match made {
        Ok(true) => WHOLE,
        Ok(false) => NO_HANDSHAKE,
        Err(_) => NO_MEMORY,
    }
}

// The name that is given, or none; `None` of a text that is neither a bus name nor empty.
fn destination_given(text: &[u8]) -> Option<Option<&str>>
    ensures { MatchOption result (IsOwner text.now → ⊥) (λ name. IsOwner text.now ×
        (option_map (λ d. d.now) name ≡ destination_given text.now)) }
{
    if text.is_empty() {
        return Some(None);
    }
    Some(Some(bus_name(text)?))
}

// What is told of what came.
fn came_told(came: KeptStep) -> ConnectionStep
    ensures { result ≡ came_told came }
{
    let taken = taken_told(came.taken as u64);
    match came.what {
        What::Wants(wanted) => ConnectionStep { wanted, ..taken },
        What::Unsent => ConnectionStep {
            event: event::UNSENT,
            ..taken
        },
        What::Begun { guid, agreed } => ConnectionStep {
            event: event::BEGUN,
            descriptors: u32::from(agreed),
            guid: guid_told(guid),
            ..taken
        },
        What::Message { length, fds, call } => ConnectionStep {
            event: event::MESSAGE,
            wanted: length as u64,
            unix_fds: fds,
            is_reply: u32::from(call.is_some()),
            call: call.unwrap_or(0),
            ..taken
        },
        What::Refused(fault) => ConnectionStep {
            event: event::NO_MESSAGE,
            offset: fault.at,
            reason: reason_number(fault.reason),
            field: field_named(fault.reason),
            ..taken
        },
        What::Passed(passed) => ConnectionStep {
            event: event::PASSED,
            wanted: passed.length,
            serial: passed.header.serial,
            kind: u16::from(passed.header.kind),
            flags: u16::from(passed.header.flags),
            ..taken
        },
        What::TooFew => ConnectionStep {
            event: event::TOO_FEW,
            ..taken
        },
        What::Failed => ConnectionStep {
            event: event::FAILED,
            ..taken
        },
        What::Over => ConnectionStep {
            event: event::OVER,
            ..taken
        },
    }
}

// What is told of bytes of which so many were taken, and nothing came.
fn taken_told(count: u64) -> ConnectionStep
    ensures { result ≡ taken_told count }
{
    ConnectionStep {
        count,
        wanted: 0,
        call: 0,
        offset: 0,
        event: event::WANTS,
        is_reply: 0,
        unix_fds: 0,
        descriptors: 0,
        reason: 0,
        field: 0,
        serial: 0,
        kind: 0,
        flags: 0,
        guid: [0; 16],
    }
}

// The bytes of a GUID, or zeros.
fn guid_told(guid: Option<Guid>) -> [u8; 16]
    ensures { result ≡ guid_told guid }
{
    match guid {
        Some(guid) => {
            let Guid(bytes) = guid;
            bytes
        }
        None => [0; 16],
    }
}
