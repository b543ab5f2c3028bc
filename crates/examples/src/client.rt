//! A client of a message bus, whose connection to it is standard input and output.
//!
//! It does the client's side of the handshake, calls `Hello` and then `ListNames`, reports on
//! standard error the name that it got and the names that are on the bus, and ends.
//!
//! It authenticates by EXTERNAL, and by ANONYMOUS if the bus rejects that. It comes as the user
//! that is given, or else as the one that the transport reports. If an answer did not come,
//! standard error says why, and the exit status is 1.

use crate::session::Session;
use anyhow::{Result, bail};
use dbus_auth::Mechanism;
use dbus_message::{Message, arg, field, field_code};
use dbus_value::Value;
use std::alloc::Global;
use std::io::{Read, Write};

// The mechanisms that are tried, for this user.
fn mechanisms(alloc: Global, user: Option<u32>) -> Result<Vec<Mechanism>> {
    let trace = Vec::from_slice(alloc, b"example")?;
    Ok(vec![in alloc; Mechanism::External(user), Mechanism::Anonymous(trace)]?)
}

fn send(rt: &HostRuntime, bytes: &[u8]) -> Result<()> {
    rt.stdout().write_all(bytes)?;
    rt.stdout().flush()?;
    Ok(())
}

// Reports what the reply to `ListNames` says.
fn tell(rt: &HostRuntime, reply: &Message) -> Result<()> {
    if let Some(Value::Str(name)) = field(reply, field_code::DESTINATION) {
        eprintln!(rt; "the bus calls this client {name}; on the bus are:")?;
    }
    let Some(Value::Array(_, names)) = arg(reply, 0) else {
        bail!("the bus replied without a list");
    };
    for name in names {
        if let Value::Str(name) = name {
            eprintln!(rt; "{name}")?;
        }
    }
    Ok(())
}

// Hands on what comes until the reply to `ListNames` has come.
fn reply(rt: &HostRuntime, session: &mut Session, bytes: &mut Vec<u8>) -> Result<Message> {
    let mut buffer = [0; 4096];
    for _ in 0..u64::MAX {
        let count = rt.stdin().read(&mut buffer)?;
        if count == 0 {
            break;
        }
        bytes.clear();
        let reply = session.take(&buffer[..count], bytes)?;
        send(rt, bytes)?;
        if let Some(reply) = reply {
            return Ok(reply);
        }
    }
    bail!("the bus left before it answered")
}

/// Lists the names on the bus on standard input and output, for this user.
pub(crate) fn run(rt: &HostRuntime, user: Option<u32>) -> Result<()> {
    let alloc = rt.alloc();
    let mut bytes = Vec::new(alloc);
    let mut session = Session::start(alloc, mechanisms(alloc, user)?, &mut bytes)?;
    send(rt, &bytes)?;
    tell(rt, &reply(rt, &mut session, &mut bytes)?)
}
