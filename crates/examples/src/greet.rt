//! Reads a message from standard input, and writes a call to its sender to standard output.
//!
//! The call is of `org.example.Greeter.Greet`, on the path that the message was for, with the
//! message's member as its argument, and in the message's byte order. If there is none to be made,
//! standard error says why, and the exit status is 1.

use anyhow::{Result, bail};
use dbus_message::{Answer, Compose, Message, decode, encode};
use dbus_value::Order;
use std::io::{Read, Write};

// Greets the sender of a message that has this byte order.
fn greet(rt: &HostRuntime, order: Order, message: &Message) -> Result<()> {
    let (Some(path), Some(member), Some(sender)) = (
        message.path(),
        message.member(),
        message.sender(),
    ) else {
        bail!("the message has no path, no member or no sender");
    };
    eprintln!(rt; "{sender} called {member} of {path}")?;
    let call = Message::call(rt.alloc(), path, "Greet")
        .interface("org.example.Greeter")
        .destination(sender)
        .text(member)
        .build()?;
    rt.stdout().write_all(&encode(rt.alloc(), &call, order)?)?;
    Ok(())
}

/// Greets the sender of the message on standard input.
pub(crate) fn run(rt: &HostRuntime) -> Result<()> {
    let mut bytes = Vec::new(rt.alloc());
    rt.stdin().read_to_end(&mut bytes)?;
    match decode(rt.alloc(), &bytes)? {
        Answer::Whole { order, message, .. } => greet(rt, order, &message),
        Answer::Partial => bail!("the input ends within a message"),
    }
}
