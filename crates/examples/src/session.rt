//! A session with a message bus, as bytes that come and bytes that are to be sent.

ghost use Rattle.std.specs.Prelude.{◌≡◌, true};
ghost use Rattle.dbus_auth.specs.EndViews.{client_end_state};

use anyhow::{Result, bail};
use dbus_auth::{Client, ClientEnd, Mechanism, Status};
use dbus_message::{Compose, Message, encode, field, field_code};
use dbus_stream::Cutter;
use dbus_value::{Order, Value};
use std::alloc::Global;

// The serials of the calls.
const HELLO: u32 = 1;

const LIST_NAMES: u32 = 2;

/// A session with a message bus: the handshake, and the messages after it.
#[derive(Drop)]
pub(crate) struct Session {
    alloc: Global,
    end: ClientEnd,
    // The handshake succeeded, so that messages come.
    begun: bool,
    cutter: Cutter,
    ghost started: { (client_end_state end).started ≡ true },
}

impl Session {
    /// A session that begins, with the first bytes that are to be sent, which are appended.
    pub(crate) fn start(
        alloc: Global,
        mechanisms: Vec<Mechanism>,
        send: &mut Vec<u8>,
    ) -> Result<Self> {
        let Ok(client) = Client::new(mechanisms) else {
            bail!("a mechanism's trace has over 255 bytes");
        };
        let mut end = ClientEnd::new(alloc, client);
        send.extend_from_slice(&end.start()?)?;
        Ok(Session {
            alloc,
            end,
            begun: false,
            cutter: Cutter::new(alloc),
        })
    }

    /// Takes the bytes of the piece, and appends those that are to be sent. If the reply to
    /// `ListNames` is among them, it gives that, and the session is over.
    ///
    /// A line or a message may end anywhere in a piece. So one call of an end or of a cutter takes
    /// at most one of them, and says how many bytes it took: the others are handed in again.
    pub(crate) fn take(&mut self, piece: &[u8], send: &mut Vec<u8>) -> Result<Option<Message>> {
        let mut rest = piece;
        // Each round takes a byte at least.
        for _ in 0..piece.len() {
            if rest.is_empty() {
                break;
            }
            let taken = if self.begun {
                let (taken, reply) = self.take_message(rest, send)?;
                if reply.is_some() {
                    return Ok(reply);
                }
                taken
            } else {
                self.take_line(rest, send)?
            };
            rest = rest.get(taken..).unwrap_or(&[]);
        }
        Ok(None)
    }

    // Takes at most one line of the handshake, after whose last line `Hello` is called, and says
    // how many bytes that were.
    fn take_line(&mut self, bytes: &[u8], send: &mut Vec<u8>) -> Result<usize> {
        let step = self.end.take(bytes)?;
        send.extend_from_slice(&step.send)?;
        match step.status {
            Status::Talking => {}
            Status::Begun => {
                self.begun = true;
                self.append_call(HELLO, "Hello", send)?;
            }
            Status::Closed => bail!("the handshake failed"),
        }
        Ok(step.taken)
    }

    // Takes at most one message, and says how many bytes that were. It gives the message if it is
    // the reply to `ListNames`.
    fn take_message(
        &mut self,
        bytes: &[u8],
        send: &mut Vec<u8>,
    ) -> Result<(usize, Option<Message>)> {
        let (taken, given) = self.cutter.take(bytes)?;
        match given {
            Some((_, message)) if self.is_last(&message, send)? => Ok((taken, Some(message))),
            _ => Ok((taken, None)),
        }
    }

    // Whether a message is the reply to `ListNames`, which is called after the reply to `Hello`.
    // Others, as the signal that the client has a name, are ignored.
    fn is_last(&self, message: &Message, send: &mut Vec<u8>) -> Result<bool> {
        let call = call_of(message)?;
        if call == Some(HELLO) {
            self.append_call(LIST_NAMES, "ListNames", send)?;
        }
        Ok(call == Some(LIST_NAMES))
    }

    // Appends a call of a method of the bus, which takes nothing. D-Bus Specification, "Message Bus
    // Messages".
    fn append_call(&self, serial: u32, member: &str, send: &mut Vec<u8>) -> Result<()> {
        let message = Message::call(self.alloc, "/org/freedesktop/DBus", member)
            .interface("org.freedesktop.DBus")
            .destination("org.freedesktop.DBus")
            .serial(serial)
            .build()?;
        send.extend_from_slice(&encode(self.alloc, &message, Order::Little)?)?;
        Ok(())
    }
}

// The serial of the call that the message replies to, if it is a reply. The fault is that it
// replies by an error.
fn call_of(message: &Message) -> Result<Option<u32>> {
    let Some(Value::U32(serial)) = field(message, field_code::REPLY_SERIAL) else {
        return Ok(None);
    };
    match field(message, field_code::ERROR_NAME) {
        Some(Value::Str(name)) => bail!("the bus replied by the error {name}"),
        _ => Ok(Some(*serial)),
    }
}
