//! A connection to one client, as bytes that come and bytes that are to be sent.

use crate::replies::reply;
use anyhow::{Result, bail, ensure};
use dbus_auth::{Bounds, Guid, Server, ServerEnd, Status};
use dbus_message::{Message, encode, flag, message_type};
use dbus_stream::Cutter;
use dbus_value::Order;
use std::alloc::Global;

// The server's GUID. A server that listens makes one of its own as it starts.
const GUID: Guid = Guid([
    1, 35, 69, 103, 137, 171, 205, 239, 1, 35, 69, 103, 137, 171, 205, 239,
]);

/// A connection to one client: the handshake, and the messages after it.
#[derive(Drop)]
pub(crate) struct Connection {
    alloc: Global,
    end: ServerEnd,
    // The handshake succeeded, so that messages come.
    begun: bool,
    cutter: Cutter,
    // How many replies were sent.
    replies: u32,
}

impl Connection {
    /// A connection on which nothing came yet. EXTERNAL is offered if there is a user, and
    /// otherwise ANONYMOUS. A client is rejected six times at most.
    pub(crate) fn new(alloc: Global, user: Option<u32>) -> Self {
        let mut end = ServerEnd::new(alloc, Server::new(GUID, user, user.is_none()));
        end.set_bounds(Bounds {
            rejections: 6,
            errors: 6,
        });
        Connection {
            alloc,
            end,
            begun: false,
            cutter: Cutter::new(alloc),
            replies: 0,
        }
    }

    /// Takes all bytes of the piece, and appends those that are to be sent.
    ///
    /// A line or a message may end anywhere in a piece. So one call of an end or of a cutter takes
    /// at most one of them, and says how many bytes it took: the others are handed in again. The
    /// last lines of the handshake and the first messages may come in one piece, and an end takes
    /// nothing after the handshake.
    pub(crate) fn take(&mut self, piece: &[u8], send: &mut Vec<u8>) -> Result<()> {
        let mut rest = piece;
        // Each round takes a byte at least.
        for _ in 0..piece.len() {
            if rest.is_empty() {
                break;
            }
            let taken = if self.begun {
                self.take_message(rest, send)?
            } else {
                self.take_line(rest, send)?
            };
            rest = rest.get(taken..).unwrap_or(&[]);
        }
        Ok(())
    }

    // Takes at most one line of the handshake, and says how many bytes that were.
    fn take_line(&mut self, bytes: &[u8], send: &mut Vec<u8>) -> Result<usize> {
        let step = self.end.take(bytes)?;
        send.extend_from_slice(&step.send)?;
        match step.status {
            Status::Talking => {}
            Status::Begun => self.begun = true,
            Status::Closed => bail!("the handshake failed"),
        }
        Ok(step.taken)
    }

    // Takes at most one message, and says how many bytes that were.
    fn take_message(&mut self, bytes: &[u8], send: &mut Vec<u8>) -> Result<usize> {
        let (taken, given) = self.cutter.take(bytes)?;
        if let Some((order, message)) = given {
            self.answer(order, &message, send)?;
        }
        Ok(taken)
    }

    // Appends the reply to a message, if it is a call whose caller wants one.
    fn answer(&mut self, order: Order, message: &Message, send: &mut Vec<u8>) -> Result<()> {
        let parts = message.parts();
        if parts.kind != message_type::METHOD_CALL || parts.flags & flag::NO_REPLY_EXPECTED != 0 {
            return Ok(());
        }
        // A serial is not 0.
        self.replies = self.replies.checked_add(1).unwrap_or(1);
        let reply = reply(self.alloc, message, self.replies)?;
        send.extend_from_slice(&encode(self.alloc, &reply, order)?)?;
        Ok(())
    }

    /// That the client left after the handshake and between two messages.
    pub(crate) fn finish(&self) -> Result<()> {
        ensure!(self.begun, "the client left within the handshake");
        self.cutter.finish()?;
        Ok(())
    }
}
