//! A D-Bus peer whose connection to its one client is standard input and output.
//!
//! It does the server's side of the handshake and then answers calls, in the byte order of each:
//! `Hello` as a message bus does, `Ping`, `Introspect`, its own method `org.example.Greeter.Greet`,
//! and any other by the error `UnknownMethod`.
//!
//! The user is the client's, as the transport reports it: the client has to authenticate as that
//! user, by EXTERNAL. Without one anybody may come, by ANONYMOUS. If the client left between two
//! messages, the exit status is 0; if it did not, or sent what is no handshake or no message,
//! standard error says so, and it is 1.
use crate::connection::Connection;
use anyhow::Result;
use std::io::{Read, Write};

/// Serves the client on standard input and output, who comes as this user.
pub(crate) fn run(rt: &HostRuntime, user: Option<u32>) -> Result<()> {
    let alloc = rt.alloc();
    let mut connection = Connection::new(alloc, user);
    let mut buffer = [0; 4096];
    for _ in 0..u64::MAX {
        let count = rt.stdin().read(&mut buffer)?;
        if count == 0 {
            break;
        }
        let mut send = Vec::new(alloc);
        let outcome = connection.take(&buffer[..count], &mut send);
        rt.stdout().write_all(&send)?;
        rt.stdout().flush()?;
        outcome?;
    }
    connection.finish()
}
