//! What words ask for.
use crate::command::Request;
use crate::wanted_encoding::WantedEncoding;
use dbus_handshake_input::Side;

/// What the words of a command line ask for.
#[derive(Debug, Drop)]
pub enum Asked {
    /// Something of the messages of an input.
    Messages(Request),
    /// The messages of lines of JSON, so encoded.
    Encode(WantedEncoding),
    /// A list of the lines of this side's handshake.
    Handshake(Side),
}
