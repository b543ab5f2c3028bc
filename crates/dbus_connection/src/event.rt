//! What comes of the bytes of a connection.
#![tactic(auto)]

use dbus_auth::Guid;
use dbus_header::FixedHeader;
use dbus_value_model::Fault;
use dbus_view::MessageView;

/// What came of some bytes.
#[derive(Drop)]
pub enum Event<'a> {
    /// Nothing, and nothing will before so many bytes are at hand: of a message at least those that
    /// it has, as its first 16 bytes state it. In the handshake all bytes were taken, and it is 1.
    Wants(u64),
    /// The handshake goes on, once these bytes are sent.
    Send(Vec<u8>),
    /// The handshake succeeded, and what follows are messages.
    Begun(Begun),
    /// A message, in place: its bytes are the last of those that were taken.
    Message(Incoming<'a>),
    /// A message that is longer than those that are given begins. The next calls take its bytes,
    /// which need not be at hand at once, and tell nothing of them.
    Passed(PassedOver),
    /// The bytes are no message within the limits. The place counts from the first that was not
    /// taken. The connection is closed.
    Refused(Fault),
    /// The handshake failed. The connection is closed.
    Failed,
    /// The connection was closed before.
    Over,
}

/// A message that came. D-Bus Specification, "Message Format".
#[derive(Drop)]
pub struct Incoming<'a> {
    /// Its view.
    pub view: MessageView<'a>,
    /// How many of the Unix file descriptors that come beside the bytes are its own: the number of
    /// its header field UNIX_FDS, or 0 if it has none.
    pub fds: u32,
}

/// A message that is passed over. D-Bus Specification, "Message Format".
#[derive(Clone, Copy, Drop)]
pub struct PassedOver {
    /// How many bytes it has.
    pub length: u64,
    /// What its first 16 bytes say: its type, flags and serial, and lengths.
    pub header: FixedHeader,
}

/// How a handshake ended. D-Bus Specification, "Authentication Protocol".
#[derive(Drop)]
pub struct Begun {
    /// The bytes to send before any message: BEGIN of a client, and none of a server.
    pub send: Vec<u8>,
    /// The GUID of the server that accepted this client. `None` if this side is the server.
    pub guid: Option<Guid>,
    /// Whether both sides agreed to pass Unix file descriptors.
    pub agreed: bool,
}

/// What a call made of its bytes.
#[derive(Drop)]
pub struct Step<'a> {
    /// The number of bytes that were taken. Pass the others again.
    pub taken: usize,
    /// What came of them.
    pub event: Event<'a>,
}
