//! The numbers of the commands of the handshake's lines, which are for good.
//! D-Bus Specification, "Authentication Protocol", "Protocol Overview".
#![tactic(auto)]

/// The line is no command of the side that sends it.
pub const OTHER: u32 = 0;

/// `AUTH`, of a client.
pub const AUTH: u32 = 1;

/// `CANCEL`, of a client.
pub const CANCEL: u32 = 2;

/// `BEGIN`, of a client.
pub const BEGIN: u32 = 3;

/// `DATA`, of either side.
pub const DATA: u32 = 4;

/// `ERROR`, of either side.
pub const ERROR: u32 = 5;

/// `NEGOTIATE_UNIX_FD`, of a client.
pub const NEGOTIATE_UNIX_FD: u32 = 6;

/// `REJECTED`, of a server.
pub const REJECTED: u32 = 7;

/// `OK`, of a server.
pub const OK: u32 = 8;

/// `AGREE_UNIX_FD`, of a server.
pub const AGREE_UNIX_FD: u32 = 9;

/// The byte 0 that a client sends before its first line, as [`crate::dbus_wire_watch_client`] tells
/// it.
pub const NUL: u32 = 10;
