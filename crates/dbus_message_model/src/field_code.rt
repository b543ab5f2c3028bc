//! The codes of the known header fields. D-Bus Specification, "Header Fields".

/// The object that a call is for, or that a signal comes from.
pub const PATH: u8 = 1;

/// The interface of a call's method, or of a signal.
pub const INTERFACE: u8 = 2;

/// The name of a method or of a signal.
pub const MEMBER: u8 = 3;

/// The name of an error.
pub const ERROR_NAME: u8 = 4;

/// The serial of the message that is replied to.
pub const REPLY_SERIAL: u8 = 5;

/// The bus name that a message is for.
pub const DESTINATION: u8 = 6;

/// The bus name that a message comes from.
pub const SENDER: u8 = 7;

/// The types of the body's values.
pub const SIGNATURE: u8 = 8;

/// The number of file descriptors that come with a message.
pub const UNIX_FDS: u8 = 9;
