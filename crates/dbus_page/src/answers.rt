//! The answers of the calls: one set for all of them.
#![tactic(auto)]

/// The bytes begin with a message; or all of what was asked for is written.
pub const WHOLE: u32 = 0;

/// The bytes begin with no message, and show no fault yet.
pub const PARTIAL: u32 = 1;

/// The bytes are at fault.
pub const REFUSED: u32 = 2;

/// There was room only for the first bytes of what was asked for.
pub const NO_ROOM: u32 = 3;

/// There is no such text: no message to write, or nothing to explain.
pub const NO_TEXT: u32 = 4;
