//! The answers of the calls: one set for all of them, in which 0 is success. Their numbers are for
//! good.
#![tactic(auto)]

/// The bytes begin with a message, or are a text of the kind that is asked for; what was asked for
/// is written.
pub const WHOLE: u32 = 0;

/// More bytes are needed.
pub const PARTIAL: u32 = 1;

/// The bytes are at fault, or what is asked for cannot be made of what is given.
pub const REFUSED: u32 = 2;

/// Memory ran out.
pub const NO_MEMORY: u32 = 3;

/// The caller has too few bytes for what is to be written.
pub const NO_ROOM: u32 = 4;

/// What is asked for is not there.
pub const NO_VALUE: u32 = 5;

/// No kind of text has the number that is asked for, no number the width, or no type the alignment.
pub const NO_KIND: u32 = 6;

/// There is no checker: none was made, or it was freed.
pub const NO_CHECKER: u32 = 7;

/// What is given stands for no rule: it never did, or the rule was removed or freed.
pub const NO_RULE: u32 = 8;

/// There is no end of a handshake: none was made, or it was freed.
pub const NO_HANDSHAKE: u32 = 9;

/// The line is not to be passed on yet: the server has lines to answer that came before it.
pub const WAITS: u32 = 11;

/// There is no connection: none was made, or it was freed.
pub const NO_CONNECTION: u32 = 12;
