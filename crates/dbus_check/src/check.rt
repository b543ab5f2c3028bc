//! What a checker returns.
#![tactic(auto)]

use dbus_value_model::Fault;

/// What bytes that come in pieces are so far.
#[derive(Clone, Copy, PartialEq, Eq, Debug)]
pub enum Check {
    /// Neither a message nor a fault: more bytes are wanted.
    Partial,
    /// They begin with a message, which ends after this number of bytes of the last piece.
    Done(usize),
    /// They are refused.
    Refused(Fault),
}
