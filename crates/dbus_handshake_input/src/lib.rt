//! The handshake at the start of one side of a D-Bus connection is read from a source, up to its
//! messages.
//!
//! A connection begins with lines, and messages follow them. [`pass_handshake`] reads the lines of
//! one [`Side`] from a [`ReadAhead`], which is then a source of the bytes that follow: those that
//! it read ahead, and then those of the source below it. [`read_handshake`] also hands each line to
//! a [`LineVisitor`]. D-Bus Specification, "Authentication Protocol".
#![tactic(auto)]

mod fault;
mod fault_text;
mod handshake;
pub mod laws;
mod lines;
mod read_ahead;
mod side;
mod size;
mod unheard;
mod visitor;

pub use fault::{HandshakeFault, HandshakeReason};
pub use handshake::{pass_handshake, read_handshake};
pub use read_ahead::ReadAhead;
pub use side::Side;
pub use size::HandshakeSize;
pub use visitor::LineVisitor;
