//! Which Unix file descriptors belong to which message of a stream.
//!
//! Descriptors come beside the bytes of a stream, and not among them; a message says in its header
//! field UNIX_FDS how many are its own. [`Descriptors`] keeps those that came until the message
//! ends that they belong to. It knows no device: a descriptor is a value of any type.
//!
//! D-Bus Specification, "Header Fields" (UNIX_FDS), "Basic types" (UNIX_FD) and "NEGOTIATE_UNIX_FD
//! Command". [`laws::each_once`] says that each descriptor is given once, whatever the cut of the
//! stream into reads.
#![tactic(auto)]

mod descriptors;
pub mod laws;

pub use descriptors::{Came, Descriptors, MessageEnd, NotTaken};
