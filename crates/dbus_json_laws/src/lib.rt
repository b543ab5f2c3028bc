//! Laws of the lines of JSON that messages have.
//!
//! A line loses nothing: no two messages have one, and it is read as the message that it was written
//! of, and as no other. No program needs this crate, since its functions do nothing when they run.
#![tactic(auto)]

pub mod laws;
