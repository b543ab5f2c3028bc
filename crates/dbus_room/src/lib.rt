//! A text that is written into the caller's bytes, as much of it as they have room for.
//!
//! [`Room`] is a `Draft` that allocates nothing. Once the text is written, it says how many of the
//! bytes the text has, and whether it is all there. [`Counted`] counts the bytes of the whole text.
#![tactic(auto)]

mod counted;
mod room;

pub use counted::Counted;
pub use room::Room;
