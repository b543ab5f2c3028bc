//! The command `encode`: lines of JSON to messages, over any reader and two writers.
//!
//! [`encode_lines`] runs it, and returns the exit status. `specs/` states what it writes: it is a
//! function of what it reads.
#![tactic(auto)]

mod encoder;
mod encoding;
mod ending;
mod explaining;
mod going;
mod reason;
mod rules;
mod writing;

pub use encoding::Encoding;
pub use going::encode_lines;
pub use reason::{LineReason, Refusal};
