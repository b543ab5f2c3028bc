//! Questions that `cases/run.py` asks of engines, and what they reply: a line each, of words with a
//! space between any two.
//!
//! A program is an [`Answerer`], and answers the questions of its input in turn:
//!
//! ```text
//! let questions = io::read_to_string(alloc, rt.stdin())?;
//! for line in questions.lines() {
//!     println!(rt; "{}", reply_to(Engines, alloc, line).line())?;
//! }
//! ```
#![tactic(auto)]

mod answering;
mod memory;
mod places;
mod question;
mod reply;
mod words;

pub use answering::{Answerer, reply_to};
pub use memory::Memory;
pub use places::{Engine, piece, say_places, split};
pub use question::{Question, bytes_of};
pub use reply::Reply;
pub use words::named;
