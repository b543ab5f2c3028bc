//! How many messages have each name, and how many bytes these have: names of types, senders,
//! destinations, interfaces, members and errors.
//!
//! [`Counts`] keeps the counts, and takes memory only for a name that is new. A [`Span`] is from
//! when to when the messages were captured.
#![tactic(auto)]

mod count;
mod counts;
mod form;
pub mod laws;
mod name;
mod span;
mod table;

pub use count::Count;
pub use counts::Counts;
pub use form::Form;
pub use span::Span;
