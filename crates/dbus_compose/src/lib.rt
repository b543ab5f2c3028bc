//! Messages that are made in a line, by a builder that is given their parts one by one.
#![tactic(auto)]

mod builder;
mod compose;
mod parts;
mod signature;

pub use builder::MessageBuilder;
pub use compose::Compose;
