//! How many calls each member has, what came of them, and how long they took.
//!
//! [`MemberSums`] is where a list of calls puts them, and takes memory only for a member that is
//! new. [`MemberSums::table`] is their table.
#![tactic(auto)]

mod adding;
pub mod laws;
mod member_sum;
mod member_sums;
mod table;

pub use member_sum::MemberSum;
pub use member_sums::MemberSums;
