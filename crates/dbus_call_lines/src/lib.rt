//! A call of a method and what came of it, as a line.
//!
//! [`CallList`] takes the messages of an input, and adds its calls to a [`CallSink`], of those that
//! are [`Wanted`]: [`Lines`] writes a line for each. [`write_front`] writes a line as far as the
//! call says it, and [`write_end`] what came of the call, an [`Outcome`]. [`laws::two_parts`] says
//! that these are the line.
#![tactic(auto)]

mod call_list;
mod call_names;
mod elapsed;
mod ending;
mod form;
mod fronts;
pub mod laws;
mod lines;
mod outcome;
mod place;
mod sink;
mod waiting_call;
mod wanted;

pub use call_list::CallList;
pub use call_names::CallNames;
pub use elapsed::{Elapsed, time_between, write_exact, write_milliseconds};
pub use ending::{write_end, write_took};
pub use form::Form;
pub use fronts::{write_front, write_member};
pub use lines::Lines;
pub use outcome::{Outcome, outcome_of};
pub use place::Place;
pub use sink::CallSink;
pub use wanted::Wanted;
