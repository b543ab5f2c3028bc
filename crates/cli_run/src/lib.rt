//! The commands of the program `dbus-wire` over messages, with any reader and two writers.
//!
//! [`run_within`] runs a command under limits, with at most a given number of reads, [`run_with`]
//! by settings, [`list_lines`] writes a line for each message, [`count_by_name`] counts messages by
//! their names, [`list_calls`] lists their calls, and [`sum_calls`] sums these up. Each returns the
//! exit status. `specs/` states what a command writes: of all but lines of JSON and of `list` it is a function
//! of what it reads.
#![tactic(auto)]

mod by_name;
mod byte_draft;
mod call_listing;
mod call_summing;
mod closing;
mod counted;
mod counting;
mod ending;
mod framing;
mod going;
mod handing;
pub mod laws;
mod learning;
mod line_listing;
mod line_names;
mod output;
mod output_writer;
mod picking;
mod place;
mod renderer;
mod running;
mod selector;
mod showing;
mod swapping;
mod tally;
mod visitor;
mod window;

pub use by_name::count_by_name;
pub use call_listing::list_calls;
pub use call_summing::sum_calls;
pub use line_listing::list_lines;
pub use running::{run, run_reads, run_with, run_within};
