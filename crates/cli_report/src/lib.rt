//! What a program over messages says on its writers, and how it ends.
//!
//! [`OutputBuffer`] holds bytes until there are enough to write, a [`Page`] is what goes there as
//! it comes, and [`write_out`] writes it. [`refusal_text`] and [`refusal_json`] are reports of a
//! message that is refused, [`give_up`] reports why a run failed, and [`ExitStatus`] is how it ends.
#![tactic(auto)]

mod ending;
mod failing;
mod fault_front;
mod gathering;
mod lines;
mod output_buffer;
mod page;
mod telling;

pub use ending::{Cause, ExitStatus};
pub use failing::give_up;
pub use gathering::{Unwritten, write_out, write_some};
pub use lines::refused_line;
pub use output_buffer::OutputBuffer;
pub use page::Page;
pub use telling::{RefusedMessage, refusal_json, refusal_text};
