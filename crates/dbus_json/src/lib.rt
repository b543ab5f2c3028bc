//! Messages as lines of JSON, from their bytes.
//!
//! A line is one object. It is written by a walk along the signatures of the message's values, and
//! no value is built: no memory is taken but that of the text.
#![tactic(auto)]

mod doubles;
mod fields;
mod header;
mod integers;
mod json;
pub mod laws;
mod line;
mod place;
mod texts;
mod times;

pub use doubles::finite;
pub use header::{write_header, write_header_front};
pub use integers::Integers;
pub use line::write_json;
pub use place::LinePlace;
pub use texts::write_string;
pub use times::{digit_at, write_seconds, write_thousandths, write_time};
