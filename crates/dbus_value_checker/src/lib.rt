//! Values of given types, checked as their bytes come: in pieces of any length, in fixed room,
//! without allocating.
//!
//! Values are a chain of fronts: pieces of few bytes, each of which is read in one go once all of
//! its bytes are there. Texts and the signatures of variants alone may be longer: they are scanned
//! as their bytes come.
#![tactic(auto)]

mod frames;
mod fronts;
mod holding;
mod items;
mod signatures;
mod texts;
mod values;
mod whole;

pub use fronts::{
    array_front, byte, ended_front, fixed, front, length_front, nul_front, number_front, padding,
    rest_after, short_length_front, text_front, word,
};
pub use texts::reason_of_kind;
pub use values::ValueChecker;
