//! Laws of lines of JSON that are encoded.
//!
//! Lines have one encoding, and `json` and then `encode` gives the input back. The functions do
//! nothing when they run.
#![tactic(auto)]

pub mod laws;
