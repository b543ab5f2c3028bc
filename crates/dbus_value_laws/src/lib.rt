//! The laws over what bytes of the D-Bus wire format spell. D-Bus Specification, "Marshaling (Wire
//! Format)".
//!
//! A value has one spelling at each place, bytes are exactly one of spelled, refused and partial,
//! and the plain reader of `specs/` computes which. [`laws`] states this, and each crate above
//! rests on its lemmas in `proofs/`.
#![tactic(auto)]

pub mod laws;
