//! A key of a rule with its value.
#![tactic(auto)]

use crate::key::Key;
use std::alloc::Allocator;

/// A key of a rule and its value. D-Bus Specification, "Match Rules".
#[derive(Debug, Drop)]
#[derive_where(PartialEq, Eq)]
pub struct Condition<A: Allocator> {
    /// The key.
    pub key: Key,
    /// Its value, one that the key takes.
    pub value: String<A>,
}
