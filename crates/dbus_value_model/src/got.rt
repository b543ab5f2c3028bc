//! What getting a value returns.
#![tactic(auto)]

use crate::value::Value;
use std::alloc::{Allocator, Global};

/// A value, or the need for more bytes: what bytes give that are not refused.
#[derive(Debug, Drop)]
pub enum Got<A: Allocator = Global> {
    /// The value, and the place after it.
    Done(Value<A>, usize),
    /// Neither a value nor a fault: more bytes are wanted.
    Partial,
}
