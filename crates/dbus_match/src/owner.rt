//! Owners of names.
#![tactic(auto)]

use std::alloc::{Allocator, Global};

/// A well-known bus name, and the unique name of the connection that owns it.
/// D-Bus Specification, "Bus names".
#[derive(Debug, Drop)]
#[derive_where(PartialEq, Eq)]
pub struct Owner<A: Allocator = Global> {
    /// The well-known name.
    pub name: String<A>,
    /// The unique name of its owner.
    pub unique: String<A>,
}
