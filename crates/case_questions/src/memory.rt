//! The memory of what is asked.

use std::alloc::Allocator;

/// Where what a question asks takes its memory.
#[derive(Clone, Copy)]
pub struct Memory<A: Allocator> {
    /// For the call that is asked. A growth may be refused.
    pub heap: A,
    /// For what the call is made of, and for what is told of its answer. Nothing is refused.
    pub spare: A,
}

impl<A: Allocator + Copy> Memory<A> {
    /// All memory from one allocator, which refuses nothing.
    pub fn of(alloc: A) -> Memory<A> {
        Memory {
            heap: alloc,
            spare: alloc,
        }
    }
}
