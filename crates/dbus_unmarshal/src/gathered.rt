//! What builds values, and what is gathered of the parts of a container.
#![tactic(auto)]

use dbus_types::SigType;
use dbus_value_model::{DictEntry, Value};
use std::alloc::Allocator;
use std::sync::Arc;

/// Builds values, with memory of an allocator.
#[derive(Drop)]
pub(crate) struct Builder<A: Allocator> {
    /// What gives the memory.
    pub(crate) alloc: A,
}

/// What is gathered of the parts of a container, as the container takes it. The types of the parts
/// that are to come stand with them, so that an array shares the type of its elements with the type
/// of the array around it.
#[derive(Drop)]
pub(crate) enum Gathered<A: Allocator> {
    /// Of a variant, no value yet: the type of the value.
    Variant(SigType<A>),
    /// The value that a variant holds.
    Held(Value<A>),
    /// Of a dict entry, no part yet: the types of its key and its value.
    Entry(SigType<A>, SigType<A>),
    /// The type of the value of a dict entry, and its key.
    Key(SigType<A>, Value<A>),
    /// The key and the value of a dict entry, on the heap as the value takes them: so what is moved
    /// stays small.
    Both(Box<DictEntry<A>, A>),
    /// The types of a struct's fields, and the fields.
    Fields(Arc<Vec<SigType<A>, A>, A>, Vec<Value<A>, A>),
    /// The type of an array's elements, and the elements.
    Elements(SigType<A>, Vec<Value<A>, A>),
}
