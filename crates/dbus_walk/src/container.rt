//! Values that have parts. D-Bus Specification, "Container types".
#![tactic(auto)]

/// Which kind of container a value is. D-Bus Specification, "Container types".
#[derive(Clone, Copy)]
pub enum Container {
    /// A VARIANT, whose one part is the value that it holds.
    Variant,
    /// An ARRAY, whose parts are its elements.
    Array,
    /// A STRUCT, whose parts are its fields.
    Struct,
    /// A DICT_ENTRY, whose parts are its key and its value.
    Entry,
}
