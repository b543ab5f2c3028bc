//! An item of a value among all values of a part of a message.
#![tactic(auto)]

/// One of the items that [`crate::flatten`] gives, in plain numbers. All offsets are in bytes from
/// the first. D-Bus Specification, "Type System".
#[repr(C)]
#[derive(Clone, Copy)]
pub struct FlatItem {
    /// The number: a BOOLEAN is 0 or 1, a signed number the two's complement in as many bytes as
    /// its type has, a DOUBLE its 64 bits, a UNIX_FD the index of a descriptor. Of a text 0. Of a
    /// container the number of items after it that are within it, at all depths.
    pub number: u64,
    /// The offset of the number's bytes, of the text, of the text of a variant's signature, of an
    /// array's elements, or of the first part of a struct or a dict entry.
    pub offset: u64,
    /// The number of these bytes, but of a struct and of a dict entry 0.
    pub length: u64,
    /// The first code of its type, such as `a` for an array.
    pub code: u32,
    /// Of an array the first code of its elements' type; else 0.
    pub element: u32,
}
