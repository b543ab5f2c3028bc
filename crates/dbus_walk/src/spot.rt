//! The bytes that a walk goes along, and where it is in them.
#![tactic(auto)]

use dbus_value_model::Order;

/// A message's bytes, and their byte order.
#[derive(Clone, Copy)]
pub struct MessageBytes<'a> {
    /// The bytes. Offsets count from the first of them.
    pub bytes: &'a [u8],
    /// The byte order of the numbers in them.
    pub order: Order,
}

/// Where a value is, or several values one after another.
#[derive(Clone, Copy)]
pub struct Spot<'a> {
    /// The offset at which the value begins, with its padding.
    pub at: usize,
    /// The bytes of its signature.
    pub types: &'a [u8],
    /// Of each of these bytes how many the type has that begins there.
    pub lengths: &'a [u8],
    /// The number of containers that may be open in it.
    pub depth_left: u8,
}

/// Where the elements of an array are.
#[derive(Clone, Copy)]
pub struct Run {
    /// The offset of the array's length.
    pub start: usize,
    /// The offset of the first element, with its padding.
    pub first: usize,
    /// The offset after the last element.
    pub end: usize,
    /// The number of bytes of each number, or 0 if the elements are no numbers.
    pub size: u8,
}

/// What a value is, and where its parts are. D-Bus Specification, "Marshaling (Wire Format)".
#[derive(Clone, Copy)]
pub enum Layout<'a> {
    /// A number.
    Number {
        /// The offset of its first byte.
        start: usize,
        /// The number of bytes that it has.
        size: u8,
    },
    /// A STRING or an OBJECT_PATH.
    LongText {
        /// The offset of its length, which has 4 bytes.
        start: usize,
        /// The number of bytes of the text.
        size: usize,
    },
    /// A SIGNATURE, whose length has one byte, the value's first.
    ShortText {
        /// The number of bytes of the text.
        size: usize,
    },
    /// A VARIANT.
    Variant {
        /// The type of the value that it holds.
        types: &'a [u8],
        /// The offset at which that value begins, with its padding.
        at: usize,
    },
    /// An ARRAY.
    Array(Run),
    /// A STRUCT.
    Struct {
        /// The offset of its first field.
        start: usize,
    },
    /// A DICT_ENTRY.
    Entry {
        /// The offset of its key.
        start: usize,
    },
}
