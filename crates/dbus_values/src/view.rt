//! How a value is seen.
#![tactic(auto)]

use crate::elements::Elements;
use crate::values::Values;

/// A value of a message, seen in place. D-Bus Specification, "Type System".
#[derive(Drop)]
pub enum ValueView<'a> {
    /// BYTE.
    Byte(u8),
    /// BOOLEAN.
    Bool(bool),
    /// INT16.
    I16(i16),
    /// UINT16.
    U16(u16),
    /// INT32.
    I32(i32),
    /// UINT32.
    U32(u32),
    /// INT64.
    I64(i64),
    /// UINT64.
    U64(u64),
    /// DOUBLE, as its 64 bits.
    Double(u64),
    /// UNIX_FD, as the index of a descriptor.
    Fd(u32),
    /// STRING.
    Str(&'a str),
    /// OBJECT_PATH.
    Path(&'a str),
    /// SIGNATURE.
    Sig(&'a str),
    /// ARRAY of BYTE: its bytes.
    Bytes(&'a [u8]),
    /// ARRAY of another type: its elements.
    Array(Elements<'a>),
    /// STRUCT: its fields.
    Struct(Values<'a>),
    /// DICT_ENTRY: its key and its value.
    Entry(Values<'a>),
    /// VARIANT: the one value that it holds.
    Variant(Values<'a>),
}
