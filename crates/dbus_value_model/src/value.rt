//! Values.
#![tactic(auto)]

use dbus_types::SigType;
use std::alloc::{Allocator, Global};

/// A value. D-Bus Specification, "Type System".
///
/// It has 56 bytes over [`Global`], besides what it points to: a word for the case, and 48 bytes
/// for the longest one, an array's element type and the vector of its elements.
#[cycle(value)]
#[derive(Debug, Drop)]
pub enum Value<A: Allocator = Global> {
    /// BYTE.
    Byte(u8),
    /// BOOLEAN.
    Bool(bool),
    /// INT16.
    I16(i16),
    /// UINT16.
    U16(u16),
    /// INT32.
    I32(i32),
    /// UINT32.
    U32(u32),
    /// INT64.
    I64(i64),
    /// UINT64.
    U64(u64),
    /// DOUBLE, as its 64 bits.
    Double(u64),
    /// STRING.
    Str(String<A>),
    /// OBJECT_PATH.
    Path(String<A>),
    /// SIGNATURE.
    Sig(String<A>),
    /// UNIX_FD, as the index of a descriptor.
    Fd(u32),
    /// An array of BYTE.
    Bytes(Vec<u8, A>),
    /// An array of another type than BYTE: the element's type, and the elements.
    Array(SigType<A>, Vec<Value<A>, A>),
    /// A struct's fields.
    Struct(Vec<Value<A>, A>),
    /// A dict entry.
    Entry(Box<DictEntry<A>, A>),
    /// A value that carries its type.
    Variant(Box<Value<A>, A>),
}

/// A dict entry: a key and the value that it stands for. D-Bus Specification, "Type System".
#[cycle(value)]
#[derive(Debug, Drop)]
pub struct DictEntry<A: Allocator = Global> {
    /// The key.
    pub key: Value<A>,
    /// The value.
    pub value: Value<A>,
}
