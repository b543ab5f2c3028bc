//! Types of values.
#![tactic(auto)]

use std::alloc::{Allocator, Global};
use std::sync::Arc;

/// A type, as a signature spells it. D-Bus Specification, "Type System".
///
/// Not every value of it spells a signature: a struct needs a field, and a dict entry occurs only
/// as an array's element, with a basic key.
///
/// The types inside it are shared with its clones, so a clone allocates nothing, however long its
/// signature is.
#[derive(Debug, Drop)]
pub enum SigType<A: Allocator = Global> {
    /// `y`, one byte.
    Byte,
    /// `b`, a boolean in four bytes.
    Bool,
    /// `n`, a signed number of two bytes.
    I16,
    /// `q`, a number of two bytes.
    U16,
    /// `i`, a signed number of four bytes.
    I32,
    /// `u`, a number of four bytes.
    U32,
    /// `x`, a signed number of eight bytes.
    I64,
    /// `t`, a number of eight bytes.
    U64,
    /// `d`, the eight bytes of a double.
    Double,
    /// `s`, a text.
    Str,
    /// `o`, an object path.
    Path,
    /// `g`, a signature.
    Sig,
    /// `h`, the index of a file descriptor.
    Fd,
    /// `v`, a value with its own type.
    Variant,
    /// `a` and the element's type.
    Array(Arc<SigType<A>, A>),
    /// `(`, the fields' types and `)`.
    Struct(Arc<Vec<SigType<A>, A>, A>),
    /// `{`, the key's type, the value's type and `}`.
    Entry(Arc<SigType<A>, A>, Arc<SigType<A>, A>),
}
