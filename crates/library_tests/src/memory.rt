//! What values take of memory: how many bytes a value has, and how many times the bytes that it was
//! read from a tree has.

use dbus_types::parse_single;
use dbus_unmarshal::get;
use dbus_value_model::{DictEntry, Got, Order, Value};
use std::alloc::{AllocError, Global};
use std::test::*;

// How many elements after the first an array has.
const COUNT: u32 = 1025;

// Trees take at most so many times the bytes that they are read from, if nothing is as dense as
// BYTEs in structs; and those of texts of ordinary length.
const MOST: usize = 48;

const ORDINARY: usize = 12;

// Eight BYTEs have the bytes of one struct, and the tree has a value for each of these nine.
const DENSE: usize = 64;

// A struct has no bytes of its own: 32 structs, one within the other, stand over the 8 bytes of
// one.
const NESTED: usize = 240;

// An array: its signature; the padding after its length; its first element; each other one, with
// the padding before it; and how many times its bytes its tree takes at most.
type Shape = (
    &'static str,
    &'static [u8],
    &'static [u8],
    &'static [u8],
    usize,
);

const SHAPES: &[Shape] = &[
    (
        "aaa(ayayayayayayayayayayayayayayayayayayayayayayayayayayayayayayayayayayayayayayayayayayayayayayayayayayayayayayayayayayayayayayayayayayayayayayayayayayayayayayayayayayayayayayayayayayayayayayayayayayayayayayayayayayayayayayayayayayayayayayayayayayayay)",
        b"",
        b"\0\0\0\0",
        b"\0\0\0\0",
        MOST,
    ),
    (
        "aa(yyyyyyyyyyyyyyyyyyyyyyyyyyyyyyyyyyyyyyyyyyyyyyyyyyyyyyyyyyyyyyyyyyyyyyyyyyyyyyyyyyyyyyyyyyyyyyyyyyyyyyyyyyyyyyyyyyyyyyyyyyyyyyyyyyyyyyyyyyyyyyyyyyyyyyyyyyyyyyyyyyyyyyyyyyyyyyyyyyyyyyyyyyyyyyyyyyyyyyyyyyyyyyyyyyyyyyyyyyyyyyyyyyyyyyyyyyyyyyyyyyyyyyyyyy)",
        b"",
        b"\0\0\0\0",
        b"\0\0\0\0\0\0\0\0",
        MOST,
    ),
    (
        "aaaaaaaaaaaaaaaaaaaaaaaaaaaaaaaau",
        b"",
        b"\x7c\0\0\0x\0\0\0t\0\0\0p\0\0\0l\0\0\0h\0\0\0d\0\0\0\x60\0\0\0\x5c\0\0\0\x58\0\0\0\x54\0\0\0\x50\0\0\0\x4c\0\0\0\x48\0\0\0\x44\0\0\0\x40\0\0\0\x3c\0\0\0\x38\0\0\0\x34\0\0\0\x30\0\0\0\x2c\0\0\0\x28\0\0\0\x24\0\0\0\x20\0\0\0\x1c\0\0\0\x18\0\0\0\x14\0\0\0\x10\0\0\0\x0c\0\0\0\x08\0\0\0\x04\0\0\0\x01\0\0\0",
        b"",
        MOST,
    ),
    (
        "a(yy)",
        b"\0\0\0\0",
        b"\x01\x02",
        b"\0\0\0\0\0\0\x01\x02",
        MOST,
    ),
    (
        "a{yy}",
        b"\0\0\0\0",
        b"\x01\x02",
        b"\0\0\0\0\0\0\x01\x02",
        MOST,
    ),
    ("av", b"", b"\x01y\0\x07", b"\x01y\0\x07", MOST),
    (
        "aav",
        b"",
        b"\x04\0\0\0\x01y\0\x07",
        b"\x04\0\0\0\x01y\0\x07",
        MOST,
    ),
    ("ag", b"", b"\0\0", b"\0\0", MOST),
    ("aau", b"", b"\0\0\0\0", b"\0\0\0\0", MOST),
    ("as", b"", b"\x03\0\0\0abc\0", b"\x03\0\0\0abc\0", MOST),
    (
        "a{ss}",
        b"\0\0\0\0",
        b"\x03\0\0\0abc\0\x03\0\0\0def\0",
        b"\x03\0\0\0abc\0\x03\0\0\0def\0",
        MOST,
    ),
    (
        "a(yyyyyyyy)",
        b"\0\0\0\0",
        b"\x01\x02\x03\x04\x05\x06\x07\x08",
        b"\x01\x02\x03\x04\x05\x06\x07\x08",
        DENSE,
    ),
    (
        "a((((((((((((((((((((((((((((((((y))))))))))))))))))))))))))))))))",
        b"\0\0\0\0",
        b"\x01",
        b"\0\0\0\0\0\0\0\x01",
        NESTED,
    ),
    ("ay", b"", b"\x07", b"\x07", 1),
    ("au", b"", b"\x07\0\0\0", b"\x07\0\0\0", 14),
    (
        "as",
        b"",
        b"\x08\0\0\0abcdefgh\0",
        b"\0\0\0\x08\0\0\0abcdefgh\0",
        ORDINARY,
    ),
    (
        "as",
        b"",
        b"\x0e\0\0\0abcdefghijklmn\0",
        b"\0\x0e\0\0\0abcdefghijklmn\0",
        ORDINARY,
    ),
    (
        "as",
        b"",
        b"\x14\0\0\0abcdefghijklmnopqrst\0",
        b"\0\0\0\x14\0\0\0abcdefghijklmnopqrst\0",
        ORDINARY,
    ),
    (
        "a{ss}",
        b"\0\0\0\0",
        b"\x08\0\0\0abcdefgh\0\0\0\0\x0b\0\0\0abcdefghijk\0",
        b"\x08\0\0\0abcdefgh\0\0\0\0\x0b\0\0\0abcdefghijk\0",
        ORDINARY,
    ),
    (
        "a{sv}",
        b"\0\0\0\0",
        b"\x0a\0\0\0abcdefghij\0\x01s\0\0\0\x09\0\0\0abcdefghi\0",
        b"\0\0\0\0\0\0\x0a\0\0\0abcdefghij\0\x01s\0\0\0\x09\0\0\0abcdefghi\0",
        ORDINARY,
    ),
    (
        "a{sv}",
        b"\0\0\0\0",
        b"\x10\0\0\0abcdefghijklmnop\0\x01u\0\x07\0\0\0",
        b"\0\0\0\0\x10\0\0\0abcdefghijklmnop\0\x01u\0\x07\0\0\0",
        ORDINARY,
    ),
];

// The bytes of an array, in little order.
fn spelled(alloc: Global, shape: &Shape) -> Result<Vec<u8>, AllocError> {
    let (_, gap, first, other, _) = *shape;
    let mut contents = Vec::from_slice(alloc, first)?;
    for _ in 0..COUNT {
        contents.extend_from_slice(other)?;
    }
    let length = (contents.len() as u64).to_le_bytes();
    let mut bytes = Vec::from_slice(alloc, &length[..4])?;
    bytes.extend_from_slice(gap)?;
    bytes.extend_from_slice(&contents)?;
    Ok(bytes)
}

// What a value has besides its own bytes. Types are shared, and not counted.
#[cycle(held)]
fn held(value: &Value) -> usize {
    match value {
        Value::Str(text) | Value::Path(text) | Value::Sig(text) => text.capacity(),
        Value::Bytes(bytes) => bytes.capacity(),
        Value::Array(_, items) => held_by_all(items),
        Value::Struct(fields) => held_by_all(fields),
        Value::Entry(entry) => size_of::<DictEntry>()
            .saturating_add(held(&entry.key))
            .saturating_add(held(&entry.value)),
        Value::Variant(inner) => size_of::<Value>().saturating_add(held(inner)),
        _ => 0,
    }
}

#[cycle(held)]
fn held_by_all(values: &Vec<Value>) -> usize {
    let mut sum = values.capacity().saturating_mul(size_of::<Value>());
    for value in values {
        sum = sum.saturating_add(held(value));
    }
    sum
}

// What the tree of an array takes that has these bytes, or nothing if they are no such array.
fn taken(alloc: Global, signature: &str, bytes: &[u8]) -> Option<usize> {
    let Ok(wanted) = parse_single(alloc, signature.as_bytes()) else {
        return None;
    };
    match get(alloc, bytes, 0, bytes.len(), Order::Little, &wanted, 0) {
        Ok(Got::Done(value, _)) => Some(held(&value)),
        _ => None,
    }
}

// Whether the tree of an array takes as much at most as its row says.
fn is_within(alloc: Global, shape: &Shape) -> Result<bool, AllocError> {
    let bytes = spelled(alloc, shape)?;
    match taken(alloc, shape.0, &bytes) {
        Some(taken) => Ok(taken <= bytes.len().saturating_mul(shape.4)),
        None => Ok(false),
    }
}

#[test]
fn a_value_has_56_bytes(rt: HostRuntime) {
    assert!(rt; size_of::<Value>() == 56 && size_of::<DictEntry>() == 112);
}

#[test]
fn trees_of_arrays(rt: HostRuntime) -> Result<(), Fail> {
    for (n, shape) in SHAPES.iter().enumerate() {
        assert!(rt; is_within(rt.alloc(), shape)?, "at {n}");
    }
    Ok(())
}
