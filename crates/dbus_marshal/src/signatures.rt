//! The signature of a type, and of a value's type: its length, and its bytes.
#![tactic(auto)]

ghost use Rattle.std.specs.Prelude.{◌≡◌, ◌<◌, ◌+◌, ◌≤◌, ◌++◌, ◌∷◌, [], length, take};
ghost use Rattle.dbus_texts.specs.Types.{sig, sigs};
ghost use Rattle.dbus_types.specs.SigTypes.{type_tree, type_trees_of};
ghost use Rattle.dbus_value_model.specs.declared.order.Order.{Order};
ghost use Rattle.dbus_value_model.specs.Bytes.{num};
ghost use Rattle.dbus_value_model.specs.Values.{type_of, types_of};
ghost use Rattle.dbus_value_model.specs.ValueViews.{value_tree, value_trees_of};

use crate::writing::{write_byte, write_bytes};
use dbus_types::{SigType, type_code};
use dbus_value_model::{Value, plain_type_of};
use std::alloc::Allocator;

/// The length of a type's signature.
#[cycle(type_length)]
pub fn type_length<A: Allocator>(ty: &SigType<A>) -> usize
    requires { length (sig (type_tree ty.now)) < 256 }
    ensures { result ≡ length (sig (type_tree ty.now)) }
{
    match ty {
        SigType::Array(element) => 1 + type_length(element),
        SigType::Struct(fields) => 2 + types_length(fields),
        SigType::Entry(key, value) => 2 + type_length(key) + type_length(value),
        _ => 1,
    }
}

/// The number of bytes of the types' signature.
#[cycle(type_length)]
fn types_length<A: Allocator>(types: &[SigType<A>]) -> usize
    requires { length (sigs (type_trees_of types.now)) < 256 }
    ensures { result ≡ length (sigs (type_trees_of types.now)) }
{
    let mut len = 0;
    for ty in types {
        len += type_length(ty);
    }
    len
}

/// The length of the signature of a value's type.
#[cycle(signature_length)]
pub fn signature_length<A: Allocator>(value: &Value<A>) -> usize
    requires { length (sig (type_of (value_tree value.now))) < 256 }
    ensures { result ≡ length (sig (type_of (value_tree value.now))) }
{
    match value {
        Value::Bytes(_) => 2,
        Value::Array(element, _) => 1 + type_length(element),
        Value::Struct(fields) => 2 + signatures_length(fields),
        Value::Entry(entry) => 2 + signature_length(&entry.key) + signature_length(&entry.value),
        _ => 1,
    }
}

/// The number of bytes of the signature of the values.
#[cycle(signature_length)]
fn signatures_length<A: Allocator>(values: &[Value<A>]) -> usize
    requires { length (sigs (types_of (value_trees_of values.now))) < 256 }
    ensures { result ≡ length (sigs (types_of (value_trees_of values.now))) }
{
    let mut len = 0;
    for value in values {
        len += signature_length(value);
    }
    len
}

/// Writes a type's signature.
#[cycle(write_type)]
pub fn write_type<A: Allocator>(out: &mut [u8], at: usize, ty: &SigType<A>) -> usize
    requires space { at + length (sig (type_tree ty.now)) ≤ length out.old }
    ensures written { take result out.new ≡ take at out.old ++ sig (type_tree ty.now) }
    ensures ends { result ≡ at + length (sig (type_tree ty.now)) }
{
    match ty {
        SigType::Array(element) => {
            let place = write_byte(out, at, b'a');
            write_type(out, place, element)
        }
        SigType::Struct(fields) => {
            let place = write_byte(out, at, b'(');
            let place = write_types(out, place, fields);
            write_byte(out, place, b')')
        }
        SigType::Entry(key, value) => {
            let place = write_byte(out, at, b'{');
            let place = write_type(out, place, key);
            let place = write_type(out, place, value);
            write_byte(out, place, b'}')
        }
        _ => write_byte(out, at, type_code(ty)),
    }
}

/// Writes the types' signature at `at`, and returns the offset after it.
#[cycle(write_type)]
fn write_types<A: Allocator>(out: &mut [u8], at: usize, types: &[SigType<A>]) -> usize
    requires space { at + length (sigs (type_trees_of types.now)) ≤ length out.old }
    ensures written { take result out.new ≡ take at out.old ++ sigs (type_trees_of types.now) }
    ensures ends { result ≡ at + length (sigs (type_trees_of types.now)) }
{
    let mut place = at;
    for ty in types {
        place = write_type(out, place, ty);
    }
    place
}

/// Writes the signature of a value's type.
#[cycle(write_type_of)]
pub fn write_type_of<A: Allocator>(out: &mut [u8], at: usize, value: &Value<A>) -> usize
    requires space { at + length (sig (type_of (value_tree value.now))) ≤ length out.old }
    ensures written { take result out.new ≡ take at out.old ++ sig (type_of (value_tree value.now)) }
    ensures ends { result ≡ at + length (sig (type_of (value_tree value.now))) }
{
    match value {
        Value::Bytes(_) => write_bytes(out, at, b"ay"),
        Value::Array(element, _) => {
            let place = write_byte(out, at, b'a');
            write_type(out, place, element)
        }
        Value::Struct(fields) => {
            let place = write_byte(out, at, b'(');
            let place = write_types_of(out, place, fields);
            write_byte(out, place, b')')
        }
        Value::Entry(entry) => {
            let place = write_byte(out, at, b'{');
            let place = write_type_of(out, place, &entry.key);
            let place = write_type_of(out, place, &entry.value);
            write_byte(out, place, b'}')
        }
        _ => match plain_type_of(value) {
            Some(ty) => write_byte(out, at, type_code(&ty)),
            None => unreachable!(),
        },
    }
}

/// Writes the signature of the values at `at`, and returns the offset after it.
#[cycle(write_type_of)]
fn write_types_of<A: Allocator>(out: &mut [u8], at: usize, values: &[Value<A>]) -> usize
    requires space { at + length (sigs (types_of (value_trees_of values.now))) ≤ length out.old }
    ensures written { take result out.new ≡
        take at out.old ++ sigs (types_of (value_trees_of values.now)) }
    ensures ends { result ≡ at + length (sigs (types_of (value_trees_of values.now))) }
{
    let mut place = at;
    for value in values {
        place = write_type_of(out, place, value);
    }
    place
}

/// Writes the signature of a value's type as a variant has it: its length in one byte, itself and a
/// zero byte. It is the same in either byte order.
#[tactic(auto, using(crate::proofs::Written::texts))]
pub fn write_variant_signature<A: Allocator>(out: &mut [u8], at: usize, value: &Value<A>) -> usize
    requires space { at + length (sig (type_of (value_tree value.now))) + 2 ≤ length out.old }
    requires fits { length (sig (type_of (value_tree value.now))) < 256 }
    ensures written { (order : Order) →
        take result out.new ≡
        ((take at out.old ++ num order 1 (length (sig (type_of (value_tree value.now))))) ++
        sig (type_of (value_tree value.now))) ++
        0 ∷ [] }
    ensures ends { result ≡ at + length (sig (type_of (value_tree value.now))) + 2 }
{
    if let Some(ty) = plain_type_of(value) {
        // One code, as most of them are, without a walk over the value's type.
        let place = write_byte(out, at, 1);
        let place = write_byte(out, place, type_code(&ty));
        return write_byte(out, place, 0);
    }
    let start = write_byte(out, at, signature_length(value) as u8);
    let end = write_type_of(out, start, value);
    write_byte(out, end, 0)
}
