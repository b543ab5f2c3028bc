//! Values that a word makes, for those too that no bytes spell: what checks say of them, what their
//! types spell, and which has an index that is too great.

use crate::asked::Asked;
use crate::reading::value_of;
use crate::texts::say_types;
use crate::writing::say_checks;
use case_questions::{Memory, Question, Reply, bytes_of, named};
use dbus_types::{SigFault, SigType, signature_text};
use dbus_value_model::{DictEntry, Value, copy, first_past, type_of};
use std::alloc::{AllocError, Allocator};
use std::slice::from_ref;

/// What is asked of values that words make.
#[derive(Clone, Copy)]
pub(crate) enum OfMade {
    /// What checks say of one and of its copy, and what its type spells.
    Checked,
    /// Which of several has the first index that is not below `fds=`.
    Past,
    /// What so many types as `times=` says spell, each that of the value.
    Spelled,
    /// What comes of a text as a STRING.
    String,
}

// A value that is made of what stands behind a colon.
#[derive(Clone, Copy)]
enum Kind {
    Byte,
    U32,
    Fd,
    Str,
    Path,
    Sig,
    Variants,
    Zeros,
    Struct,
    Bytes,
    Longs,
    Entry,
}

const KINDS: &[(&str, Kind)] = &[
    ("y", Kind::Byte),
    ("u", Kind::U32),
    ("h", Kind::Fd),
    ("s", Kind::Str),
    ("o", Kind::Path),
    ("g", Kind::Sig),
    ("variants", Kind::Variants),
    ("zeros", Kind::Zeros),
    ("struct", Kind::Struct),
    ("bytes", Kind::Bytes),
    ("longs", Kind::Longs),
    ("entry", Kind::Entry),
];

/// The text of hexadecimal digits.
pub(crate) fn text_of<A: Allocator + Copy>(alloc: A, digits: &str) -> String<A> {
    String::from_utf8(bytes_of(alloc, digits)).unwrap_or(String::new(alloc))
}

// A BYTE within this number of variants.
fn variants<A: Allocator + Copy>(alloc: A, count: usize) -> Result<Value<A>, AllocError> {
    let mut value = Value::Byte(1);
    for _ in 0..count {
        value = Value::Variant(Box::new(alloc, value)?);
    }
    Ok(value)
}

// This number of bytes.
fn zeros<A: Allocator>(alloc: A, count: usize) -> Result<Vec<u8, A>, AllocError> {
    let block = [0; 4096];
    let mut all = Vec::with_capacity(alloc, count)?;
    for _ in 0..count / 4096 {
        all.extend_from_slice(&block)?;
    }
    for _ in 0..count % 4096 {
        all.push(0)?;
    }
    Ok(all)
}

// This number of UINT32.
fn numbers<A: Allocator + Copy>(alloc: A, count: usize) -> Result<Vec<Value<A>, A>, AllocError> {
    let mut values = Vec::new(alloc);
    for _ in 0..count {
        values.push(Value::U32(7))?;
    }
    Ok(values)
}

fn lone_entry<A: Allocator>(alloc: A) -> Result<Value<A>, AllocError> {
    let entry = DictEntry {
        key: Value::Byte(1),
        value: Value::Byte(2),
    };
    Ok(Value::Entry(Box::new(alloc, entry)?))
}

// The value of a kind.
fn value_in<A: Allocator + Copy>(alloc: A, kind: Kind, said: &str) -> Result<Value<A>, AllocError> {
    let count = said.parse::<usize>().unwrap_or(0);
    Ok(match kind {
        Kind::Byte => Value::Byte(u8::try_from(count).unwrap_or(0)),
        Kind::U32 => Value::U32(u32::try_from(count).unwrap_or(0)),
        Kind::Fd => Value::Fd(u32::try_from(count).unwrap_or(0)),
        Kind::Str => Value::Str(text_of(alloc, said)),
        Kind::Path => Value::Path(text_of(alloc, said)),
        Kind::Sig => Value::Sig(text_of(alloc, said)),
        Kind::Variants => variants(alloc, count)?,
        Kind::Zeros => Value::Bytes(zeros(alloc, count)?),
        Kind::Struct => Value::Struct(numbers(alloc, count)?),
        Kind::Bytes => Value::Array(SigType::Byte, numbers(alloc, count)?),
        Kind::Longs => Value::Array(SigType::U64, numbers(alloc, count)?),
        Kind::Entry => lone_entry(alloc)?,
    })
}

/// The value that a word makes, of which a colon parts what comes first and what comes then: the
/// code of a BYTE, a UINT32 or an index of a descriptor, and a number; that of a text, and the text
/// in hexadecimal; another type, and the value's bytes in little order; or, if no bytes spell it,
/// `variants:N`, a BYTE within so many; `zeros:N`, so many bytes; a `struct:N`, an array of
/// `bytes:N` and one of `longs:N`, of so many UINT32; and an `entry:` outside of an array.
pub(crate) fn made<A: Allocator + Copy>(
    alloc: A,
    word: &str,
    question: Question<'_>,
) -> Option<Value<A>> {
    let (kind, said) = word.split_once(':')?;
    if let Some(kind) = named(KINDS, kind) {
        return value_in(alloc, kind, said).ok();
    }
    let bytes = bytes_of(alloc, said);
    let asked = Asked::new(question, kind.as_bytes(), bytes.len());
    value_of(alloc, asked.whole(bytes.len()), &bytes)
}

// The type of a value as a signature.
fn type_text<A: Allocator + Copy>(alloc: A, value: &Value<A>) -> Result<String<A>, SigFault> {
    let ty = type_of(alloc, value)?;
    signature_text(alloc, from_ref(&ty))
}

fn say_made<A: Allocator + Copy>(
    reply: &mut Reply,
    memory: Memory<A>,
    value: &Value<A>,
    question: Question<'_>,
) {
    let open = u8::try_from(question.count("open", 0)).unwrap_or(u8::MAX);
    say_checks(reply, memory.heap, value, open, question.limits());
    match copy(memory.heap, value) {
        Ok(copied) => say_checks(reply, memory.heap, &copied, open, question.limits()),
        Err(AllocError) => reply.fail(),
    }
    reply.made(type_text(memory.heap, value));
}

fn say_spelled<A: Allocator + Copy>(
    reply: &mut Reply,
    memory: Memory<A>,
    value: &Value<A>,
    question: Question<'_>,
) -> Option<()> {
    let ty = type_of(memory.spare, value).ok()?;
    let mut types = Vec::new(memory.spare);
    for _ in 0..question.count("times", 1) {
        types.push(ty.clone().ok()?).ok()?;
    }
    say_types(reply, memory.heap, &types);
    Some(())
}

// The values that the words before any setting make.
fn values_of<A: Allocator + Copy>(alloc: A, question: Question<'_>) -> Option<Vec<Value<A>, A>> {
    let mut values = Vec::new(alloc);
    for n in 1..usize::MAX {
        if question.word(n).split_once(':').is_none() {
            break;
        }
        values.push(made(alloc, question.word(n), question)?).ok()?;
    }
    Some(values)
}

/// Adds what is answered of values that words make. Nothing says that they make none.
pub(crate) fn say<A: Allocator + Copy>(
    reply: &mut Reply,
    memory: Memory<A>,
    question: Question<'_>,
    asked: OfMade,
) -> Option<()> {
    if matches!(asked, OfMade::String) {
        let text = text_of(reply.alloc(), question.word(1));
        match Value::text(memory.heap, text.as_str()) {
            Ok(_) => reply.word("accepted"),
            Err(fault) => reply.told(&fault),
        }
        return Some(());
    }
    let values = values_of(memory.spare, question)?;
    let value = values.first()?;
    match asked {
        OfMade::Past => reply.found(first_past(&values, question.uint32("fds"))),
        OfMade::Spelled => say_spelled(reply, memory, value, question)?,
        _ => say_made(reply, memory, value, question),
    }
    Some(())
}
