//! Texts of every kind: names, paths and signatures, and the types that these spell.

ghost use Rattle.std.specs.Prelude.{◌<◌, length};

use case_questions::{Engine, Memory, Question, Reply, named, say_places, split};
use dbus_types::{
    SigType, TextKind, TextScan, alignment, boundary, check_bus_name, check_error_name,
    check_interface, check_member, check_path, check_signature, check_single, first_break,
    is_unique, parse_signature, parse_single, signature_text, text_break, type_end, type_ok,
};
use std::alloc::Allocator;

/// What is asked of a text.
#[derive(Clone, Copy)]
pub(crate) enum OfText {
    /// What it is as one of a kind.
    Verdict,
    /// Where it breaks, what a scan takes of it byte by byte, and what the check of the kind says.
    Calls,
    /// What a scan takes of it in two pieces.
    InTwo,
    /// What types it spells.
    Parse,
}

const KINDS: &[(&str, TextKind)] = &[
    ("text", TextKind::Text),
    ("path", TextKind::Path),
    ("interface", TextKind::Interface),
    ("error_name", TextKind::ErrorName),
    ("member", TextKind::Member),
    ("bus_name", TextKind::BusName),
    ("signature", TextKind::Signature),
    ("single", TextKind::Single),
];

// What a text is as one of a kind, as a column has it.
fn say_verdict(reply: &mut Reply, kind: TextKind, text: &[u8]) {
    match text_break(kind, text) {
        Some(at) if kind.is_limited() && text.len() > 255 => reply.counted("too long", at as u64),
        Some(at) => reply.counted("bad", at as u64),
        None if kind != TextKind::BusName => reply.word("accepted"),
        None if is_unique(text) => reply.word("unique"),
        None => reply.word("well-known"),
    }
}

// What the check of a kind says.
fn say_check(reply: &mut Reply, kind: TextKind, text: &[u8]) {
    match kind {
        TextKind::Path => reply.checked(check_path(text)),
        TextKind::Interface => reply.checked(check_interface(text)),
        TextKind::ErrorName => reply.checked(check_error_name(text)),
        TextKind::Member => reply.checked(check_member(text)),
        TextKind::BusName => reply.checked(check_bus_name(text)),
        TextKind::Signature => reply.checked(check_signature(text)),
        TextKind::Single => reply.checked(check_single(text)),
        TextKind::Text => reply.word("no check"),
    }
}

// What a scan comes to that took so many bytes of a text.
fn say_scanned(reply: &mut Reply, scan: TextScan, taken: usize, text: &[u8]) {
    let is_ended = taken == text.len() && scan.end();
    reply.counted(if is_ended { "ended" } else { "taken" }, taken as u64);
}

// What a scan takes of a text byte by byte.
fn say_by_bytes(reply: &mut Reply, kind: TextKind, text: &[u8]) {
    let mut scan = TextScan::new(kind);
    for (taken, byte) in text.iter().enumerate() {
        if !scan.step(*byte) {
            return reply.counted("taken", taken as u64);
        }
    }
    say_scanned(reply, scan, text.len(), text);
}

// A scan of a text in two pieces.
#[derive(Clone, Copy)]
struct InTwo<'a> {
    kind: TextKind,
    text: &'a [u8],
}

impl Engine for InTwo<'_> {
    fn say(&mut self, reply: &mut Reply, place: usize) {
        let (first, rest) = split(self.text, place);
        let mut scan = TextScan::new(self.kind);
        let mut taken = scan.take(first);
        if taken == first.len() {
            taken = taken.saturating_add(scan.take(rest));
        }
        say_scanned(reply, scan, taken, self.text);
    }
}

// Where the types end that a signature spells, one after the other: how many there are.
fn count_ends(text: &[u8]) -> u64 {
    let mut pos = 0;
    let mut count = 0u64;
    for _ in 0..text.len() {
        if pos >= text.len() {
            break;
        }
        pos = type_end(text, pos);
        count = count.saturating_add(1);
    }
    count
}

/// Adds what types spell, and whether each is a type.
pub(crate) fn say_types<A: Allocator + Copy>(reply: &mut Reply, alloc: A, types: &[SigType<A>]) {
    reply.made(signature_text(alloc, types));
    let are_types = types.iter().all(|ty| type_ok(ty));
    reply.word(if are_types { "types" } else { "no types" });
}

// What a text is that is parsed as one type: its alignment, the one that its code alone says, and
// whether it is a type.
fn say_single<A: Allocator + Copy>(reply: &mut Reply, alloc: A, text: &[u8]) {
    match parse_single(alloc, text) {
        Ok(ty) => {
            reply.number(u64::from(alignment(&ty)));
            if let Some(code) = text.first() {
                reply.number(u64::from(boundary(*code)));
            }
            reply.word(if type_ok(&ty) { "type" } else { "no type" });
        }
        Err(fault) => reply.told(&fault),
    }
}

// The types that a text is parsed as: how many they are, twice, and what they spell.
fn say_signature<A: Allocator + Copy>(reply: &mut Reply, alloc: A, text: &[u8]) {
    match parse_signature(alloc, text) {
        Ok(types) => {
            reply.number(types.len() as u64);
            reply.number(count_ends(text));
            say_types(reply, alloc, &types);
        }
        Err(fault) => reply.told(&fault),
    }
}

/// Adds what is answered of a text.
pub(crate) fn say<A: Allocator + Copy>(
    reply: &mut Reply,
    memory: Memory<A>,
    question: Question<'_>,
    asked: OfText,
) -> Option<()> {
    let kind = named(KINDS, question.word(1))?;
    let text = question.bytes(reply.alloc(), 2);
    match asked {
        OfText::Verdict => say_verdict(reply, kind, &text),
        OfText::Calls => {
            reply.number(first_break(kind, &text) as u64);
            say_by_bytes(reply, kind, &text);
            say_check(reply, kind, &text);
        }
        OfText::InTwo => {
            let mut engine = InTwo { kind, text: &text };
            say_places(reply, question, &mut engine, 0, text.len());
        }
        OfText::Parse if kind == TextKind::Single => say_single(reply, memory.heap, &text),
        OfText::Parse => say_signature(reply, memory.heap, &text),
    }
    Some(())
}
