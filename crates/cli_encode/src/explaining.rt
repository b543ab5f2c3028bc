//! What explains why a line is refused.
#![tactic(auto)]

ghost use Rattle.std.specs.Prelude.{◌≡◌, IfOk, OnOk, drop, string_bytes, take, true};
ghost use Rattle.cli_encode.specs.Explained.{before, explanation, lines_of, part_lines, there};

use crate::reason::{LineReason, Refusal};
use crate::rules::write_rule;
use dbus_explain::write_marked_line;
use dbus_show::{Draft, StringDraft};
use std::alloc::{AllocError, Allocator};

/// How many bytes of a line are shown before the place, and from there on.
const BEFORE: usize = 40;

const THERE: usize = 36;

/// What explains why a line is refused, if that is wanted: the part of it around the place, unless
/// it is too long, and the rule that is broken there.
pub(crate) fn explanation<A: Allocator + Copy>(
    alloc: A,
    explains: bool,
    line: &[u8],
    refusal: Refusal,
) -> Result<String<A>, AllocError>
    ensures { IfOk result (λ text. string_bytes text ≡ explanation explains line.now refusal) }
{
    let mut text = String::new(alloc);
    if explains {
        explain_into(alloc, line, refusal, &mut text)?;
    }
    Ok(text)
}

// Writes that into a string.
fn explain_into<A: Allocator + Copy>(
    alloc: A,
    line: &[u8],
    refusal: Refusal,
    out: &mut String<A>,
) -> Result<(), AllocError>
    ensures { OnOk result (string_bytes out.new ≡ explanation true line.now refusal) }
{
    let before = before(alloc, line, refusal.at)?;
    let there = there(alloc, line, refusal.at)?;
    let mut draft = StringDraft::new(out);
    write_explanation(&mut draft, before.as_str(), there.as_str(), refusal.reason);
    draft.finish()
}

// Appends the lines, of which the first two show these parts of the line.
fn write_explanation<D: Draft>(draft: &mut D, before: &str, there: &str, reason: LineReason)
    ensures { D.gains draft.old (lines_of reason before.now there.now) draft.new }
{
    write_part(draft, before, there, reason);
    draft.push_str("  ");
    write_rule(draft, reason);
    draft.push_str("\n");
}

// Appends the lines of the part, unless the line is too long.
fn write_part<D: Draft>(draft: &mut D, before: &str, there: &str, reason: LineReason)
    ensures { D.gains draft.old (part_lines reason before.now there.now) draft.new }
{
    match reason {
        LineReason::TooLong => {}
        LineReason::Unspelled(_) => write_marked_line(draft, before, there),
    }
}

// The part of a line before a place, as text.
fn before<A: Allocator>(alloc: A, line: &[u8], at: usize) -> Result<String<A>, AllocError>
    ensures { IfOk result (λ text. string_bytes text ≡ before line.now at) }
{
    let front = &line[..at.min(line.len())];
    String::from_utf8_lossy(alloc, &front[front.len().saturating_sub(BEFORE)..])
}

// The part of a line from a place on, as text.
fn there<A: Allocator>(alloc: A, line: &[u8], at: usize) -> Result<String<A>, AllocError>
    ensures { IfOk result (λ text. string_bytes text ≡ there line.now at) }
{
    String::from_utf8_lossy(alloc, first_from(line, at))
}

// The bytes of that part.
#[tactic(auto, using(std::proofs::lemmas::List::take_min))]
fn first_from(line: &[u8], at: usize) -> &[u8]
    ensures { result.now ≡ take 36 (drop at line.now) }
{
    let rest = rest_from(line, at);
    &rest[..THERE.min(rest.len())]
}

// The bytes of a line from a place on.
#[tactic(auto, using(std::proofs::lemmas::List::drop_min))]
fn rest_from(line: &[u8], at: usize) -> &[u8]
    ensures { result.now ≡ drop at line.now }
{
    &line[at.min(line.len())..]
}
