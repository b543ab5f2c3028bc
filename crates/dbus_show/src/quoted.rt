//! Texts with their escapes.
#![tactic(auto)]

ghost use Rattle.std.specs.Prelude.{◌≡◌, ◌<◌, ◌++◌, ℕ, List, encode_utf8, length, drop, true, MatchOption, IsCharBoundary};
ghost use Rattle.dbus_show.specs.Escapes.{escape, escaped, is_escaped, quoted_by};
ghost use Rattle.dbus_show.specs.ShownValues.{quoted};
ghost use Rattle.dbus_show.specs.PlainFronts.{IsEscapedAt, IsPlainFront};

use crate::draft::Draft;
use crate::escapes::{Escapes, is_escaped, write_escape};
use crate::runs::{Beyond, run_length};

/// Whether the character at a place is escaped.
fn is_escaped_at(text: &str, at: usize, escapes: Escapes) -> bool
    requires { IsCharBoundary text.now at }
    ensures { (c : ℕ) (rest : List ℕ) → drop at text.now ≡ encode_utf8 c ++ rest →
        result ≡ is_escaped escapes c }
{
    match text[at..].chars().next() {
        Some(character) => is_escaped(character, escapes),
        None => false,
    }
}

/// How many bytes come before the first character that is escaped, if those before `start` come
/// before it.
#[inline(never)]
fn plain_length_from(text: &str, start: usize, escapes: Escapes) -> usize
    requires { IsPlainFront escapes text.now start }
    ensures plain { IsPlainFront escapes text.now result }
    ensures stops { IsEscapedAt escapes text.now result }
{
    let bytes = text.as_bytes();
    let mut at = start;
    while at < bytes.len() && !is_escaped_at(text, at, escapes) {
        let next = at + 1;
        at = next + run_length(&bytes[next..], Beyond::Leads);
    }
    at
}

/// How many bytes come before the first character that is escaped.
#[inline]
fn plain_length(text: &str, escapes: Escapes) -> usize
    ensures plain { IsPlainFront escapes text.now result }
    ensures stops { IsEscapedAt escapes text.now result }
{
    let run = run_length(text.as_bytes(), Beyond::Each);
    if run == text.len() {
        return run;
    }
    plain_length_from(text, run, escapes)
}

/// The text before the first character that is escaped, that character, and the text after it.
fn split_escaped(text: &str, escapes: Escapes) -> Option<(&str, char, &str)>
    ensures { MatchOption result (escaped escapes text.now ≡ text.now) (λ r.
        (escaped escapes text.now ≡ r.0.now ++ (escape escapes r.1 ++ escaped escapes r.2.now))
        × (is_escaped escapes r.1 ≡ true) × (length r.2.now < length text.now)) }
{
    let (plain, rest) = text.split_at(plain_length(text, escapes));
    let mut characters = rest.chars();
    let character = characters.next()?;
    Some((plain, character, characters.as_str()))
}

/// Whether the draft is full, so that nothing of this text need be appended.
#[inline(always)]
fn is_full_for<D: Draft>(draft: &D, _text: &str, _escapes: Escapes) -> bool
    ensures { result ≡ true → D.gains draft.now (escaped _escapes _text.now) draft.now }
{
    draft.is_full()
}

/// Appends a text with its escapes. What is between two of them is copied at once. Once the draft
/// is full, what is left of the text is not looked at.
#[inline(never)]
pub fn write_escaped<D: Draft>(draft: &mut D, text: &str, escapes: Escapes)
    ensures { D.gains draft.old (escaped escapes text.now) draft.new }
{
    let mut rest = text;
    while let Some((plain, character, after)) = split_escaped(rest, escapes) {
        if is_full_for(draft, rest, escapes) {
            return;
        }
        draft.push_str(plain);
        write_escape(draft, character, escapes);
        rest = after;
    }
    draft.push_str(rest);
}

/// Appends a text between quotation marks, with its escapes.
pub fn write_quoted_by<D: Draft>(draft: &mut D, text: &str, escapes: Escapes)
    ensures { D.gains draft.old (quoted_by escapes text.now) draft.new }
{
    if plain_length(text, escapes) == text.len() {
        draft.push_between("\"", text, "\"");
        return;
    }
    draft.push_code(b'"');
    write_escaped(draft, text, escapes);
    draft.push_code(b'"');
}

/// Appends a text between quotation marks, with the escapes of [`Escapes::Shown`].
pub fn write_quoted<D: Draft>(draft: &mut D, text: &str)
    ensures { D.gains draft.old (quoted text.now) draft.new }
{
    write_quoted_by(draft, text, Escapes::Shown);
}
