//! One pair of a rule's text.
#![tactic(auto)]

ghost use Rattle.std.specs.Prelude.{◌≡◌, ◌↔◌, ℕ, ◌≤◌, ◌<◌, List, [], drop, length, IfOk, IfErr, IsTrue, string_bytes};
ghost use Rattle.std.specs.Str.{IsUtf8};
ghost use Rattle.dbus_rule.specs.Values.{IsClosed};
ghost use Rattle.dbus_rule.specs.Rules.{HasKey, condition_pair, condition_pairs};
ghost use Rattle.dbus_rule.specs.Faults.{NoSpaceFirst};
ghost use Rattle.dbus_rule.specs.PairReadings.{name_cut, name_cut_of, IsClash, IsOpenFault, IsFaultAt, IsKeyAt, IsPairAt};

use crate::condition::Condition;
use crate::fault::{RuleFault, RuleReason};
use crate::key::Key;
use crate::key_name::key_of;
use crate::value_cut::{Cut, cut_value};
use std::alloc::{AllocError, Allocator};

/// The place of the first `=` from `from` on; if a comma or the text's end comes before one, its
/// place.
fn find_equals(text: &[u8], from: usize) -> Result<usize, usize>
    requires { from ≤ length text.now }
    ensures cut { name_cut_of result ≡ name_cut from (drop from text.now) }
    ensures within { IfOk result (λ at. (from ≤ at) × (at < length text.now)) }
{
    for i in from..text.len() {
        match text[i] {
            b'=' => return Ok(i),
            b',' => return Err(i),
            _ => {}
        }
    }
    Err(text.len())
}

/// Whether one of the conditions has the key.
#[tactic(auto, using(crate::proofs::SortedConditions::has_at))]
fn has_key<A: Allocator>(conditions: &[Condition<A>], key: Key) -> bool
    ensures { IsTrue result ↔ HasKey key (condition_pairs conditions.now) }
{
    for condition in conditions {
        if condition.key.is(key) {
            return true;
        }
    }
    false
}

/// Why the key may not follow the conditions.
fn clash<A: Allocator>(conditions: &[Condition<A>], key: Key) -> Option<RuleReason>
    ensures { IsClash (condition_pairs conditions.now) key result }
{
    if has_key(conditions, key) {
        return Some(RuleReason::KeyTwice);
    }
    let excluded = match key {
        Key::Path => has_key(conditions, Key::PathNamespace),
        Key::PathNamespace => has_key(conditions, Key::Path),
        _ => false,
    };
    if excluded {
        Some(RuleReason::PathAndNamespace)
    } else {
        None
    }
}

/// The key at `from`, and the place where its value's text begins.
fn read_key<A: Allocator>(
    text: &[u8],
    from: usize,
    conditions: &[Condition<A>],
) -> Result<(Key, usize), RuleFault>
    requires within { from < length text.now }
    requires first { NoSpaceFirst (drop from text.now) }
    ensures key { IfOk result (λ r.
        IsKeyAt (condition_pairs conditions.now) text.now from r.0 r.1) }
    ensures fault { IfErr result (λ e. IsFaultAt (condition_pairs conditions.now) text.now from e) }
{
    let equals = match find_equals(text, from) {
        Ok(equals) => equals,
        Err(at) => return Err(RuleFault::Bad {
            at,
            reason: RuleReason::NoEquals,
        }),
    };
    let key = match key_of(&text[from..equals]) {
        Some(key) => key,
        None => return Err(RuleFault::Bad {
            at: from,
            reason: RuleReason::KeyName,
        }),
    };
    match clash(conditions, key) {
        Some(reason) => Err(RuleFault::Bad { at: from, reason }),
        None => Ok((key, equals + 1)),
    }
}

/// The value whose text begins at `from`, and the place where its text ends.
#[tactic(auto, using(crate::proofs::Values::reads_closed, crate::proofs::Values::reads_open, crate::proofs::Values::is_closed, crate::proofs::Values::is_open))]
fn read_value<A: Allocator + Copy>(
    alloc: A,
    text: &str,
    from: usize,
) -> Result<(String<A>, usize), RuleFault>
    requires within { from ≤ length text.now }
    requires whole { IsUtf8 (drop from text.now) }
    ensures value { IfOk result (λ r.
        IsClosed from [] (drop from text.now) (string_bytes r.0) r.1 (drop r.1 text.now)) }
    ensures fault { IfErr result (λ e. IsOpenFault text.now from e) }
{
    match cut_value(alloc, text.as_bytes(), from)? {
        Cut::Closed(bytes, end) => Ok((String::from_utf8(bytes).unwrap(), end)),
        Cut::Open(at) => Err(RuleFault::Bad {
            at,
            reason: RuleReason::OpenQuote,
        }),
    }
}

/// The pair at `from`, and the place where its text ends.
#[tactic(auto, using(crate::proofs::PairReadings::value_whole, crate::proofs::PairReadings::open_fault, crate::proofs::PairReadings::value_ends))]
pub(crate) fn read_pair<A: Allocator + Copy>(
    alloc: A,
    text: &str,
    from: usize,
    conditions: &[Condition<A>],
) -> Result<(Condition<A>, usize), RuleFault>
    requires within { from < length text.now }
    requires first { NoSpaceFirst (drop from text.now) }
    ensures within { IfOk result (λ r. r.1 ≤ length text.now) }
    ensures pair { IfOk result (λ r.
        IsPairAt (condition_pairs conditions.now) text.now from (condition_pair r.0) r.1) }
    ensures fault { IfErr result (λ e. IsFaultAt (condition_pairs conditions.now) text.now from e) }
{
    let (key, value_from) = read_key(text.as_bytes(), from, conditions)?;
    let (value, end) = read_value(alloc, text, value_from)?;
    if !key.takes(value.as_str()) {
        return Err(RuleFault::Bad {
            at: value_from,
            reason: RuleReason::BadValue,
        });
    }
    Ok((Condition { key, value }, end))
}
