//! Where messages begin again behind one that is refused.
ghost use Rattle.std.specs.Prelude.{◌≡◌, ◌≤◌, ◌<◌, ℕ, None, true, false, length, take, IfSome};
ghost use Rattle.dbus_resync.specs.declared.found.Found.TheVariants.{At};
ghost use Rattle.dbus_stream.specs.GoingOn.{LeadsNowhere, LeadsOn, LooksBehind, Resumes, Seeks};
ghost use Rattle.dbus_stream.specs.LookingAhead.{Meets};
ghost use Rattle.dbus_stream.specs.StatedSizes.{StatesSize, WantsMore};

use crate::refused::{Refused, Size};
use dbus_resync::{Found, Searched, first_message, size_there};
use dbus_validate::validate;
use dbus_value_model::Limits;

/// What is looked for first: behind as many bytes as a refused message states, the next one.
#[derive(Clone, Copy)]
pub(crate) struct Behind {
    /// Whether it is looked for.
    pub(crate) by_size: bool,
    pub(crate) limits: Limits,
    /// Among how many bytes.
    pub(crate) window: usize,
}

impl Behind {
    /// Whether a whole one is there, which was not among the first bytes, so many as `before`. It
    /// is validated only if its end is behind these: so each one once.
    pub(crate) fn is_met(&self, bytes: &[u8], before: usize) -> bool
        ensures met { result ≡ true → Meets self.now bytes.now }
        ensures none { result ≡ false → (Meets self.now (take before bytes.now) → ⊥) →
            Meets self.now bytes.now → ⊥ }
    {
        let wide = self.window.min(bytes.len());
        let there = &bytes[..wide];
        let Some(end) = end_stated(there, self.limits) else {
            return false;
        };
        let rest = &there[end..];
        if end + size_there(rest, self.limits) <= before {
            return false;
        }
        self.by_size && validate(rest, self.limits).is_some()
    }
}

/// Where messages begin again among the bytes of a window, which begin with a refused message: if
/// that is wanted, where the size leads that it states; and else at the first message that is found
/// within the effort.
pub(crate) fn seek_in(
    bytes: &[u8],
    limits: Limits,
    window: usize,
    effort: usize,
    by_size: bool,
) -> Searched
    ensures seeks { Seeks by_size limits window effort bytes.now result }
    ensures inside { (offset : ℕ) → result.found ≡ At offset → offset ≤ length bytes.now }
{
    if by_size {
        resumed(bytes, limits, window, effort)
    } else {
        first_message(bytes, limits, effort)
    }
}

// Where messages begin again: where the size leads that the bytes state, or else at the first one.
fn resumed(bytes: &[u8], limits: Limits, window: usize, effort: usize) -> Searched
    ensures resumes { Resumes limits window effort bytes.now result }
    ensures inside { (offset : ℕ) → result.found ≡ At offset → offset ≤ length bytes.now }
{
    let behind = looked_behind(bytes, limits);
    if behind > effort {
        return Searched {
            found: Found::Spent,
            looked: effort,
        };
    }
    match led_to(bytes, limits, window) {
        Some(end) => Searched {
            found: Found::At(end),
            looked: behind,
        },
        None => {
            let first = first_message(bytes, limits, effort - behind);
            Searched {
                found: first.found,
                looked: behind + first.looked,
            }
        }
    }
}

// How many bytes are looked at for a message behind as many as the bytes state, if these are there.
fn looked_behind(bytes: &[u8], limits: Limits) -> usize
    ensures { LooksBehind limits bytes.now result }
{
    match end_stated(bytes, limits) {
        Some(end) => size_there(&bytes[end..], limits),
        None => 0,
    }
}

// The size that the bytes state, if that leads on.
fn led_to(bytes: &[u8], limits: Limits, window: usize) -> Option<usize>
    ensures leads { IfSome result (λ end. LeadsOn limits window bytes.now end) }
    ensures none { result ≡ None → LeadsNowhere limits window bytes.now }
    ensures inside { IfSome result (λ end. end ≤ length bytes.now) }
{
    let Some(end) = end_stated(bytes, limits) else {
        return None;
    };
    if end == bytes.len() && end < window {
        return Some(end);
    }
    let rest = &bytes[end..];
    if validate(rest, limits).is_some() {
        return Some(end);
    }
    if window <= bytes.len() && wants_more(rest, limits) {
        Some(end)
    } else {
        None
    }
}

// Whether the bytes begin as a message does, and are fewer than it states, or than state its size.
fn wants_more(bytes: &[u8], limits: Limits) -> bool
    ensures wants { result ≡ true → WantsMore limits bytes.now }
    ensures none { result ≡ false → WantsMore limits bytes.now → ⊥ }
{
    let mut message = Refused::nothing();
    message.drop_bytes(bytes);
    match message.size(limits) {
        Size::Wanted => true,
        Size::There(_) => false,
        Size::Unstated => false,
    }
}

// The size that the bytes state, if so many are there.
fn end_stated(bytes: &[u8], limits: Limits) -> Option<usize>
    ensures states { IfSome result (λ end. StatesSize limits bytes.now end) }
    ensures inside { IfSome result (λ end. end ≤ length bytes.now) }
    ensures none { result ≡ None → (size : ℕ) → StatesSize limits bytes.now size →
        length bytes.now < size }
{
    let mut message = Refused::nothing();
    message.drop_bytes(bytes);
    match message.size(limits) {
        Size::There(size) => Some(size as usize),
        Size::Wanted => None,
        Size::Unstated => None,
    }
}
