//! Values that are whole in a piece are validated at once.
#![tactic(auto)]

ghost use Rattle.std.specs.Prelude.{◌≡◌, ◌+◌, ◌<◌, ◌≤◌, ◌⊎◌, length, take, drop, IfSome, IfOk, IfErr};

use crate::fronts::rest_after;
use crate::values::{Doing, ValueChecker};
use dbus_value_model::{Stop, gap};
use dbus_value_validator::{UntrustedBytes, booleans_end, one_value};

/// How many values of a piece are tried in vain. What is tried in vain is gone over twice.
const MOST_MISSES: u8 = 8;

/// Of fewer bytes than that a value is tried only if they are all that it may have.
const FEW: usize = 64;

impl ValueChecker {
    ghost use Rattle.dbus_value_checker.specs.Denotations.{Answer, Denotes, Goes, after_piece};
    ghost use Rattle.dbus_value_checker.specs.Moves.{Moves, IsLive, wide};
    ghost use Rattle.dbus_value_model.specs.declared.stop.Stop.TheVariants.{Partial};

    /// How many bytes the wanted value has, and in an array the elements after it, as far as all of
    /// their bytes are among those after the first n, and they are valid.
    fn whole(&self, bytes: &[u8], n: usize) -> Option<usize>
        requires valid { (answer : Answer) × Denotes self.now answer }
        requires within { n ≤ length bytes.now }
        ensures some { IfSome result (λ m. (0 < m) × (m ≤ length (drop n bytes.now))) }
        ensures goes { IfSome result (λ m. (answer : Answer) → Denotes self.now answer →
            Goes (record self.now { offset = self.now.offset + m }) (after_piece answer (take m (drop n bytes.now)))) }
    {
        let Doing::Wanted(pos, stop) = self.doing else {
            return None;
        };
        // The validator counts padding from the first byte that it is given.
        let before = self.offset % 8;
        if n < before {
            return None;
        }
        let here = &bytes[n - before..];
        let end = here.len().min(before + (self.inner.end - self.offset));
        let source = UntrustedBytes {
            bytes: here,
            order: self.order,
            bounds: self.bounds,
            lengths: self.lengths.as_slice(),
        };
        let types = &self.text.as_slice()[pos..stop];
        if self.inner.array && types[0] == b'b' && gap(4, before) == 0 {
            // BOOLEANs are known by their words.
            let after = booleans_end(here, before, end, self.order);
            return if before < after {
                Some(after - before)
            } else {
                None
            };
        }
        let mut after = before;
        while after < end {
            match one_value(&source, after, end, types, pos, self.inner.depth_left) {
                Some(next) if after < next => after = next,
                _ => break,
            }
            if !self.inner.array {
                break;
            }
        }
        if after == before {
            return None;
        }
        Some(after - before)
    }

    /// Whether what is wanted is worth trying at once: elements of arrays and, of the values around
    /// all others, variants and those whose type is longer than one code, so that what is tried in
    /// vain because the bytes end is tried once.
    fn is_tried(&self, bytes: &[u8], n: usize) -> bool
        requires within { n ≤ length bytes.now }
    {
        let Doing::Wanted(pos, stop) = self.doing else {
            return false;
        };
        let left = bytes.len() - n;
        if left < FEW && self.offset.saturating_add(left) < self.inner.end {
            return false;
        }
        self.inner.array
            || self.frames.is_empty()
                && (stop.saturating_sub(pos) > 1 || self.text.as_slice().get(pos) == Some(&b'v'))
    }

    /// Takes what is wanted from the bytes after the first n: whole values at once, or what the
    /// next step takes.
    pub(crate) fn advance(&mut self, bytes: &[u8], n: usize, misses: &mut u8) -> Result<usize, Stop>
        requires valid { (answer : Answer) × Denotes self.old answer }
        requires live { IsLive self.old.doing }
        requires within { n ≤ length bytes.now }
        ensures moves { (answer : Answer) → Denotes self.old answer →
            Moves self.old (drop n bytes.now) result self.new answer }
        ensures further { IfOk result (λ m. (0 < m) ⊎ (wide self.new.doing < wide self.old.doing)) }
        ensures short { IfErr result (λ e. e ≡ Partial → length (drop n bytes.now) < 20) }
    {
        if *misses < MOST_MISSES && self.is_tried(bytes, n) {
            if let Some(size) = self.whole(bytes, n) {
                self.offset += size;
                self.next();
                return Ok(size);
            }
            *misses += 1;
        }
        self.step(rest_after(bytes, n))
    }
}
