//! Variants: the signature of a value, whose bytes may come in pieces, and then the value. D-Bus
//! Specification, "Variant".
#![tactic(auto)]

ghost use Rattle.std.specs.Prelude.{◌≡◌, ◌+◌, ◌<◌, ◌≤◌, ◌++◌, ◌↔◌, length, slice_index, IfOk};
ghost use Rattle.std.specs.Prelude.{IfErr, IsTrue};
ghost use Rattle.dbus_texts.specs.declared.text_kind.TextKind.TheVariants.{Single};

use crate::fronts::short_length_front;
use crate::signatures::sign;
use crate::values::{Doing, OpenContainer, ValueChecker};
use arrayvec::ArrayVec;
use dbus_types::{TextKind, TextScan};
use dbus_value_model::{Reason, Stop, refuse};

/// Whether the texts of a kind are the signatures of variants.
pub(crate) fn is_held(kind: TextKind) -> bool
    ensures { IsTrue result ↔ (kind ≡ Single) }
{
    matches!(kind, TextKind::Single)
}

/// Keeps more bytes of a text if it is the signature of a variant.
pub(crate) fn keep(held: &mut ArrayVec<u8, 255>, kind: TextKind, more: &[u8])
    ensures { kind ≡ Single → length held.old.items + length more.now ≤ 255 →
        held.new.items ≡ held.old.items ++ more.now }
{
    if !is_held(kind) {
        return;
    }
    match held.try_extend_from_slice(more) {
        Ok(()) => {}
        // There is room for them.
        Err(_) => {}
    }
}

impl ValueChecker {
    ghost use Rattle.dbus_value_checker.specs.Denotations.{Answer, Denotes, Ready, Held};
    ghost use Rattle.dbus_value_checker.specs.Moves.{Moves};
    ghost use Rattle.dbus_value_model.specs.declared.stop.Stop.TheVariants.{Partial};

    /// A variant, n bytes on: the length of its value's signature.
    pub(crate) fn variant(
        &mut self,
        pos: usize,
        stop: usize,
        n: usize,
        bytes: &[u8],
    ) -> Result<usize, Stop>
        requires valid { (answer : Answer) × Ready self.old pos stop n answer }
        requires code { slice_index self.old.text.items pos ≡ 118 }
        ensures moves { (answer : Answer) → Ready self.old pos stop n answer →
            Moves self.old bytes.now result self.new answer }
        ensures some { IfOk result (λ n. 0 < n) }
        ensures short { IfErr result (λ e. e ≡ Partial → length bytes.now < 1) }
    {
        let at = self.offset + n;
        let depth_left = self.inner.depth_left;
        if depth_left == 0 {
            return refuse(at, Reason::TooDeep);
        }
        match short_length_front(bytes, at, self.inner.end) {
            Ok(size) => {
                self.offset = at + 1;
                self.scan = TextScan::new(TextKind::Single);
                self.held.clear();
                match self.text_on(TextKind::Single, size) {
                    Ok(()) => Ok(1),
                    Err(stop) => Err(stop),
                }
            }
            Err(stop) => Err(stop),
        }
    }

    /// The signature of a variant is whole: it is noted, and after the zero a value of its type is
    /// wanted.
    pub(crate) fn hold(&mut self)
        requires valid { (answer : Answer) × Held self.old answer }
        ensures { (answer : Answer) → Held self.old answer → Denotes self.new answer }
    {
        let top = self.inner.top;
        let stop = top + self.held.len();
        sign(&mut self.text, &mut self.lengths, top, self.held.as_slice());
        self.frames.push(self.inner);
        self.inner = OpenContainer {
            array: false,
            pos: top,
            stop,
            top: stop,
            end: self.inner.end,
            depth_left: self.inner.depth_left - 1,
        };
        self.doing = Doing::Nul;
    }
}
