//! The fronts of values, taken one by one.
#![tactic(auto)]

ghost use Rattle.std.specs.Prelude.{◌≡◌, ◌-◌, ◌<◌, length, slice_index, IfOk, IfErr, ◌⊎◌};

use crate::fronts::{array_front, front, number_front, padding, rest_after};
use crate::values::{Doing, OpenContainer, ValueChecker};
use dbus_types::boundary;
use dbus_value_model::{Reason, Stop, refuse};

impl ValueChecker {
    ghost use Rattle.dbus_value_checker.specs.Fronts.{IsNumberCode};
    ghost use Rattle.dbus_value_checker.specs.Denotations.{Answer, Wants, Ready, Numbers};
    ghost use Rattle.dbus_value_checker.specs.Moves.{Moves, wide};
    ghost use Rattle.dbus_value_model.specs.declared.stop.Stop.TheVariants.{Partial};

    /// A number, whose padding of n bytes is there.
    pub(crate) fn number(
        &mut self,
        pos: usize,
        stop: usize,
        n: usize,
        code: u8,
        bytes: &[u8],
    ) -> Result<usize, Stop>
        requires valid { (answer : Answer) × Ready self.old pos stop n answer }
        requires code { slice_index self.old.text.items pos ≡ code }
        requires alone { IsNumberCode code }
        ensures moves { (answer : Answer) → Ready self.old pos stop n answer →
            Moves self.old bytes.now result self.new answer }
        ensures some { IfOk result (λ n. 0 < n) }
        ensures short { IfErr result (λ e. e ≡ Partial → length bytes.now < 8) }
    {
        let at = self.offset + n;
        match number_front(code, bytes, at, self.inner.end, self.order, self.bounds.fds) {
            Ok(width) => {
                self.offset = at + width;
                self.next();
                Ok(width)
            }
            Err(stop) => Err(stop),
        }
    }

    /// An array, whose padding of n bytes is there.
    pub(crate) fn array(
        &mut self,
        pos: usize,
        stop: usize,
        n: usize,
        bytes: &[u8],
    ) -> Result<usize, Stop>
        requires valid { (answer : Answer) × Ready self.old pos stop n answer }
        requires code { slice_index self.old.text.items pos ≡ 97 }
        ensures moves { (answer : Answer) → Ready self.old pos stop n answer →
            Moves self.old bytes.now result self.new answer }
        ensures some { IfOk result (λ n. 0 < n) }
        ensures short { IfErr result (λ e. e ≡ Partial → length bytes.now < 12) }
    {
        let at = self.offset + n;
        let depth_left = self.inner.depth_left;
        if depth_left == 0 {
            return refuse(at, Reason::TooDeep);
        }
        let code = self.text.as_slice()[pos + 1];
        match array_front(code, bytes, at, self.inner.end, self.order, self.bounds) {
            Ok((size, taken)) => {
                self.offset = at + taken;
                self.frames.push(self.inner);
                self.inner = OpenContainer {
                    array: true,
                    pos: pos + 1,
                    stop,
                    top: self.inner.top,
                    end: self.offset + size,
                    depth_left: depth_left - 1,
                };
                self.next();
                Ok(taken)
            }
            Err(stop) => Err(stop),
        }
    }

    /// So many bytes of an array's numbers: as many as are there.
    pub(crate) fn numbers(&mut self, left: usize, bytes: &[u8]) -> Result<usize, Stop>
        requires valid { (answer : Answer) × Numbers self.old left answer }
        requires more { 0 < left }
        ensures moves { (answer : Answer) → Numbers self.old left answer →
            Moves self.old bytes.now result self.new answer }
        ensures some { IfOk result (λ n. 0 < n) }
        ensures short { IfErr result (λ e. e ≡ Partial → length bytes.now < 1) }
    {
        let n = front(bytes, left).len();
        if n == 0 {
            return Err(Stop::Partial);
        }
        self.offset += n;
        if n < left {
            self.doing = Doing::Numbers(left - n);
            return Ok(n);
        }
        self.next();
        Ok(n)
    }

    /// A value, whose padding of n bytes is there.
    pub(crate) fn item(
        &mut self,
        pos: usize,
        stop: usize,
        n: usize,
        code: u8,
        bytes: &[u8],
    ) -> Result<usize, Stop>
        requires valid { (answer : Answer) × Ready self.old pos stop n answer }
        requires code { slice_index self.old.text.items pos ≡ code }
        ensures moves { (answer : Answer) → Ready self.old pos stop n answer →
            Moves self.old bytes.now result self.new answer }
        ensures further { IfOk result (λ n. (0 < n) ⊎ (wide self.new.doing < stop - pos)) }
        ensures short { IfErr result (λ e. e ≡ Partial → length bytes.now < 12) }
    {
        if code == b'{' {
            self.open_entry(pos, stop, n);
            return Ok(0);
        }
        if code == b'(' {
            return match self.open_structs(pos, stop, n) {
                Ok(()) => Ok(0),
                Err(stop) => Err(stop),
            };
        }
        if code == b'a' {
            return self.array(pos, stop, n, bytes);
        }
        if code == b's' || code == b'o' || code == b'g' {
            return self.string(pos, stop, n, code, bytes);
        }
        if code == b'v' {
            return self.variant(pos, stop, n, bytes);
        }
        self.number(pos, stop, n, code, bytes)
    }

    /// The value that is wanted: its front, if all of it is there.
    pub(crate) fn value(&mut self, pos: usize, stop: usize, bytes: &[u8]) -> Result<usize, Stop>
        requires valid { (answer : Answer) × Wants self.old pos stop answer }
        ensures moves { (answer : Answer) → Wants self.old pos stop answer →
            Moves self.old bytes.now result self.new answer }
        ensures further { IfOk result (λ n. (0 < n) ⊎ (wide self.new.doing < stop - pos)) }
        ensures short { IfErr result (λ e. e ≡ Partial → length bytes.now < 20) }
    {
        let code = self.text.as_slice()[pos];
        match padding(bytes, self.offset, self.inner.end, boundary(code)) {
            Ok(n) => match self.item(pos, stop, n, code, rest_after(bytes, n)) {
                Ok(more) => Ok(n + more),
                Err(stop) => Err(stop),
            },
            Err(stop) => Err(stop),
        }
    }
}
