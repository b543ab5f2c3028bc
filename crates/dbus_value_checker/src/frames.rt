//! The containers that are open: which value is wanted next, and how a container is entered and
//! left.
#![tactic(auto)]

ghost use Rattle.std.specs.Prelude.{◌≡◌, ◌≢◌, ◌+◌, ◌-◌, ◌<◌, ◌≤◌, ◌^◌, length, take, slice_index};
ghost use Rattle.std.specs.Prelude.{true, IfOk, IfErr, IfSome};

use crate::values::{Doing, OpenContainer, ValueChecker};
use dbus_types::{boundary, free_width};
use dbus_value_model::{Reason, Stop, gap, refuse};

impl ValueChecker {
    ghost use Rattle.dbus_types.specs.SignatureCodes.{IsTypeEnd};
    ghost use Rattle.dbus_value_checker.specs.Denotations.{Answer, Denotes, Goes, HasNotes, Ready};
    ghost use Rattle.dbus_value_checker.specs.Denotations.{denotes, IsNoted};
    ghost use Rattle.dbus_value_checker.specs.Moves.{Aside, Opens, Enters, wide};
    ghost use Rattle.dbus_value_model.specs.declared.stop.Stop.TheVariants.{Partial};

    /// Passes over the next type, and returns the place after it.
    pub(crate) fn part(&mut self) -> usize
        requires pos { self.old.inner.pos < self.old.inner.stop }
        requires stop { self.old.inner.stop ≤ length self.old.text.items }
        requires noted { HasNotes self.old }
        ensures value { IsTypeEnd (take self.old.inner.stop self.old.text.items) self.old.inner.pos
            result }
        ensures moved { self.new ≡ record self.old
            { inner = record self.old.inner { pos = result } } }
        ensures within { result ≤ self.old.inner.stop }
    {
        let n = usize::from(self.lengths.as_slice()[self.inner.pos]);
        let stop = self.inner.stop.min(self.inner.pos + n);
        self.inner.pos = stop;
        stop
    }

    /// Next in an array: the bytes of all of its whole numbers, if none need be looked at; else one
    /// element.
    fn element(&self) -> Doing
        requires valid { (answer : Answer) × Goes self.now answer }
        requires array { self.now.inner.array ≡ true }
        requires more { self.now.offset < self.now.inner.end }
        ensures { (answer : Answer) → Goes self.now answer →
            denotes result (record self.now { doing = result }) answer }
    {
        let width = free_width(self.text.as_slice()[self.inner.pos]);
        if width == 0
            || gap(width, self.offset) > 0
            || self.inner.end - self.offset < usize::from(width)
        {
            return Doing::Wanted(self.inner.pos, self.inner.stop);
        }
        let room = self.inner.end - self.offset;
        Doing::Numbers(room - room % usize::from(width))
    }

    /// The innermost container goes on, or is at its end, and then the one around it.
    pub(crate) fn next(&mut self)
        requires valid { (answer : Answer) × Goes self.old answer }
        ensures { (answer : Answer) → Goes self.old answer → Denotes self.new answer }
    {
        loop {
            if self.inner.array {
                if self.offset < self.inner.end {
                    self.doing = self.element();
                    return;
                }
            } else if self.inner.pos < self.inner.stop {
                let pos = self.inner.pos;
                let stop = self.part();
                self.doing = Doing::Wanted(pos, stop);
                return;
            }
            match self.frames.pop() {
                Some(frame) => self.inner = frame,
                None => {
                    self.doing = Doing::Over;
                    return;
                }
            }
        }
    }

    /// Keeps the innermost container, which another one within it is to take the place of, unless
    /// it is over: then nothing is left to come back to.
    fn set_aside(&mut self)
        requires few { length self.old.frames.items < 128 }
        ensures aside { Aside self.old.inner self.old.frames.items self.new.frames.items }
        ensures rest { self.new ≡ record self.old { frames = self.new.frames } }
    {
        if self.inner.array || self.inner.pos < self.inner.stop {
            self.frames.push(self.inner);
        }
    }

    /// Enters the struct or dict entry whose type is at `pos`, n bytes on.
    pub(crate) fn inside(&mut self, pos: usize, stop: usize, n: usize, depth_left: u8)
        requires near { self.old.offset + n < 2 ^ 64 }
        requires few { length self.old.frames.items < 128 }
        requires some { pos + 1 < stop - 1 }
        requires there { stop ≤ length self.old.text.items }
        requires noted { HasNotes self.old }
        requires type_noted { IsNoted self.old.text.items self.old.lengths.items pos stop }
        ensures opens { (answer : Answer) → Enters self.old pos stop n depth_left answer →
            Denotes self.new answer }
        ensures narrower { wide self.new.doing < stop - pos }
    {
        self.offset += n;
        let outer = self.inner;
        self.set_aside();
        self.inner = OpenContainer {
            array: false,
            pos: pos + 1,
            stop: stop - 1,
            top: outer.top,
            end: outer.end,
            depth_left,
        };
        let first = self.inner.pos;
        let until = self.part();
        self.doing = Doing::Wanted(first, until);
    }

    /// A struct, whose padding of n bytes is there.
    pub(crate) fn open_struct(&mut self, pos: usize, stop: usize, n: usize) -> Result<(), Stop>
        requires valid { (answer : Answer) × Ready self.old pos stop n answer }
        requires code { slice_index self.old.text.items pos ≡ 40 }
        ensures opens { (answer : Answer) → Ready self.old pos stop n answer →
            Opens result self.new answer }
        ensures decided { IfErr result (λ e. e ≢ Partial) }
        ensures narrower { IfOk result (λ _. wide self.new.doing < stop - pos) }
    {
        let depth_left = self.inner.depth_left;
        if depth_left == 0 {
            return refuse(self.offset + n, Reason::TooDeep);
        }
        self.inside(pos, stop, n, depth_left - 1);
        Ok(())
    }

    /// Where the type of the wanted value is, if it is a struct that begins at once.
    fn struct_here(&self) -> Option<(usize, usize)>
        requires valid { (answer : Answer) × Denotes self.now answer }
        ensures ready { IfSome result (λ p. (answer : Answer) → Denotes self.now answer →
            Ready self.now p.0 p.1 0 answer) }
        ensures code { IfSome result (λ p. slice_index self.now.text.items p.0 ≡ 40) }
        ensures wanted { IfSome result (λ p. wide self.now.doing ≡ p.1 - p.0) }
    {
        let Doing::Wanted(pos, stop) = self.doing else {
            return None;
        };
        let code = self.text.as_slice()[pos];
        if code != b'(' || gap(boundary(code), self.offset) > 0 {
            return None;
        }
        Some((pos, stop))
    }

    /// A struct, whose padding of n bytes is there, and those within it that begin where it does.
    pub(crate) fn open_structs(&mut self, pos: usize, stop: usize, n: usize) -> Result<(), Stop>
        requires valid { (answer : Answer) × Ready self.old pos stop n answer }
        requires code { slice_index self.old.text.items pos ≡ 40 }
        ensures opens { (answer : Answer) → Ready self.old pos stop n answer →
            Opens result self.new answer }
        ensures decided { IfErr result (λ e. e ≢ Partial) }
        ensures narrower { IfOk result (λ _. wide self.new.doing < stop - pos) }
    {
        let mut at = pos;
        let mut until = stop;
        let mut zeros = n;
        loop {
            self.open_struct(at, until, zeros)?;
            match self.struct_here() {
                Some((first, last)) => {
                    at = first;
                    until = last;
                    zeros = 0;
                }
                None => return Ok(()),
            }
        }
    }

    /// A dict entry, whose padding of n bytes is there.
    pub(crate) fn open_entry(&mut self, pos: usize, stop: usize, n: usize)
        requires valid { (answer : Answer) × Ready self.old pos stop n answer }
        requires code { slice_index self.old.text.items pos ≡ 123 }
        ensures opens { (answer : Answer) → Ready self.old pos stop n answer →
            Denotes self.new answer }
        ensures narrower { wide self.new.doing < stop - pos }
    {
        self.inside(pos, stop, n, self.inner.depth_left);
    }
}
