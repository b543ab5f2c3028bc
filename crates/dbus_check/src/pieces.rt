//! A message whose bytes come in pieces: what is not whole yet is kept, in fixed room.
#![tactic(auto)]

ghost use Rattle.std.specs.Prelude.{◌≡◌, ◌+◌, ◌*◌, ◌<◌, ◌↔◌, length, drop, IfOk, IsTrue, []};

use crate::progress::Progress;
use arrayvec::ArrayVec;
use dbus_value_checker::{front, rest_after};
use dbus_value_model::{Fault, Limits};

/// A message under way, and the bytes that were handed of an item that is not whole.
#[derive(Drop)]
pub(crate) struct Pieces {
    /// The message, up to where whole items were read.
    pub(crate) progress: Progress,
    /// The bytes after these: fewer than 20, the front of an item.
    pub(crate) kept: ArrayVec<u8, 20>,
}

impl Pieces {
    ghost use Rattle.dbus_check.specs.Heading.{message_on};
    ghost use Rattle.dbus_check.specs.Checks.{Holds, Fed, Joined, IsLive};
    ghost use Rattle.dbus_check.specs.Progress.{To};

    /// A message of which nothing was handed.
    pub(crate) fn new(limits: Limits) -> Pieces
        ensures { Holds result (message_on limits 0) }
    {
        Pieces {
            progress: Progress::new(limits),
            kept: ArrayVec::new(),
        }
    }

    /// Begins again: nothing was handed.
    pub(crate) fn restart(&mut self, limits: Limits)
        ensures { Holds self.new (message_on limits 0) }
    {
        self.progress.restart(limits);
        self.kept.clear();
    }

    /// Whether the message is not whole yet.
    pub(crate) fn is_live(&self) -> bool
        ensures { IsTrue result ↔ IsLive self.now }
    {
        self.progress.is_live()
    }

    /// Puts as many bytes of the piece after those that are kept as there is room for, and takes
    /// what is whole of them: how many bytes of the piece are taken or kept.
    fn join(&mut self, piece: &[u8]) -> Result<usize, Fault>
        requires valid { (to : To) × Holds self.old to }
        requires some { 0 < length self.old.kept.items }
        requires more { 0 < length piece.now }
        ensures joined { (to : To) → Holds self.old to → Joined piece.now result self.new to }
        ensures further { IfOk result (λ n.
            length self.new.kept.items < 2 * n + length self.old.kept.items) }
    {
        let before = self.kept.len();
        let room = 20 - before;
        let given = front(piece, room);
        match self.kept.try_extend_from_slice(given) {
            Ok(()) => {}
            // There is room for it.
            Err(_) => return Ok(0),
        }
        let taken = self.progress.run(self.kept.as_slice())?;
        if taken < before {
            self.keep_after(taken);
            return Ok(given.len());
        }
        self.kept.clear();
        Ok(taken - before)
    }

    /// Keeps only what comes after the first n of the bytes that are kept.
    fn keep_after(&mut self, n: usize)
        requires { n < length self.old.kept.items }
        ensures progress { self.new.progress ≡ self.old.progress }
        ensures items { self.new.kept.items ≡ drop n self.old.kept.items }
    {
        // Most are kept whole.
        if n == 0 {
            return;
        }
        let mut rest = ArrayVec::new();
        match rest.try_extend_from_slice(rest_after(self.kept.as_slice(), n)) {
            Ok(()) => self.kept = rest,
            // There is room for it.
            Err(_) => {}
        }
    }

    /// Takes what is whole of the piece, and keeps the rest if something is still wanted: how many
    /// bytes are taken or kept.
    fn read(&mut self, piece: &[u8]) -> Result<usize, Fault>
        requires valid { (to : To) × Holds self.old to }
        requires none { self.old.kept.items ≡ [] }
        ensures { (to : To) → Holds self.old to → Fed piece.now result self.new to }
    {
        let taken = self.progress.run(piece)?;
        if !self.progress.is_live() {
            return Ok(taken);
        }
        match self.kept.try_extend_from_slice(rest_after(piece, taken)) {
            Ok(()) => Ok(piece.len()),
            // There is room for it.
            Err(_) => Ok(taken),
        }
    }

    /// The same: at once if it is an array's numbers, as most pieces of one byte are.
    fn pass(&mut self, piece: &[u8]) -> Result<usize, Fault>
        requires valid { (to : To) × Holds self.old to }
        requires none { self.old.kept.items ≡ [] }
        ensures { (to : To) → Holds self.old to → Fed piece.now result self.new to }
    {
        if self.progress.skip(piece) {
            return Ok(piece.len());
        }
        self.read(piece)
    }

    /// Takes the piece, or its bytes up to the end of the message: how many these are.
    pub(crate) fn take(&mut self, piece: &[u8]) -> Result<usize, Fault>
        requires valid { (to : To) × Holds self.old to }
        ensures { (to : To) → Holds self.old to → Fed piece.now result self.new to }
    {
        let mut n = 0;
        while n < piece.len() && !self.kept.is_empty() {
            let more = self.join(rest_after(piece, n))?;
            n += more;
        }
        if !self.kept.is_empty() {
            return Ok(n);
        }
        let passed = self.pass(rest_after(piece, n))?;
        Ok(n + passed)
    }
}
