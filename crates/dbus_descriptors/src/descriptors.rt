//! The descriptors that came, until the messages end that they belong to.
#![tactic(auto)]

ghost use Rattle.std.specs.Bool.{OnTrue, OnFalse};
ghost use Rattle.std.specs.Prelude.{◌≡◌, ◌≤◌, ◌<◌, ◌+◌, ◌++◌, ◌∷◌, [], ◌↔◌, true, false, Ok, Err, IsOk, IfErr, OnOk, OnErr, IfOk, option_map, slice_get, drop, take, length, vec_len, vec_capacity};
ghost use Rattle.std.specs.VecDeque.{deque_capacity, deque_len};
ghost use Rattle.dbus_descriptors.specs.Sharing.{AreOf, CannotTake, descriptors_of};

use std::alloc::{AllocError, Global};
use std::collections::VecDeque;
use thiserror::Error;

/// A descriptor, and where in a stream it came.
#[derive(Clone, Copy, Drop)]
pub struct Came<T> {
    /// How many bytes of the stream came before the read that it came with.
    pub place: u64,
    /// The descriptor.
    pub descriptor: T,
}

/// Where in a stream a message ends, and how many descriptors are its own.
#[derive(Clone, Copy, Drop)]
pub struct MessageEnd {
    /// How many bytes of the stream the message and what came before it have.
    pub end: u64,
    /// The number of its header field UNIX_FDS, or 0 if it has none.
    pub count: u32,
}

/// Why a message did not take its descriptors.
#[derive(Clone, Copy, PartialEq, Eq, Debug, Drop, Error)]
pub enum NotTaken {
    /// Fewer came before its end than its header says. Nothing more is kept or taken.
    #[error("fewer file descriptors came than the message says")]
    TooFew,
    /// An allocation failed. Nothing is changed.
    #[error("allocation failed")]
    Memory,
    /// Nothing more is taken: a message was refused, a descriptor was not kept or is nobody's, or
    /// some were left. Nothing is changed.
    #[error("no more file descriptors are taken")]
    Over,
}

/// The descriptors that came beside the bytes of a stream, and that no message has taken.
///
/// A descriptor goes to the first message that ends behind the place at which it came and still
/// lacks some: messages take theirs in order, each as many as its header says. Tell a read's
/// descriptors by [`Descriptors::keep`] before the messages that end in it, and each message by
/// [`Descriptors::take`] as it ends, if it has some. If a message is passed over, take its
/// descriptors too, and close them; or tell it by [`Descriptors::pass`] if its UNIX_FDS is not read.
///
/// Once one is refused, all that wait are left: close what [`Descriptors::leave`] gives, as at the
/// end of the stream. D-Bus Specification, "Header Fields" (UNIX_FDS).
///
/// ```rust
/// use dbus_descriptors::{Came, Descriptors, MessageEnd};
///
/// let mut descriptors = Descriptors::new(alloc, 253)?;
/// // A read at the start of the stream came with descriptors 7 and 8.
/// for descriptor in [7, 8] {
///     descriptors.keep(Came { place: 0, descriptor }).ok();
/// }
/// // The first message has 120 bytes, and its UNIX_FDS is 1.
/// let mut own = Vec::new(alloc);
/// descriptors.take(MessageEnd { end: 120, count: 1 }, &mut own)?;
/// println!(rt; "the message has descriptor {own:?}")?;
/// ```
#[derive(Drop)]
pub struct Descriptors<T> {
    waiting: VecDeque<Came<T>>,
    most: usize,
    passed: u64,
    over: bool,
    ghost roomy: { most ≤ deque_capacity waiting },
}

impl<T: Drop> Descriptors<T> {
    ghost use Rattle.dbus_descriptors.specs.Kept.{HasRoom, Kept, TakesOwn, closed, kept, passed_over};

    /// No descriptor came yet, and at most so many may wait. It allocates room for these.
    ///
    /// `AllocError`: the allocation failed.
    pub fn new(alloc: Global, most: usize) -> Result<Self, AllocError>
        ensures { IfOk result (λ new.
            kept new ≡ record { waiting = []; most = most; passed = 0; over = false }) }
    {
        Ok(Descriptors {
            waiting: VecDeque::with_capacity(alloc, most)?,
            most,
            passed: 0,
            over: false,
        })
    }

    /// Keeps a descriptor that came, behind those that wait.
    ///
    /// It gives the descriptor back, to be closed, if as many wait as may, if it came before the end
    /// of what was passed over, or if nothing more is kept: a message was refused, a descriptor was
    /// not kept or is nobody's, or some were left. Then nothing more is kept or taken, since it is
    /// missing from now on.
    pub fn keep(&mut self, came: Came<T>) -> Result<(), T>
        ensures room { IsOk result ↔ HasRoom (kept self.old) came.place }
        ensures kept { OnOk result (kept self.new ≡ record (kept self.old)
            { waiting = (kept self.old).waiting ++ came ∷ [] }) }
        ensures given_back { IfErr result (λ back. back ≡ came.descriptor) }
        ensures over { OnErr result (kept self.new ≡ closed (kept self.old)) }
    {
        if !self.over && self.passed <= came.place && self.waiting.len() < self.most {
            self.waiting.push_back_reserved(came);
            Ok(())
        } else {
            self.over = true;
            Err(came.descriptor)
        }
    }

    /// Takes the descriptors of a message that ends, and appends them to others.
    ///
    /// `TooFew`: of those that wait, fewer came before its end than its header says; nothing more is
    /// taken then. `Memory`: there is no room to append them, and an allocation failed. `Over`:
    /// nothing more is taken. Then none is taken, and the others stay as they are.
    pub fn take(&mut self, message: MessageEnd, others: &mut Vec<T>) -> Result<(), NotTaken>
        ensures taken { OnOk result
            (TakesOwn (kept self.old) (kept self.new) message others.old.items others.new.items) }
        ensures too_few { result ≡ Err NotTaken.TooFew →
            ((kept self.old).over ≡ false) × CannotTake (kept self.old).waiting message ×
            (kept self.new ≡ closed (kept self.old)) }
        ensures memory { result ≡ Err NotTaken.Memory →
            (vec_capacity others.old < vec_len others.old + message.count) ×
            (message.count ≤ length (kept self.old).waiting) × (kept self.new ≡ kept self.old) }
        ensures over { result ≡ Err NotTaken.Over →
            ((kept self.old).over ≡ true) × (kept self.new ≡ kept self.old) }
        ensures others { OnErr result (others.new.items ≡ others.old.items) }
    {
        if self.over {
            return Err(NotTaken::Over);
        }
        if !are_there(&self.waiting, message) {
            self.over = true;
            return Err(NotTaken::TooFew);
        }
        if others.reserve(message.count as usize).is_err() {
            return Err(NotTaken::Memory);
        }
        move_front(&mut self.waiting, message.count as usize, others);
        Ok(())
    }

    /// The stream up to this place is passed over, and nobody knows which descriptors that came there
    /// are its own: they are nobody's. If one waits, nothing more is kept or taken.
    pub fn pass(&mut self, end: u64)
        ensures { kept self.new ≡ passed_over end (kept self.old) }
    {
        self.passed = self.passed.max(end);
        if let Some(first) = self.waiting.front()
            && first.place < self.passed
        {
            self.over = true;
        }
    }

    /// How many wait.
    pub fn waiting(&self) -> usize
        ensures { result ≡ length (kept self.now).waiting }
    {
        self.waiting.len()
    }

    /// The descriptor that waits longest, to be closed: it is left. From then on nothing more is
    /// kept or taken.
    pub fn leave(&mut self) -> Option<T>
        ensures left { result ≡
            option_map (λ d. d.descriptor) (slice_get (kept self.old).waiting 0) }
        ensures over { kept self.new ≡ record (closed (kept self.old))
            { waiting = drop 1 (kept self.old).waiting } }
    {
        self.over = true;
        match self.waiting.pop_front() {
            Some(next) => Some(next.descriptor),
            None => None,
        }
    }
}

// Whether so many wait as the message has, all of which came before its end.
fn are_there<T>(waiting: &VecDeque<Came<T>>, message: MessageEnd) -> bool
    ensures yes { OnTrue result (AreOf message (take message.count waiting.now.items)) }
    ensures no { OnFalse result (AreOf message (take message.count waiting.now.items) → ⊥) }
{
    let count = message.count as usize;
    if waiting.len() < count {
        return false;
    }
    for i in 0..count {
        if waiting[i].place >= message.end {
            return false;
        }
    }
    true
}

// Moves so many descriptors from the front to the end of others, which has room for them.
fn move_front<T>(waiting: &mut VecDeque<Came<T>>, count: usize, others: &mut Vec<T>)
    requires there { count ≤ deque_len waiting.old }
    requires room { vec_len others.old + count ≤ vec_capacity others.old }
    ensures moved { others.new.items ≡
        others.old.items ++ descriptors_of (take count waiting.old.items) }
    ensures left { waiting.new.items ≡ drop count waiting.old.items }
    ensures same { deque_capacity waiting.new ≡ deque_capacity waiting.old }
{
    for _taken in 0..count {
        if let Some(next) = waiting.pop_front() {
            others.push_reserved(next.descriptor);
        }
    }
}
