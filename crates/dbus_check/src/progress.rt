//! How far a message is read: what is noted of it between fronts, in fixed room.
#![tactic(auto)]

ghost use Rattle.std.specs.Prelude.{◌≡◌, ◌≢◌, ◌+◌, ◌<◌, ◌≤◌, ℕ, List, length, take, IfOk, IfErr};
ghost use Rattle.dbus_value_model.specs.declared.stop.Stop.TheVariants.{Partial};

use crate::seen::Seen;
use arrayvec::ArrayVec;
use dbus_header::read_fixed_header;
use dbus_value_checker::{ValueChecker, front, padding};
use dbus_value_model::{Limits, Order, Reason, Stop, refuse};

/// What is read next.
#[derive(Clone, Copy)]
pub(crate) enum Stage {
    /// The items that have fixed places.
    Header,
    /// A field, or what comes after the fields.
    Fields,
    /// The value of a field.
    Value,
    /// The body's signature, which is the value of one.
    Types,
    /// The padding before the body.
    Padding,
    /// The body's values.
    Body,
    /// Nothing: it is whole.
    Done,
}

/// A message that is under way.
#[derive(Drop)]
pub(crate) struct Progress {
    /// The limits that it keeps.
    pub(crate) limits: Limits,
    /// What is read next.
    pub(crate) stage: Stage,
    /// The byte order of its numbers.
    pub(crate) order: Order,
    /// The message type.
    pub(crate) kind: u8,
    /// The length of the body, in bytes.
    pub(crate) body: u32,
    /// Up to where its bytes are read.
    pub(crate) offset: usize,
    /// Where the fields end, then the body.
    pub(crate) end: usize,
    /// The number of descriptors that come with it.
    pub(crate) fds: u32,
    /// The known fields that were seen.
    pub(crate) seen: Seen,
    /// The body's signature, and while it is under way the zero after it.
    pub(crate) signature: ArrayVec<u8, 256>,
    /// The values that are under way.
    pub(crate) values: ValueChecker,
}

impl Progress {
    ghost use Rattle.dbus_check.specs.Progress.{To, Denotes, WantsFields, WantsPadding, Moves, Turns};
    ghost use Rattle.dbus_check.specs.Heading.{message_on};
    ghost use Rattle.dbus_check.specs.declared.progress.Stage.TheVariants.{Padding, Body};

    /// A message that keeps these limits, before its first byte.
    pub(crate) fn new(limits: Limits) -> Progress
        ensures { Denotes result (message_on limits 0) }
    {
        Progress {
            limits,
            stage: Stage::Header,
            order: Order::Little,
            kind: 0,
            body: 0,
            offset: 0,
            end: 0,
            fds: 0,
            seen: Seen::none(),
            signature: ArrayVec::new(),
            values: ValueChecker::new(),
        }
    }

    /// Begins again with a message that keeps these limits.
    pub(crate) fn restart(&mut self, limits: Limits)
        ensures { Denotes self.new (message_on limits 0) }
    {
        self.limits = limits;
        self.stage = Stage::Header;
    }

    /// The items that have fixed places.
    pub(crate) fn header(&mut self, bytes: &[u8]) -> Result<usize, Stop>
        ensures moves { (to : To) → ((c : List ℕ) → message_on self.old.limits 0 c ≡ to c) →
            Moves self.old bytes.now result self.new to }
        ensures some { IfOk result (λ n. 0 < n) }
        ensures short { IfErr result (λ e. e ≡ Partial → length bytes.now < 16) }
    {
        let header = read_fixed_header(front(bytes, 16), self.limits)?;
        self.order = header.order;
        self.kind = header.kind;
        self.body = header.body;
        self.offset = 16;
        self.end = 16 + header.fields as usize;
        self.fds = 0;
        self.seen = Seen::none();
        self.signature.clear();
        self.stage = Stage::Fields;
        Ok(16)
    }

    /// That no required field is missing, once the fields are over: `FieldMissing` with the lowest
    /// code that is.
    pub(crate) fn missing(&mut self) -> Result<(), Stop>
        requires over { self.old.offset ≡ self.old.end }
        ensures turns { (to : To) → WantsFields self.old to → Turns result self.new to }
        ensures stage { IfOk result (λ _. self.new.stage ≡ Padding) }
        ensures decided { IfErr result (λ e. e ≢ Partial) }
    {
        match self.seen.missing(self.kind) {
            Some(code) => refuse(self.offset, Reason::FieldMissing(code)),
            None => {
                self.stage = Stage::Padding;
                Ok(())
            }
        }
    }

    /// The padding before the body.
    pub(crate) fn padding(&mut self, bytes: &[u8]) -> Result<usize, Stop>
        requires valid { (to : To) × WantsPadding self.old to }
        ensures moves { (to : To) → WantsPadding self.old to →
            Moves self.old bytes.now result self.new to }
        ensures stage { IfOk result (λ _. self.new.stage ≡ Body) }
        ensures short { IfErr result (λ e. e ≡ Partial → length bytes.now < 8) }
    {
        let zeros = padding(bytes, self.offset, self.offset + 8, 8)?;
        self.offset += zeros;
        self.end = self.offset + self.body as usize;
        let fds = self.limits.fds.index_limit(self.fds);
        self.values.begin(
            self.limits.bounds_with(fds),
            self.order,
            self.offset,
            self.end,
            self.signature.as_slice(),
            self.limits.depth,
        );
        self.stage = Stage::Body;
        Ok(zeros)
    }
}
