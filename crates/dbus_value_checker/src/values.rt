//! Values that are wanted: what is noted of them between pieces.
#![tactic(auto)]

ghost use Rattle.std.specs.Prelude.{drop, ◌≡◌, ◌≢◌, ◌+◌, ◌<◌, ◌≤◌, length, true, false, Ok, IfOk, IfErr};
ghost use Rattle.std.specs.Prelude.{◌⊎◌, ◌↔◌, IsTrue};

use crate::signatures::sign;
use arrayvec::ArrayVec;
use dbus_types::{TextKind, TextScan};
use dbus_value_model::{Bounds, Fault, Limits, Order, Stop};

/// An open container: where the types of its parts are in the signatures, and where it ends.
#[derive(Clone, Copy, Default)]
pub(crate) struct OpenContainer {
    /// Whether it is an array, whose one type is that of all of its elements.
    pub(crate) array: bool,
    /// Where the next type begins.
    pub(crate) pos: usize,
    /// Where its types end.
    pub(crate) stop: usize,
    /// How many bytes of the signatures it and the containers around it use.
    pub(crate) top: usize,
    /// The offset where it ends.
    pub(crate) end: usize,
    /// The number of containers that may be opened in it.
    pub(crate) depth_left: u8,
}

/// What is wanted next.
#[derive(Clone, Copy)]
pub(crate) enum Doing {
    /// A value of the type that is there in the signatures, from the first place up to the second.
    Wanted(usize, usize),
    /// Bytes of an array's numbers, any of which are valid there: their number, to the end of the
    /// last whole one.
    Numbers(usize),
    /// Bytes of a text of this kind: their number.
    Text(TextKind, usize),
    /// The zero after a text.
    Nul,
    /// No more values.
    Over,
}

/// Values that are checked as their bytes come, up to an end. It has a fixed size, about 40,000
/// bytes, allocates nothing, and holds no byte of what it took but signatures of variants: of those
/// that are open and, until the next variant begins, of some that are over.
///
/// [`ValueChecker::begin`] says which values are wanted, or [`ValueChecker::begin_text`] which
/// text; [`ValueChecker::run`] takes their bytes in pieces of any length, and
/// [`ValueChecker::is_live`] says whether more of them are wanted.
#[derive(Drop)]
pub struct ValueChecker {
    pub(crate) bounds: Bounds,
    pub(crate) order: Order,
    /// The offset where the values end at the latest.
    pub(crate) end: usize,
    /// The offset up to which the bytes are taken.
    pub(crate) offset: usize,
    /// The innermost container, or the values themselves.
    pub(crate) inner: OpenContainer,
    /// Those around it, the outermost first, but structs and dict entries whose last part is open:
    /// at most 64 containers, and in each array a dict entry, which takes no room.
    pub(crate) frames: ArrayVec<OpenContainer, 128>,
    /// The signatures: that of the values, then those of the variants that are open, each at most
    /// 255 bytes. After them may be what is left of variants that are over.
    pub(crate) text: ArrayVec<u8, 16640>,
    /// Of each byte of the signatures in use how many the type has that begins there.
    pub(crate) lengths: ArrayVec<u8, 16640>,
    /// A text that is under way.
    pub(crate) scan: TextScan,
    /// The bytes that were taken of it, if it is the signature of a variant.
    pub(crate) held: ArrayVec<u8, 255>,
    pub(crate) doing: Doing,
}

impl ValueChecker {
    ghost use Rattle.dbus_value_checker.specs.Denotations.{Answer, Denotes};
    ghost use Rattle.dbus_value_checker.specs.Moves.{Moves, Opens, Runs, IsLive, offset_of, wide};
    ghost use Rattle.dbus_value_checker.specs.Moves.{values_on, text_on, nothing_on};
    ghost use Rattle.dbus_texts.specs.declared.text_kind.TextKind.TheVariants.{Single};
    ghost use Rattle.dbus_value_model.specs.declared.stop.Stop.TheVariants.{Partial};
    ghost use Rattle.dbus_value_checker.specs.Suspended.{On};
    ghost use Rattle.dbus_texts.specs.Types.{TypeTrees, sigs, AreShaped};

    /// Nothing is wanted, and no byte is taken.
    pub fn new() -> ValueChecker
        ensures { (last : On) → Denotes result (nothing_on last 0) }
    {
        ValueChecker {
            bounds: Limits::specification().bounds(),
            order: Order::Little,
            end: 0,
            offset: 0,
            inner: OpenContainer::default(),
            frames: ArrayVec::new(),
            text: ArrayVec::new(),
            lengths: ArrayVec::new(),
            scan: TextScan::new(TextKind::Text),
            held: ArrayVec::new(),
            doing: Doing::Over,
        }
    }

    /// Wants values of the types that a signature spells, from an offset of a message up to an end.
    /// `depth_left` containers may be open at once in them, and they keep the bounds. Whatever was
    /// wanted before is forgotten.
    pub fn begin(
        &mut self,
        bounds: Bounds,
        order: Order,
        offset: usize,
        end: usize,
        types: &[u8],
        depth_left: u8,
    )
        requires at_most { offset ≤ end }
        requires few { depth_left ≤ 64 }
        requires short { length types.now ≤ 255 }
        requires types { (ts : TypeTrees) × ((types.now ≡ sigs ts) × AreShaped ts) }
        ensures { (ts : TypeTrees) (last : On) → types.now ≡ sigs ts → AreShaped ts →
            Denotes self.new (values_on bounds order depth_left end ts last offset) }
    {
        self.bounds = bounds;
        self.order = order;
        self.offset = offset;
        self.end = end;
        self.frames.clear();
        sign(&mut self.text, &mut self.lengths, 0, types);
        let stop = types.len();
        self.inner = OpenContainer {
            array: false,
            pos: 0,
            stop,
            top: stop,
            end,
            depth_left,
        };
        self.next();
    }

    /// Wants a text of a kind, of `size` bytes, and the zero after it, from an offset of a message
    /// up to an end. Whatever was wanted before is forgotten.
    ///
    /// Refused at `offset` if the text is empty and may not be.
    pub fn begin_text(
        &mut self,
        kind: TextKind,
        offset: usize,
        size: usize,
        end: usize,
    ) -> Result<(), Stop>
        requires fits { offset + size + 1 ≤ end }
        requires kind { kind ≢ Single }
        ensures opens { (last : On) → Opens result self.new (text_on kind size last offset) }
        ensures decided { IfErr result (λ e. e ≢ Partial) }
    {
        self.offset = offset;
        self.end = end;
        self.frames.clear();
        self.text.clear();
        self.lengths.clear();
        self.inner = OpenContainer {
            array: false,
            pos: 0,
            stop: 0,
            top: 0,
            end,
            depth_left: 0,
        };
        self.scan = TextScan::new(kind);
        self.text_on(kind, size)
    }

    /// What is wanted next, if all of it is there.
    pub(crate) fn step(&mut self, bytes: &[u8]) -> Result<usize, Stop>
        requires valid { (answer : Answer) × Denotes self.old answer }
        requires live { IsLive self.old.doing }
        ensures moves { (answer : Answer) → Denotes self.old answer →
            Moves self.old bytes.now result self.new answer }
        ensures further { IfOk result (λ n. (0 < n) ⊎ (wide self.new.doing < wide self.old.doing)) }
        ensures short { IfErr result (λ e. e ≡ Partial → length bytes.now < 20) }
    {
        match self.doing {
            Doing::Wanted(pos, stop) => self.value(pos, stop, bytes),
            Doing::Text(kind, left) => self.text(kind, left, bytes),
            Doing::Numbers(left) => self.numbers(left, bytes),
            Doing::Nul => self.nul(bytes),
            Doing::Over => Ok(0),
        }
    }

    /// Whether something is wanted still.
    pub fn is_live(&self) -> bool
        ensures { IsTrue result ↔ IsLive self.now.doing }
    {
        !matches!(self.doing, Doing::Over)
    }

    /// The offset up to which the bytes are taken.
    pub fn offset(&self) -> usize
        ensures { result ≡ offset_of self.now }
    {
        self.offset
    }

    /// Takes all of the bytes at once if they are an array's numbers, of which more are wanted
    /// after them: whether they are. It says no less than [`ValueChecker::run`], and is quicker if
    /// the bytes come one by one.
    pub fn skip(&mut self, bytes: &[u8]) -> bool
        requires valid { (answer : Answer) × Denotes self.old answer }
        ensures runs { result ≡ true → (answer : Answer) → Denotes self.old answer →
            Runs bytes.now (Ok (length bytes.now)) self.new answer }
        ensures live { result ≡ true → IsLive self.new.doing }
        ensures same { result ≡ false → self.new ≡ self.old }
    {
        match self.doing {
            Doing::Numbers(left) if bytes.len() < left => {
                self.offset += bytes.len();
                self.doing = Doing::Numbers(left - bytes.len());
                true
            }
            _ => false,
        }
    }

    /// Takes what is wanted as far as it is there whole: how many bytes. If something is still
    /// wanted, what is left of the bytes, fewer than 20, is the front of an item: they are to be
    /// handed again, with more after them.
    ///
    /// A fault comes as soon as the bytes show it, whatever bytes follow; nothing is said of the
    /// values after it, and they are to begin again. D-Bus Specification, "Marshaling (Wire
    /// Format)".
    pub fn run(&mut self, bytes: &[u8]) -> Result<usize, Fault>
        requires valid { (answer : Answer) × Denotes self.old answer }
        ensures runs { (answer : Answer) → Denotes self.old answer →
            Runs bytes.now result self.new answer }
        ensures short { IfOk result (λ n. IsLive self.new.doing → length bytes.now < n + 20) }
    {
        self.run_after(bytes, 0)
    }

    /// Does what [`ValueChecker::run`] does with the bytes after the first `start`, whatever those
    /// are. If they are seven or more, a value that is whole is validated at once.
    pub fn run_after(&mut self, bytes: &[u8], start: usize) -> Result<usize, Fault>
        requires valid { (answer : Answer) × Denotes self.old answer }
        requires within { start ≤ length bytes.now }
        ensures runs { (answer : Answer) → Denotes self.old answer →
            Runs (drop start bytes.now) result self.new answer }
        ensures short { IfOk result (λ n. IsLive self.new.doing →
            length (drop start bytes.now) < n + 20) }
    {
        let mut n = 0;
        let mut misses = 0;
        while self.is_live() {
            match self.advance(bytes, start + n, &mut misses) {
                Ok(more) => n += more,
                Err(Stop::Partial) => return Ok(n),
                Err(Stop::Refused(fault)) => return Err(fault),
            }
        }
        Ok(n)
    }
}
