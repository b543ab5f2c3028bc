//! A draft that keeps a text to the cells of a terminal's line.
#![tactic(auto)]

ghost use Rattle.std.specs.Prelude.{◌≡◌, ℕ, [], List, codes};
ghost use Rattle.std.specs.Char.{encode_utf8, IsScalar};
ghost use Rattle.std.specs.Str.{IsAscii};
ghost use Rattle.dbus_list.specs.Cuts.{cells, cut};
ghost use Rattle.dbus_list.specs.Cutting.{Gains, HasCut, IsFront};
ghost use Rattle.dbus_list.specs.declared.cut_draft.Room.TheVariants.{Full, Left};

use crate::characters::push_char;
use dbus_show::Draft;

/// What room there is for more of a text.
#[derive(Clone, Copy)]
pub(crate) enum Room {
    /// As much as may come.
    Unbounded,
    /// This many cells, and the last one.
    Left(u16),
    /// None if anything follows: this character would fill the last cell, and is not written yet.
    Held(char),
    /// None: the text is wider, and is cut.
    Full,
}

/// A draft over a draft, which gains a text as far as it fits so many cells.
#[derive(Drop)]
pub(crate) struct CutDraft<'d, D> {
    /// The draft that gains what fits.
    pub(crate) draft: &'d mut D,
    /// The room that is left.
    pub(crate) room: Room,
}

/// The front of a text.
#[derive(Clone, Copy)]
pub(crate) struct Front {
    /// Its bytes.
    pub(crate) bytes: usize,
    /// The cells of its characters.
    pub(crate) cells: u16,
}

/// How many cells a character takes at most.
fn cells_of(c: char) -> u16
    ensures { result ≡ cells c }
{
    if u32::from(c) < 128 { 1 } else { 2 }
}

/// The longest front of a text that has at most so many cells.
#[inline(never)]
fn front_of(text: &str, most: u16) -> Front
    ensures { IsFront text.now most result }
{
    let mut front = Front { bytes: 0, cells: 0 };
    for c in text.chars() {
        let cells = cells_of(c);
        if cells > most - front.cells {
            return front;
        }
        front.cells += cells;
        front.bytes += c.len_utf8();
    }
    front
}

impl<'d, D: Draft> CutDraft<'d, D> {
    /// Begins a text of at most so many cells in a draft. For 0 cells there is no bound.
    pub(crate) fn new(draft: &'d mut D, most: u16) -> Self
        ensures same { result.draft.ghost_name ≡ draft.entry.ghost_name }
        ensures begins { HasCut D.gains draft.old most [] result }
    {
        let room = if most == 0 {
            Room::Unbounded
        } else {
            Room::Left(most - 1)
        };
        CutDraft { draft, room }
    }

    /// Appends a character.
    fn push_one(&mut self, c: char)
        ensures { Gains D.gains self.old (encode_utf8 c) self.new }
    {
        let cells = cells_of(c);
        match self.room {
            Room::Unbounded => push_char(self.draft, c),
            Room::Left(left) => {
                if cells <= left {
                    self.room = Room::Left(left - cells);
                    push_char(self.draft, c);
                } else if cells == left + 1 {
                    self.room = Room::Held(c);
                } else {
                    self.end_early();
                }
            }
            Room::Held(_) => self.end_early(),
            Room::Full => {}
        }
    }

    /// Appends `~` in place of what does not fit.
    fn end_early(&mut self)
        ensures same { self.new.draft.ghost_name ≡ self.old.draft.ghost_name }
        ensures marked { D.gains self.old.draft.now (codes "~") self.new.draft.now }
        ensures full { self.new.room ≡ Full }
    {
        self.room = Room::Full;
        self.draft.push_code(b'~');
    }

    /// Appends characters one by one, until there is no room for more.
    #[inline(never)]
    fn push_each(&mut self, text: &str)
        ensures { Gains D.gains self.old text.now self.new }
    {
        for c in text.chars() {
            if let Room::Full = self.room {
                return;
            }
            self.push_one(c);
        }
    }

    /// Appends ASCII characters, of which so many and one more fit: those at once.
    pub(crate) fn push_ascii(&mut self, left: u16, text: &str)
        requires room { self.old.room ≡ Left left }
        requires ascii { IsAscii text.now }
        ensures { Gains D.gains self.old text.now self.new }
    {
        let fits = text.len().min(usize::from(left));
        let front = Front {
            bytes: fits,
            cells: fits as u16,
        };
        self.push_front(left, front, text);
    }

    /// Appends a text, of which so many cells and one more fit: a front of so many at once.
    fn push_front(&mut self, left: u16, front: Front, text: &str)
        requires room { self.old.room ≡ Left left }
        requires front { IsFront text.now left front }
        ensures { Gains D.gains self.old text.now self.new }
    {
        let (shown, rest) = text.split_at(front.bytes);
        self.room = Room::Left(left - front.cells);
        self.draft.push_str(shown);
        self.push_each(rest);
    }

    /// Ends the text.
    pub(crate) fn finish(&mut self)
        ensures same { self.new.draft.ghost_name ≡ self.old.draft.ghost_name }
        ensures written { (before : D) (most : ℕ) (text : List ℕ) → HasCut D.gains before most text self.old →
            D.gains before (cut most text) self.new.draft.now }
    {
        if let Room::Held(last) = self.room {
            push_char(self.draft, last);
        }
    }
}

impl<D: Draft> Draft for CutDraft<'_, D> {
    ghost use Rattle.dbus_list.specs.CuttingLaws as laws;

    ghost gains = { λ a text b. Gains D.gains a text b };

    fn push_str(&mut self, text: &str) {
        match self.room {
            Room::Unbounded => self.draft.push_str(text),
            Room::Left(left) => self.push_front(left, front_of(text, left), text),
            Room::Held(_) => self.push_each(text),
            Room::Full => {}
        }
    }

    fn is_full(&self) -> bool {
        match self.room {
            Room::Full => true,
            _ => false,
        }
    }

    ghost nothing = { laws.nothing D.gains };

    ghost joins = { laws.joins D.gains };
}
