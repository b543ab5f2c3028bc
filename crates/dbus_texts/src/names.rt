//! The scan of object paths and names.
#![tactic(auto)]

ghost use Rattle.std.specs.Prelude.{◌≡◌};
ghost use Rattle.dbus_texts.specs.Kinds.{is_word, is_dashed_start};
ghost use Rattle.dbus_texts.specs.NameScans.{begins, goes_on, separator, name_next, name_rest};

use crate::byte_scan::ByteScan;

/// Which bytes an element may have.
#[derive(Clone, Copy)]
pub enum Letters {
    /// `[A-Za-z0-9_]`: elements of an object path, between `/`.
    Word,
    /// The same, but no digit first: elements of an interface or member name, between `.`.
    Name,
    /// `[A-Za-z0-9_-]`: elements of a unique bus name, between `.`.
    Unique,
    /// The same, but no digit first: elements of a well-known bus name, between `.`.
    WellKnown,
}

/// How many elements may follow the one under way.
#[derive(Clone, Copy, PartialEq, Eq)]
pub enum Tail {
    /// None.
    Alone,
    /// One or more.
    Needed,
    /// Any number.
    Free,
}

/// Where in a name the scan is.
#[derive(Clone, Copy)]
pub enum Place {
    /// Before an object path.
    PathStart,
    /// After the first `/` of an object path.
    Root,
    /// Before a bus name.
    BusStart,
    /// Before the first byte of an element.
    First,
    /// Within an element, or after it.
    More,
}

/// What is wanted of a name from here on.
#[derive(Clone, Copy)]
pub struct NameScan {
    pub place: Place,
    pub letters: Letters,
    pub tail: Tail,
}

/// `[A-Za-z0-9_]`, of which small letters are asked for first, since most are.
fn is_word(byte: u8) -> bool
    ensures { result ≡ is_word byte }
{
    byte.is_ascii_lowercase() || byte.is_ascii_alphanumeric() || byte == b'_'
}

/// `[A-Za-z_-]`
fn is_dashed_start(byte: u8) -> bool
    ensures { result ≡ is_dashed_start byte }
{
    byte.is_ascii_alphabetic() || byte == b'_' || byte == b'-'
}

impl Letters {
    /// Whether an element may begin with the byte.
    pub fn begins(self, byte: u8) -> bool
        ensures { result ≡ begins self byte }
    {
        match self {
            Letters::Word => is_word(byte),
            Letters::Name => byte.is_ascii_alphabetic() || byte == b'_',
            Letters::Unique => is_word(byte) || byte == b'-',
            Letters::WellKnown => is_dashed_start(byte),
        }
    }

    /// Whether an element may go on with the byte.
    pub fn goes_on(self, byte: u8) -> bool
        ensures { result ≡ goes_on self byte }
    {
        match self {
            Letters::Word | Letters::Name => is_word(byte),
            Letters::Unique | Letters::WellKnown => is_word(byte) || byte == b'-',
        }
    }

    /// The byte between elements.
    pub fn separator(self) -> u8
        ensures { result ≡ separator self }
    {
        match self {
            Letters::Word => b'/',
            _ => b'.',
        }
    }
}

impl NameScan {
    ghost use Rattle.dbus_texts.specs.NameScans.{name_next_at, name_state};
    ghost use Rattle.dbus_texts.specs.declared.names.Place.TheVariants.{More};

    /// What is wanted at the place.
    #[inline(always)]
    pub const fn at(place: Place, letters: Letters, tail: Tail) -> NameScan
        ensures { result ≡ name_state place letters tail }
    {
        NameScan {
            place,
            letters,
            tail,
        }
    }

    /// What is wanted after one byte more, if it is allowed here.
    fn next(self, byte: u8) -> Option<NameScan>
        ensures { result ≡ name_next self byte }
    {
        match self.place {
            Place::PathStart => {
                (byte == b'/').then_some(NameScan::at(Place::Root, Letters::Word, Tail::Free))
            }
            Place::Root => {
                is_word(byte).then_some(NameScan::at(Place::More, Letters::Word, Tail::Free))
            }
            Place::BusStart => {
                if byte == b':' {
                    return Some(NameScan::at(Place::First, Letters::Unique, Tail::Needed));
                }
                is_dashed_start(byte).then_some(NameScan::at(
                    Place::More,
                    Letters::WellKnown,
                    Tail::Needed,
                ))
            }
            Place::First => self.letters.begins(byte).then_some(NameScan {
                place: Place::More,
                ..self
            }),
            Place::More => self.next_within(byte),
        }
    }

    /// The same within an element, or after it.
    fn next_within(self, byte: u8) -> Option<NameScan>
        requires { self.place ≡ More }
        ensures { result ≡ name_next_at More self.letters self.tail byte }
    {
        if self.letters.goes_on(byte) {
            return Some(self);
        }
        if byte != self.letters.separator() {
            return None;
        }
        match self.tail {
            Tail::Alone => None,
            Tail::Needed | Tail::Free => {
                Some(NameScan::at(Place::First, self.letters, Tail::Free))
            }
        }
    }
}

impl ByteScan for NameScan {
    ghost rest = { name_rest };

    #[tactic(auto, using(crate::proofs::ScanSteps::step_some, crate::proofs::ScanSteps::step_none, crate::proofs::NameSteps::name_moves))]
    fn step(&mut self, byte: u8) -> bool {
        match self.next(byte) {
            Some(next) => {
                *self = next;
                true
            }
            None => false,
        }
    }

    fn end(&self) -> bool {
        match self.place {
            Place::Root => true,
            Place::More => self.tail != Tail::Needed,
            _ => false,
        }
    }
}
