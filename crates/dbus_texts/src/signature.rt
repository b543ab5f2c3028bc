//! The scan of signatures.
#![tactic(auto)]

ghost use Rattle.std.specs.Prelude.{◌≡◌, ◌+◌, ◌<◌, ◌≤◌, ◌++◌, ◌∷◌, [], length, IsTrue};
ghost use Rattle.dbus_texts.specs.SignatureScans.{AreBounded, AreBounded-prop, spare};

use crate::byte_scan::ByteScan;
use crate::type_codes::{is_basic_code, is_type_code};
use arrayvec::ArrayVec;

/// Where in a signature the scan is.
#[derive(Clone, Copy, PartialEq, Eq)]
pub enum SigPlace {
    /// After a complete type, or before a signature.
    After,
    /// Before a complete type that is no array's element.
    One,
    /// Before an array's element.
    Element,
    /// Before the key of a dict entry.
    Key,
}

/// A struct or a dict entry that is open, and how many arrays and structs are open within it.
#[derive(Clone, Copy, Default)]
pub struct Frame {
    /// Whether it is a dict entry.
    pub entry: bool,
    /// The arrays open, of which there may be 32.
    pub arrays: u8,
    /// The structs open, of which there may be 32.
    pub structs: u8,
}

/// What is wanted of a signature from here on.
#[derive(Drop)]
pub struct SigScan {
    /// Whether exactly one complete type is wanted.
    pub single: bool,
    pub place: SigPlace,
    pub arrays: u8,
    pub structs: u8,
    pub frames: ArrayVec<Frame, 64>,
    pub ghost arrays_in: { arrays ≤ 32 },
    pub ghost structs_in: { structs ≤ 32 },
    pub ghost room: { length frames.items + spare place ≤ arrays + structs },
    pub ghost bounded: { AreBounded 0 frames.items } by { AreBounded-prop 0 frames.items },
}

impl SigScan {
    ghost use Rattle.dbus_texts.specs.SignatureScans.{begin, sig_next, sig_state, frame};
    ghost use Rattle.dbus_texts.specs.SigViews.{sig_view, sig_start, Follows};

    /// A scan that has read nothing.
    pub fn new(single: bool) -> Self
        ensures { sig_view result ≡ sig_start single }
    {
        SigScan {
            single,
            place: if single {
                SigPlace::One
            } else {
                SigPlace::After
            },
            arrays: 0,
            structs: 0,
            frames: ArrayVec::new(),
        }
    }

    /// A struct or a dict entry begins, with `arrays` arrays and `structs` structs open in it.
    #[inline]
    fn open(&mut self, place: SigPlace, entry: bool, arrays: u8, structs: u8)
        requires arrays_in { arrays ≤ 32 }
        requires structs_in { structs ≤ 32 }
        requires room { length self.old.frames.items < arrays + structs }
        requires place { spare place ≡ 0 }
        ensures { sig_view self.new ≡ sig_state self.old.single place arrays structs
            (self.old.frames.items ++ frame entry arrays structs ∷ []) }
    {
        self.frames.push(Frame {
            entry,
            arrays,
            structs,
        });
        self.place = place;
        self.arrays = arrays;
        self.structs = structs;
    }

    /// A complete type begins, with `arrays` arrays and `structs` structs open around it.
    fn begin(&mut self, inside: bool, arrays: u8, structs: u8, byte: u8) -> bool
        requires arrays_in { arrays ≤ 32 }
        requires structs_in { structs ≤ 32 }
        requires room { length self.old.frames.items ≤ arrays + structs }
        requires spare { IsTrue inside → length self.old.frames.items < arrays + structs }
        ensures { Follows self.old result self.new
            (begin self.old.single inside arrays structs self.old.frames.items byte) }
    {
        if is_type_code(byte) {
            self.place = SigPlace::After;
            self.arrays = arrays;
            self.structs = structs;
            return true;
        }
        match byte {
            b'a' => {
                if arrays == 32 {
                    return false;
                }
                self.place = SigPlace::Element;
                self.arrays = arrays + 1;
                self.structs = structs;
                true
            }
            b'(' if structs < 32 => {
                self.open(SigPlace::One, false, arrays, structs + 1);
                true
            }
            b'{' if inside => {
                self.open(SigPlace::Key, true, arrays, structs);
                true
            }
            _ => false,
        }
    }

    /// Takes one byte more, if it is allowed here; else changes nothing.
    fn go_on(&mut self, byte: u8) -> bool
        ensures { Follows self.old result self.new (sig_next (sig_view self.old) byte) }
    {
        match self.place {
            SigPlace::After => match self.frames.as_slice().last().copied() {
                None => {
                    if self.single {
                        return false;
                    }
                    self.begin(false, 0, 0, byte)
                }
                Some(frame) => {
                    if frame.entry {
                        if byte != b'}' {
                            return false;
                        }
                        let _ = self.frames.pop();
                        return true;
                    }
                    if byte == b')' {
                        let _ = self.frames.pop();
                        return true;
                    }
                    self.begin(false, frame.arrays, frame.structs, byte)
                }
            },
            SigPlace::One => self.begin(false, self.arrays, self.structs, byte),
            SigPlace::Element => self.begin(true, self.arrays, self.structs, byte),
            SigPlace::Key => {
                if !is_basic_code(byte) {
                    return false;
                }
                self.place = SigPlace::One;
                true
            }
        }
    }
}

impl ByteScan for SigScan {
    ghost use Rattle.dbus_texts.specs.SignatureScans.{sig_rest};
    ghost use Rattle.dbus_texts.specs.SigViews.{sig_view};

    ghost rest = { λ scan. sig_rest (sig_view scan) };

    #[inline(always)]
    #[tactic(auto, using(crate::proofs::ScanSteps::signature_steps))]
    fn step(&mut self, byte: u8) -> bool {
        self.go_on(byte)
    }

    fn end(&self) -> bool {
        self.place == SigPlace::After && self.frames.is_empty()
    }
}
