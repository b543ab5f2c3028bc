//! The known fields that were seen, and where their values are. D-Bus Specification, "Header
//! Fields".
#![tactic(auto)]

ghost use Rattle.std.specs.Prelude.{◌≡◌, ◌+◌, ◌≤◌, ◌<◌, ◌^◌, ◌++◌, ◌∷◌, [], ◌&&◌, ℕ, List, length, take, drop, true, false, None, slice_index_or};
ghost use Rattle.dbus_value_model.specs.declared.order.Order.{Order};
ghost use Rattle.dbus_value_model.specs.Values.{ValueTree};
ghost use Rattle.dbus_message_model.specs.Messages.{FieldTree, want, is_known, has_code, lacks, required, body_signature, fd_count};
ghost use Rattle.dbus_validate.specs.Seen.{IsNoted};

use crate::field_values::Held;
use dbus_message_model::field_table::is_known;
use dbus_message_model::known_fields::required;

/// The code of the field that has the types of the body's values.
const SIGNATURE: u8 = 8;

/// The code of the field that has the number of the file descriptors.
const UNIX_FDS: u8 = 9;

/// Where the value of a known field is.
#[derive(Clone, Copy)]
pub struct FieldPlace {
    /// The offset of its text, or 0 if it is no text.
    pub start: u32,
    /// The number of bytes of its text, or 0.
    pub length: u32,
    /// Its number, or 0 if it is no UINT32.
    pub number: u32,
}

impl FieldPlace {
    /// Its text in the bytes.
    pub fn text<'a>(&self, bytes: &'a [u8]) -> &'a [u8]
        requires { self.now.start + self.now.length ≤ length bytes.now }
        ensures { result.now ≡ take self.now.length (drop self.now.start bytes.now) }
    {
        &bytes[self.start as usize..][..self.length as usize]
    }
}

/// Where the values of the known fields are, each by its code. D-Bus Specification, "Header
/// Fields".
#[derive(Clone, Copy)]
pub struct FieldPlaces {
    /// Of each code the value of the field that was seen, if one was: the codes of the known fields
    /// are 1 to 9.
    pub places: [Option<FieldPlace>; 10],
}

impl FieldPlaces {
    ghost use Rattle.dbus_validate.specs.Seen.{AreNoted, ArePlaced, field_start, known_start, text_start};

    /// None.
    pub(crate) fn none() -> FieldPlaces
        ensures { (bytes : List ℕ) → AreNoted [] bytes result }
    {
        FieldPlaces { places: [None; 10] }
    }

    /// Where the value of the field of a code is, if it was seen.
    pub fn get(&self, code: u8) -> Option<FieldPlace>
        ensures { result ≡ slice_index_or self.now.places code None }
    {
        let index = usize::from(code);
        if index < self.places.len() {
            self.places[index]
        } else {
            None
        }
    }

    /// Whether a code is a known field's that was seen.
    pub(crate) fn has(&self, code: u8) -> bool
        ensures { (bytes : List ℕ) (fs : List FieldTree) → AreNoted fs bytes self.now →
            result ≡ (is_known code && has_code code fs) }
    {
        is_known(code) && self.get(code).is_some()
    }

    /// The value of a field of a code is seen, and none of that code was if it is known.
    pub(crate) fn note(&mut self, code: u8, held: Held)
        requires start { held.start < 2 ^ 32 }
        requires length { held.length < 2 ^ 32 }
        ensures noted { (bytes : List ℕ) (fs : List FieldTree) (v : ValueTree) →
            AreNoted fs bytes self.old →
            is_known code && has_code code fs ≡ false → IsNoted (want code) v bytes held →
            held.start + held.length ≤ length bytes →
            AreNoted (fs ++ (record { code = code; value = v }) ∷ []) bytes self.new }
        ensures placed { (order : Order) (fs : List FieldTree) (v : ValueTree) →
            ArePlaced order fs self.old → is_known code && has_code code fs ≡ false →
            (is_known code ≡ true → held.start ≡ text_start (known_start (field_start order fs)) v) →
            ArePlaced order (fs ++ (record { code = code; value = v }) ∷ []) self.new }
    {
        let at = usize::from(code);
        if at < self.places.len() {
            self.places[at] = Some(FieldPlace {
                start: held.start as u32,
                length: held.length as u32,
                number: held.number,
            });
        }
    }

    /// Whether every field was seen that a message of the type has.
    pub(crate) fn has_required(&self, kind: u8) -> bool
        ensures accepts { (bytes : List ℕ) (fs : List FieldTree) → AreNoted fs bytes self.now →
            result ≡ true → lacks (required kind) fs ≡ None }
        ensures refuses { (bytes : List ℕ) (fs : List FieldTree) → AreNoted fs bytes self.now →
            result ≡ false → lacks (required kind) fs ≡ None → ⊥ }
    {
        for code in required(kind) {
            if !self.has(*code) {
                return false;
            }
        }
        true
    }

    /// The types of the body's values: the text of the SIGNATURE field in the bytes, or nothing if
    /// that was not seen.
    pub fn signature<'a>(&self, bytes: &'a [u8]) -> &'a [u8]
        requires noted { (fs : List FieldTree) × AreNoted fs bytes.now self.now }
        ensures { (fs : List FieldTree) → AreNoted fs bytes.now self.now →
            result.now ≡ body_signature fs }
    {
        match self.get(SIGNATURE) {
            Some(place) => place.text(bytes),
            None => &[],
        }
    }

    /// The number of file descriptors that come with the message: the number of the UNIX_FDS field,
    /// or 0 if that was not seen.
    pub fn fd_count(&self) -> u32
        ensures { (bytes : List ℕ) (fs : List FieldTree) → AreNoted fs bytes self.now →
            result ≡ fd_count fs }
    {
        match self.get(UNIX_FDS) {
            Some(place) => place.number,
            None => 0,
        }
    }
}
