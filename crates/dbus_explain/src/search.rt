//! Where in the values of a message a fault is. What comes before it is validated, and passed over;
//! only the value in which it lies is entered. D-Bus Specification, "Marshaling (Wire Format)".
#![tactic(auto)]

ghost use Rattle.std.specs.Prelude.{◌≡◌, ℕ, List, ◌+◌, ◌<◌, ◌≤◌, None, IfSome, length, true};
ghost use Rattle.std.specs.List.{list_all};
ghost use Rattle.dbus_texts.specs.Types.{TypeTree, TypeTrees, STRING, SIGNATURE, TextType};
ghost use Rattle.dbus_texts.specs.Types.{VariantType, ArrayType, StructType};
ghost use Rattle.dbus_texts.specs.Types.{EntryType, NoTypes, MoreTypes, IsShaped, AreShaped, sig};
ghost use Rattle.dbus_texts.specs.Types.{sigs};
ghost use Rattle.dbus_types.specs.Alignments.{alignment_of};
ghost use Rattle.dbus_types.specs.SignatureCodes.{first_code};
ghost use Rattle.dbus_value_model.specs.Bytes.{gap_to};
ghost use Rattle.dbus_explain.specs.Places.{EntersNone, IsAmong, IsAmongNone, IsIn, IsInFieldText};
ghost use Rattle.dbus_explain.specs.Places.{IsInFirst, IsInText, IsKeyOf, IsStepTo, IsTyped};
ghost use Rattle.dbus_explain.specs.Places.{Leads, Pass, PassEach, Passes, is_printable, order_of};

use crate::path::PathStep;
use dbus_types::{TextKind, boundary, type_end};
use dbus_value_model::{DEPTH_LIMIT, Limits, Order, gap};
use dbus_value_validator::{short_text, validate_value};
use std::str;

/// The bytes of a message as far as they were read, their order, and the place of their fault,
/// which is not past them.
#[derive(Clone, Copy)]
pub(crate) struct Search<'a> {
    pub(crate) bytes: &'a [u8],
    pub(crate) order: Order,
    pub(crate) at: usize,
    ghost order_is: { order ≡ order_of bytes.now },
    ghost within: { at ≤ length bytes.now },
}

/// Where a value is to be, before its padding, and the bytes of its type.
#[derive(Clone, Copy)]
pub(crate) struct ValuePlace<'a> {
    pub(crate) types: &'a [u8],
    pub(crate) place: usize,
}

/// The most bytes of a key that is shown.
const MOST_OF_A_KEY: u32 = 64;

/// A text of a message, which may not be whole. D-Bus Specification, "Marshaling (Wire Format)".
#[derive(Clone, Copy)]
pub struct StatedText {
    /// Where it begins in the message, in bytes, behind its length.
    pub start: usize,
    /// The length in bytes that is stated before it, without the 0 that ends it.
    pub stated: u32,
}

impl<'a> ValuePlace<'a> {
    /// The first of values of these types, one after another from the place on, and the types of the
    /// others; if there is one.
    pub(crate) fn split(&self) -> Option<(ValuePlace<'a>, &'a [u8])>
        ensures place { IfSome result (λ r. r.0.place ≡ self.now.place) }
        ensures types { IfSome result (λ r. (ts : TypeTrees) → sigs ts ≡ self.now.types.now →
            AreShaped ts → (t : TypeTree) × (us : TypeTrees) × (ts ≡ MoreTypes t us) ×
            (sig t ≡ r.0.types.now) × (sigs us ≡ r.1.now) × IsShaped true t × AreShaped us) }
        ensures fewer { IfSome result (λ r. length r.1.now < length self.now.types.now) }
        ensures none { result ≡ None → length self.now.types.now ≡ 0 }
    {
        if self.types.is_empty() {
            return None;
        }
        let (types, others) = self.types.split_at(type_end(self.types, 0));
        let place = self.place;
        Some((ValuePlace { types, place }, others))
    }
}

impl<'a> Search<'a> {
    /// The place this many bytes on, if it is at or before the fault.
    pub(crate) fn skip(&self, place: usize, count: usize) -> Option<usize>
        ensures some { IfSome result (λ after. (after ≡ place + count) × (after ≤ self.now.at)) }
        ensures none { result ≡ None → self.now.at < place + count }
    {
        let after = place.checked_add(count)?;
        if after > self.at {
            return None;
        }
        Some(after)
    }

    /// The place after the padding before a value of a type that begins with this code, if it is at
    /// or before the fault.
    pub(crate) fn aligned(&self, place: usize, code: u8) -> Option<usize>
        ensures gap { IfSome result (λ after. (t : TypeTree) → first_code t ≡ code →
            after ≡ place + gap_to (alignment_of t) place) }
        ensures within { IfSome result (λ after. after ≤ self.now.at) }
        ensures none { result ≡ None → (t : TypeTree) → first_code t ≡ code →
            self.now.at < place + gap_to (alignment_of t) place }
    {
        self.skip(place, gap(boundary(code), place))
    }

    /// The place after a value of the type, if it is valid and ends at or before the fault.
    pub(crate) fn passed(&self, spot: ValuePlace<'a>) -> Option<usize>
        requires { spot.place ≤ self.now.at }
        ensures some { IfSome result (λ after. (t : TypeTree) → sig t ≡ spot.entry.types.now →
            IsShaped true t →
            Passes self.now.bytes.now self.now.at t spot.entry.place after) }
        ensures none { result ≡ None → (t : TypeTree) → sig t ≡ spot.entry.types.now →
            IsShaped true t →
            IsIn self.now.bytes.now self.now.at t spot.entry.place }
        ensures within { IfSome result (λ after. after ≤ self.now.at) }
    {
        let bounds = Limits::specification().bounds();
        validate_value(
            self.bytes,
            spot.place,
            self.at,
            self.order,
            spot.types,
            DEPTH_LIMIT,
            bounds,
        )
    }

    /// How many values of the type are passed from the place on, and where the next one is, in
    /// which the fault is.
    pub(crate) fn after_values(&self, first: ValuePlace<'a>) -> (usize, ValuePlace<'a>)
        requires { first.place ≤ self.now.at }
        ensures types { result.1.types.now ≡ first.entry.types.now }
        ensures passed { (t : TypeTree) → sig t ≡ first.entry.types.now → IsShaped true t →
            Pass self.now.bytes.now self.now.at t result.0 first.entry.place result.1.place ×
            IsIn self.now.bytes.now self.now.at t result.1.place }
        ensures within { result.1.place ≤ self.now.at }
    {
        let types = first.types;
        let most = self.bytes.len();
        let mut place = first.place;
        // Each value has a byte at least.
        for count in 0..most {
            let spot = ValuePlace { types, place };
            match self.passed(spot) {
                Some(after) => place = after,
                None => return (count, spot),
            }
        }
        (most, ValuePlace { types, place })
    }

    /// How many values of these types, one after another, are passed from the place on, and where
    /// the others are: the fault is in the first of them, if there is one.
    pub(crate) fn after_each(&self, values: ValuePlace<'a>) -> (usize, ValuePlace<'a>)
        requires { values.place ≤ self.now.at }
        ensures passed { (ts : TypeTrees) → sigs ts ≡ values.entry.types.now → AreShaped ts →
            (us : TypeTrees) × (sigs us ≡ result.1.types.now) × AreShaped us ×
            PassEach self.now.bytes.now self.now.at result.0 ts values.entry.place us
            result.1.place × IsInFirst self.now.bytes.now self.now.at us result.1.place }
        ensures fewer { length result.1.types.now ≤ length values.entry.types.now }
        ensures within { result.1.place ≤ self.now.at }
    {
        let mut left = values;
        for number in 0..values.types.len() {
            let Some((first, others)) = left.split() else {
                return (number, left);
            };
            match self.passed(first) {
                Some(place) => left = ValuePlace {
                    types: others,
                    place,
                },
                None => return (number, left),
            }
        }
        (values.types.len(), left)
    }

    /// Of values of these types, which begin at the place, the one in which the fault is, and its
    /// number from 0.
    pub(crate) fn among(&self, values: ValuePlace<'a>) -> Option<(usize, ValuePlace<'a>)>
        requires { values.place ≤ self.now.at }
        ensures found { IfSome result (λ r. (ts : TypeTrees) → sigs ts ≡ values.entry.types.now →
            AreShaped ts →
            (t : TypeTree) × (sig t ≡ r.1.types.now) × IsShaped true t ×
            IsAmong self.now.bytes.now self.now.at ts values.entry.place r.0 t r.1.place) }
        ensures none { result ≡ None → (ts : TypeTrees) → sigs ts ≡ values.entry.types.now →
            AreShaped ts → IsAmongNone self.now.bytes.now self.now.at ts values.entry.place }
        ensures within { IfSome result (λ r. r.1.place ≤ self.now.at) }
    {
        let (number, left) = self.after_each(values);
        let (first, _) = left.split()?;
        Some((number, first))
    }

    /// The text of this kind whose length is at the place, and the place after it, if it is valid
    /// and ends at or before the fault.
    pub(crate) fn typed(&self, place: usize, kind: TextKind) -> Option<ValuePlace<'a>>
        ensures typed { IfSome result (λ spot. IsTyped self.now.bytes.now self.now.at kind place
            spot.types.now spot.place) }
        ensures within { IfSome result (λ spot. spot.place ≤ self.now.at) }
        ensures none { result ≡ None → (w : List ℕ) (q : ℕ) → q ≤ self.now.at →
            IsTyped self.now.bytes.now self.now.at kind place w q → ⊥ }
    {
        if place > self.at {
            return None;
        }
        let length = short_text(self.bytes, place, self.at, kind)?;
        let first = place + 1;
        Some(ValuePlace {
            types: &self.bytes[first..first + length],
            place: first + length + 1,
        })
    }

    // The element in which the fault is, of an array of this type whose length is at the place.
    fn element(&self, types: &'a [u8], place: usize) -> Option<(PathStep<'a>, ValuePlace<'a>)>
        ensures leads { IfSome result (λ r. (t : TypeTree) → sig t ≡ types.now → IsShaped true t →
            Leads self.now.bytes.now self.now.at (ArrayType t) place r.0 r.1) }
        ensures none { result ≡ None → (t : TypeTree) → sig t ≡ types.now → IsShaped true t →
            EntersNone self.now.bytes.now self.now.at (ArrayType t) place }
        ensures within { IfSome result (λ r. r.1.place ≤ self.now.at) }
    {
        let [code, ..] = types else {
            return None;
        };
        let length = self.aligned(place, b'a')?;
        let first = self.aligned(self.skip(length, 4)?, *code)?;
        let (index, element) = self.after_values(ValuePlace {
            types,
            place: first,
        });
        Some((self.step_to(element, index), element))
    }

    // The step to an element, in which the fault is: by its key if it has one, else by its number.
    fn step_to(&self, element: ValuePlace<'a>, number: usize) -> PathStep<'a>
        ensures { (t : TypeTree) → sig t ≡ element.entry.types.now → IsShaped true t →
            IsStepTo self.now.bytes.now self.now.at t element.entry.place number result }
    {
        match self.key(element) {
            Some(key) => PathStep::Keyed(key),
            None => PathStep::Number(number),
        }
    }

    // The key of a dict entry in which the fault is, if it is a short text, of printable ASCII, that
    // is whole before the fault.
    fn key(&self, entry: ValuePlace<'a>) -> Option<&'a str>
        ensures some { IfSome result (λ key. (t : TypeTree) → sig t ≡ entry.entry.types.now →
            IsShaped true t →
            IsKeyOf self.now.bytes.now self.now.at t entry.entry.place key.now) }
        ensures none { result ≡ None → (t : TypeTree) → sig t ≡ entry.entry.types.now →
            IsShaped true t → (key : List ℕ) →
            IsKeyOf self.now.bytes.now self.now.at t entry.entry.place key → ⊥ }
    {
        let [b'{', _, _, ..] = entry.types else {
            return None;
        };
        let place = self.aligned(entry.place, b'{')?;
        let types = &entry.types[1..2];
        let text = self.text(ValuePlace { types, place })?;
        if text.stated > MOST_OF_A_KEY {
            return None;
        }
        let end = self.skip(text.start, text.stated as usize)?;
        if end == self.at {
            return None;
        }
        printable(&self.bytes[text.start..end])
    }

    // The value in which the fault is, of a struct of these types at the place.
    fn member(&self, types: &'a [u8], place: usize) -> Option<(PathStep<'a>, ValuePlace<'a>)>
        ensures leads { IfSome result (λ r. (ts : TypeTrees) → sigs ts ≡ types.now → AreShaped ts →
            Leads self.now.bytes.now self.now.at (StructType ts) place r.0 r.1) }
        ensures none { result ≡ None → (ts : TypeTrees) → sigs ts ≡ types.now → AreShaped ts →
            EntersNone self.now.bytes.now self.now.at (StructType ts) place }
        ensures within { IfSome result (λ r. r.1.place ≤ self.now.at) }
    {
        let place = self.aligned(place, b'(')?;
        let (index, spot) = self.among(ValuePlace { types, place })?;
        Some((PathStep::Number(index), spot))
    }

    // The half in which the fault is, of a dict entry of these two types at the place.
    fn half(&self, types: &'a [u8], place: usize) -> Option<(PathStep<'a>, ValuePlace<'a>)>
        ensures leads { IfSome result (λ r. (k v : TypeTree) →
            sigs (MoreTypes k (MoreTypes v NoTypes)) ≡ types.now →
            AreShaped (MoreTypes k (MoreTypes v NoTypes)) →
            Leads self.now.bytes.now self.now.at (EntryType k v) place r.0 r.1) }
        ensures none { result ≡ None → (k v : TypeTree) →
            sigs (MoreTypes k (MoreTypes v NoTypes)) ≡ types.now →
            AreShaped (MoreTypes k (MoreTypes v NoTypes)) →
            EntersNone self.now.bytes.now self.now.at (EntryType k v) place }
        ensures within { IfSome result (λ r. r.1.place ≤ self.now.at) }
    {
        let place = self.aligned(place, b'{')?;
        let (index, spot) = self.among(ValuePlace { types, place })?;
        let step = if index == 0 {
            PathStep::Key
        } else {
            PathStep::Value
        };
        Some((step, spot))
    }

    // The value of a variant whose signature's length is at the place.
    fn inner(&self, place: usize) -> Option<(PathStep<'a>, ValuePlace<'a>)>
        ensures leads { IfSome result (λ r. Leads self.now.bytes.now self.now.at VariantType place
            r.0 r.1) }
        ensures none { result ≡ None →
            EntersNone self.now.bytes.now self.now.at VariantType place }
        ensures within { IfSome result (λ r. r.1.place ≤ self.now.at) }
    {
        let spot = self.typed(place, TextKind::Single)?;
        Some((PathStep::Variant, spot))
    }

    // The STRING or OBJECT_PATH at the place, if the fault is behind its length.
    fn long_text(&self, place: usize) -> Option<StatedText>
        ensures some { IfSome result (λ text. IsInText self.now.bytes.now self.now.at
            (TextType STRING) place text.start text.stated) }
        ensures none { result ≡ None → (start stated : ℕ) → IsInText self.now.bytes.now self.now.at
            (TextType STRING) place start stated → ⊥ }
    {
        let length = self.aligned(place, b's')?;
        let start = self.skip(length, 4)?;
        let stated = self.order.u32_at(self.bytes, length);
        Some(StatedText { start, stated })
    }

    // The SIGNATURE at the place, if the fault is behind its length.
    fn short_text(&self, place: usize) -> Option<StatedText>
        ensures some { IfSome result (λ text. IsInText self.now.bytes.now self.now.at
            (TextType SIGNATURE) place text.start text.stated) }
        ensures none { result ≡ None → (start stated : ℕ) → IsInText self.now.bytes.now self.now.at
            (TextType SIGNATURE) place start stated → ⊥ }
    {
        let start = self.skip(place, 1)?;
        let stated = u32::from(self.bytes[place]);
        Some(StatedText { start, stated })
    }

    /// The text of this type in which the fault is, if it is behind the text's length.
    pub(crate) fn text(&self, spot: ValuePlace<'a>) -> Option<StatedText>
        ensures some { IfSome result (λ text. (t : TypeTree) → sig t ≡ spot.entry.types.now →
            IsInText self.now.bytes.now self.now.at t spot.entry.place text.start text.stated) }
        ensures none { result ≡ None → (t : TypeTree) → sig t ≡ spot.entry.types.now →
            (start stated : ℕ) → IsInText self.now.bytes.now self.now.at t spot.entry.place
            start stated → ⊥ }
    {
        match spot.types {
            [b's' | b'o'] => self.long_text(spot.place),
            [b'g'] => self.short_text(spot.place),
            _ => None,
        }
    }

    /// The text in which the fault is, of the value of a header field at the place, if it is behind
    /// the text's length.
    pub(crate) fn field_text(&self, field: usize) -> Option<StatedText>
        ensures some { IfSome result (λ text. IsInFieldText self.now.bytes.now self.now.at field
            text.start text.stated) }
        ensures none { result ≡ None → (start stated : ℕ) →
            IsInFieldText self.now.bytes.now self.now.at field start stated → ⊥ }
    {
        let code = self.aligned(field, b'(')?;
        let value = self.typed(code + 1, TextKind::Single)?;
        self.text(value)
    }

    /// The value inside of this one in which the fault is, and the step to it.
    pub(crate) fn entered(&self, spot: ValuePlace<'a>) -> Option<(PathStep<'a>, ValuePlace<'a>)>
        ensures leads { IfSome result (λ r. (t : TypeTree) → sig t ≡ spot.entry.types.now →
            IsShaped true t →
            Leads self.now.bytes.now self.now.at t spot.entry.place r.0 r.1) }
        ensures none { result ≡ None → (t : TypeTree) → sig t ≡ spot.entry.types.now →
            IsShaped true t →
            EntersNone self.now.bytes.now self.now.at t spot.entry.place }
        ensures within { IfSome result (λ r. r.1.place ≤ self.now.at) }
    {
        match spot.types {
            [b'a', types @ ..] => self.element(types, spot.place),
            [b'(', types @ .., b')'] => self.member(types, spot.place),
            [b'{', types @ .., b'}'] => self.half(types, spot.place),
            [b'v'] => self.inner(spot.place),
            _ => None,
        }
    }
}

// The text that bytes are, if all are printable ASCII.
fn printable(bytes: &[u8]) -> Option<&str>
    ensures some { IfSome result (λ text. (text.now ≡ bytes.now) ×
        (list_all is_printable bytes.now ≡ true)) }
    ensures none { result ≡ None → list_all is_printable bytes.now ≡ true → ⊥ }
{
    if !are_printable(bytes) {
        return None;
    }
    // They are ASCII, so that they are text.
    Some(unsafe { str::from_utf8_unchecked(bytes) })
}

// Whether all bytes are printable characters of ASCII.
fn are_printable(bytes: &[u8]) -> bool
    ensures { result ≡ list_all is_printable bytes.now }
{
    bytes.iter().all(|byte| is_printable(*byte))
}

/// Whether a byte is a printable character of ASCII.
pub(crate) fn is_printable(byte: u8) -> bool
    ensures { result ≡ is_printable byte }
{
    matches!(byte, 32..=126)
}
