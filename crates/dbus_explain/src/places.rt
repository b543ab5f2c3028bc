//! Where in a message a fault is, by name. D-Bus Specification, "Message Format", "Header Fields".
#![tactic(auto)]

ghost use Rattle.std.specs.Prelude.{◌≡◌, ◌<◌, ◌≤◌, ◌^◌, ℕ, List, IfSome, None, length, true};
ghost use Rattle.dbus_texts.specs.Types.{TypeTree, TypeTrees, IsShaped, AreShaped, sig, sigs};
ghost use Rattle.dbus_explain.specs.Explained.{place_in};
ghost use Rattle.dbus_explain.specs.Names.{IsFieldName, IsFieldOf, IsNameOf, IsValueName, code_name};
ghost use Rattle.dbus_explain.specs.Names.{first_part, path_text, text_part};
ghost use Rattle.dbus_explain.specs.Places.{AreBodyTypes, IsAmong, IsAmongNone, IsInField};
ghost use Rattle.dbus_explain.specs.Places.{IsSignatureField, IsWholePath, body_begin, fields_end};
ghost use Rattle.dbus_explain.specs.Places.{order_of};
ghost use Rattle.dbus_explain.specs.declared.path.PathStep.{PathStep as StepTo};

use crate::message::place_in;
use crate::path::{PathStep, write_step};
use crate::search::{Search, StatedText, ValuePlace};
use dbus_show::{Draft, write_field_name, write_integer};
use dbus_types::TextKind;
use dbus_value_model::{Fault, Order, Reason, padding_length};

/// Where the header fields begin.
pub(crate) const FIELDS: usize = 16;

/// The type of a header field.
pub(crate) const FIELD: &[u8] = b"(yv)";

/// The code of the field that has the types of the body.
const SIGNATURE: u8 = 8;

/// How many values are entered at most: 64 containers, and a dict entry in each.
const MOST_ENTERED: usize = 128;

/// Appends the name of the place at which the message is at fault, and returns the text that it is
/// in, if it is in one.
pub(crate) fn write_name<D: Draft>(
    draft: &mut D,
    bytes: &[u8],
    reason: Reason,
    at: usize,
) -> Option<StatedText>
    requires { at ≤ length bytes.now }
    ensures { (name : List ℕ) × IsNameOf bytes.now reason at name result ×
        D.gains draft.old name draft.new }
{
    if at < FIELDS {
        draft.push_str(first_part(at));
        return None;
    }
    let order = order_of(bytes);
    let fields_end = end_of_fields(bytes);
    let body = body_begin(bytes);
    let search = Search { bytes, order, at };
    if let Reason::FieldMissing(_) = reason {
        draft.push_str("the end of the header fields");
        None
    } else if at < fields_end {
        write_field(draft, &search)
    } else if at < body {
        draft.push_str("the padding after the header fields");
        None
    } else {
        write_value(draft, &search, body)
    }
}

/// The code of the header field that a fault of a message is of: of the one that is missing, or of
/// the one that its place is in; 0 if it is in none. Any bytes and any fault are safe. D-Bus
/// Specification, "Header Fields".
pub fn field_of(bytes: &[u8], fault: Fault) -> u8
    ensures { IsFieldOf bytes.now fault.reason (place_in bytes.now fault) result }
{
    if let Reason::FieldMissing(code) = fault.reason {
        return code;
    }
    let at = place_in(bytes, fault);
    if at < FIELDS {
        return 0;
    }
    if at >= end_of_fields(bytes) {
        return 0;
    }
    let order = order_of(bytes);
    match field_at(&Search { bytes, order, at }) {
        Some((_, code)) => code,
        None => 0,
    }
}

/// Where the header fields end, by the length that is stated of them.
pub(crate) fn end_of_fields(bytes: &[u8]) -> usize
    requires { 16 ≤ length bytes.now }
    ensures fields { result ≡ fields_end bytes.now }
    ensures near { result < 2 ^ 33 }
{
    FIELDS + order_of(bytes).u32_at(bytes, 12) as usize
}

/// Where the body begins, after the padding behind the header fields.
pub(crate) fn body_begin(bytes: &[u8]) -> usize
    requires { 16 ≤ length bytes.now }
    ensures { result ≡ body_begin bytes.now }
{
    let fields_end = end_of_fields(bytes);
    fields_end + usize::from(padding_length(8, fields_end as u64))
}

/// The byte order of a message that is at fault: little, if its first byte says none.
pub(crate) fn order_of(bytes: &[u8]) -> Order
    ensures { result ≡ order_of bytes.now }
{
    match bytes {
        [b'B', ..] => Order::Big,
        _ => Order::Little,
    }
}

// The part of the first 16 bytes in which the place is.
fn first_part(at: usize) -> &'static str
    ensures { result.now ≡ first_part at }
{
    match at {
        0 => "the byte order",
        1 => "the message type",
        2 => "the flags",
        3 => "the protocol version",
        4..=7 => "the length of the body",
        8..=11 => "the serial",
        _ => "the length of the header fields",
    }
}

// Appends the name of the header field in which the fault is, and returns the text that it is in.
fn write_field<D: Draft>(draft: &mut D, search: &Search) -> Option<StatedText>
    requires { 16 ≤ search.now.at }
    ensures { (name : List ℕ) × IsFieldName search.now.bytes.now search.now.at name result ×
        D.gains draft.old name draft.new }
{
    match field_at(search) {
        Some((field, code)) => {
            draft.push_str("header field ");
            write_code(draft, code);
            search.field_text(field)
        }
        None => {
            draft.push_str("the header fields");
            None
        }
    }
}

// Where the header field is in which the fault is, and its code.
fn field_at(search: &Search) -> Option<(usize, u8)>
    requires { 16 ≤ search.now.at }
    ensures some { IfSome result (λ r. IsInField search.now.bytes.now search.now.at r.0 r.1) }
    ensures none { result ≡ None → (p code : ℕ) →
        IsInField search.now.bytes.now search.now.at p code → ⊥ }
{
    let first = ValuePlace {
        types: FIELD,
        place: FIELDS,
    };
    let (_, field) = search.after_values(first);
    let place = search.aligned(field.place, b'(')?;
    if place >= search.bytes.len() {
        return None;
    }
    Some((field.place, search.bytes[place]))
}

// Appends the name of a header field of this code, or the code if it has none.
fn write_code<D: Draft>(draft: &mut D, code: u8)
    ensures { D.gains draft.old (code_name code) draft.new }
{
    match code {
        1..=9 => write_field_name(draft, code),
        _ => write_integer(draft, code),
    }
}

// Appends the path to the value of the body in which the fault is, and returns the text that it is
// in.
fn write_value<D: Draft>(draft: &mut D, search: &Search, body: usize) -> Option<StatedText>
    requires begin { body ≡ body_begin search.now.bytes.now }
    requires within { body ≤ search.now.at }
    requires fields { 16 ≤ search.now.at }
    ensures { (name : List ℕ) × IsValueName search.now.bytes.now search.now.at name result ×
        D.gains draft.old name draft.new }
{
    match body_value(search, body) {
        Some((number, value)) => {
            draft.push_str("body");
            write_step(draft, PathStep::Number(number));
            let last = write_steps(draft, search, value);
            search.text(last)
        }
        None => {
            draft.push_str("the end of the body");
            None
        }
    }
}

// The value of the body in which the fault is, and its number from 0.
fn body_value<'a>(search: &Search<'a>, body: usize) -> Option<(usize, ValuePlace<'a>)>
    requires within { body ≤ search.now.at }
    requires fields { 16 ≤ search.now.at }
    ensures some { IfSome result (λ r. (ts : TypeTrees) × (t : TypeTree) ×
        AreBodyTypes search.now.bytes.now search.now.at ts ×
        (sig t ≡ r.1.types.now) × IsShaped true t ×
        IsAmong search.now.bytes.now search.now.at ts body r.0 t r.1.place) }
    ensures none { result ≡ None → (ts : TypeTrees) →
        AreBodyTypes search.now.bytes.now search.now.at ts →
        IsAmongNone search.now.bytes.now search.now.at ts body }
{
    let types = body_types(search)?;
    search.among(ValuePlace { types, place: body })
}

// Appends the steps from a value to the one in it in which the fault is, and returns that one.
fn write_steps<'a, D: Draft>(
    draft: &mut D,
    search: &Search<'a>,
    value: ValuePlace<'a>,
) -> ValuePlace<'a>
    ensures { (steps : List StepTo) × D.gains draft.old (path_text steps) draft.new ×
        ((t : TypeTree) → sig t ≡ value.entry.types.now → IsShaped true t →
        (u : TypeTree) × (sig u ≡ result.types.now) ×
        IsWholePath search.now.bytes.now search.now.at t value.entry.place steps u
        result.place) }
{
    let mut spot = value;
    for _ in 0..MOST_ENTERED {
        let Some((step, inside)) = search.entered(spot) else {
            return spot;
        };
        write_step(draft, step);
        spot = inside;
    }
    spot
}

/// Appends where the text begins in which the fault is, and the length that is stated of it, if
/// there is one.
pub(crate) fn write_text_part<D: Draft>(draft: &mut D, text: Option<StatedText>)
    ensures { D.gains draft.old (text_part text) draft.new }
{
    if let Some(text) = text {
        draft.push_str(", a text from byte ");
        write_integer(draft, text.start);
        draft.push_str(" of stated length ");
        write_integer(draft, text.stated);
    }
}

/// The types of the body, by the first SIGNATURE field, which is a variant.
pub(crate) fn body_types<'a>(search: &Search<'a>) -> Option<&'a [u8]>
    requires { 16 ≤ search.now.at }
    ensures some { IfSome result (λ types. (ts : TypeTrees) × (sigs ts ≡ types.now) ×
        AreShaped ts × AreBodyTypes search.now.bytes.now search.now.at ts) }
    ensures none { result ≡ None → (ts : TypeTrees) →
        AreBodyTypes search.now.bytes.now search.now.at ts → ⊥ }
{
    let mut place = FIELDS;
    for _ in 0..search.bytes.len() {
        if let Some(types) = signature_field(search, place) {
            return Some(types);
        }
        place = search.passed(ValuePlace {
            types: FIELD,
            place,
        })?;
    }
    None
}

// The signature in a header field at this place, if that is a SIGNATURE field.
fn signature_field<'a>(search: &Search<'a>, place: usize) -> Option<&'a [u8]>
    ensures some { IfSome result (λ types. IsSignatureField search.now.bytes.now search.now.at
        place types.now) }
    ensures none { result ≡ None → (w : List ℕ) →
        IsSignatureField search.now.bytes.now search.now.at place w → ⊥ }
{
    let code = search.aligned(place, b'(')?;
    if code >= search.bytes.len() || search.bytes[code] != SIGNATURE {
        return None;
    }
    let variant = search.typed(code + 1, TextKind::Signature)?;
    let signature = search.typed(variant.place, TextKind::Signature)?;
    Some(signature.types)
}
