//! The parts of a header's field at the front of some bytes.
//!
//! The bytes begin at the offset `offset` of a message, and more may follow them. Each call says
//! how many bytes the part has; `Partial` if the bytes end within it; or `Refused` with its fault,
//! as soon as they show it. None takes memory.
#![tactic(auto)]

ghost use Rattle.std.specs.Prelude.{◌&&◌, false, ◌≡◌, ◌+◌, ◌<◌, ◌≤◌, [], ◌∷◌, ℕ, List, length, take, drop, IfOk, IfErr};
ghost use Rattle.dbus_value_model.specs.declared.fault.Reason.TheVariants as reasons;
ghost use Rattle.dbus_value_model.specs.declared.order.Order.{Order};
ghost use Rattle.dbus_value_model.specs.declared.stop.Stop.TheVariants.{Partial};
ghost use Rattle.dbus_value_model.specs.Reading.{number, text};
ghost use Rattle.dbus_header.specs.MessageItems.{name_row};
ghost use Rattle.dbus_value_model.specs.WantedTexts.{Only};
ghost use Rattle.dbus_message_model.specs.Messages.{is_known};
ghost use Rattle.dbus_value_checker.specs.Fronts.{Fronts};
ghost use Rattle.dbus_value_checker.specs.Suspended.{short_text};
ghost use Rattle.dbus_check.specs.Heading.{field_code, padded_number, uint32_row, has};
ghost use Rattle.dbus_check.specs.Progress.{Sees};

use crate::seen::Seen;
use dbus_header::NAME_LIMIT;
use dbus_value_checker::{byte, front, nul_front, padding, rest_after, short_length_front, word};
use dbus_value_model::{Limits, Order, Reason, Stop, refuse};

/// A field's padding and code.
///
/// The faults of the padding; `FieldCode` if the code is 0; `FieldTwice` if it is known and was
/// seen; `TooDeep` after the padding if the field's struct may not be opened, after the code if its
/// variant may not.
pub fn code_front(
    bytes: &[u8],
    offset: usize,
    end: usize,
    limits: Limits,
    seen: &Seen,
) -> Result<(u8, usize), Stop>
    requires at_most { offset ≤ end }
    ensures gives { (order : Order) (codes : List ℕ) → Sees seen.now codes →
        Fronts (λ x. x) offset bytes.now result (field_code limits order end codes) }
    ensures moves { IfOk result (λ x.
        (0 < x.0) × (0 < x.1) × (x.1 ≤ length bytes.now) × (offset + x.1 ≤ end) ×
        (3 ≤ limits.depth)) }
    ensures once { IfOk result (λ x. (codes : List ℕ) →
        Sees seen.now codes → (is_known x.0 && has x.0 codes) ≡ false) }
    ensures few { IfOk result (λ x. x.1 ≤ 8) }
    ensures short { IfErr result (λ e. e ≡ Partial → length bytes.now < 8) }
{
    let zeros = padding(bytes, offset, end, 8)?;
    let at = offset + zeros;
    if limits.depth < 2 {
        return refuse(at, Reason::TooDeep);
    }
    let code = byte(rest_after(bytes, zeros), at, end)?;
    if code == 0 {
        return refuse(at, Reason::FieldCode);
    }
    if seen.is_again(code) {
        return refuse(at, Reason::FieldTwice);
    }
    if limits.depth < 3 {
        return refuse(at + 1, Reason::TooDeep);
    }
    Ok((code, zeros + 1))
}

/// A text of n bytes that has to be the one byte `wanted`: `FieldType` at its first byte if that is
/// another, at its second if it has one, and at its end if it is empty.
fn only_text(wanted: u8, n: usize, bytes: &[u8], offset: usize) -> Result<(), Stop>
    requires near { offset + n < 4294967296 }
    ensures gives { Fronts (λ _.
        (wanted ∷ [], 1)) offset bytes.now result (text (Only (wanted ∷ [])) n) }
    ensures one { IfOk result (λ _. n ≡ 1) }
    ensures short { IfErr result (λ e. e ≡ Partial → length bytes.now < 2) }
{
    let given = front(bytes, n);
    if given.is_empty() {
        if n > 0 {
            return Err(Stop::Partial);
        }
        return refuse(offset, Reason::FieldType);
    }
    if given[0] != wanted {
        return refuse(offset, Reason::FieldType);
    }
    if given.len() > 1 {
        return refuse(offset + 1, Reason::FieldType);
    }
    if n > 1 {
        return Err(Stop::Partial);
    }
    Ok(())
}

/// The signature of a known field's value, which is to be the one byte `wanted`: its length, its
/// text and the zero after it.
pub fn only_front(wanted: u8, bytes: &[u8], offset: usize, end: usize) -> Result<(), Stop>
    requires at_most { offset ≤ end }
    requires near { end < 4294967296 }
    ensures gives { (order : Order) →
        Fronts (λ _. (wanted ∷ [], 3)) offset bytes.now result
        (short_text order end (Only (wanted ∷ []))) }
    ensures moves { IfOk result (λ _. (3 ≤ length bytes.now) × (offset + 3 ≤ end)) }
    ensures short { IfErr result (λ e. e ≡ Partial → length bytes.now < 3) }
{
    let n = short_length_front(bytes, offset, end)?;
    let rest = rest_after(bytes, 1);
    only_text(wanted, n, rest, offset + 1)?;
    nul_front(rest_after(rest, 1), offset + 1 + 1)?;
    Ok(())
}

/// The length of a name, and how many bytes it has with its padding.
///
/// The faults of the padding; `NameTooLong` at the length if it is over 255; else `Overrun` there
/// if the name and the zero after it end past the end.
pub fn name_length_front(
    bytes: &[u8],
    offset: usize,
    end: usize,
    order: Order,
) -> Result<(usize, usize), Stop>
    requires at_most { offset ≤ end }
    requires near { end < 4294967296 }
    ensures gives { Fronts (λ x.
        x) offset bytes.now result (padded_number order end (name_row end)) }
    ensures moves { IfOk result (λ x.
        (x.1 ≤ length bytes.now) × (offset + x.1 + x.0 + 1 ≤ end)) }
    ensures short { IfErr result (λ e. e ≡ Partial → length bytes.now < 8) }
{
    let zeros = padding(bytes, offset, end, 4)?;
    let at = offset + zeros;
    let n = word(rest_after(bytes, zeros), at, end, order)?;
    if n > NAME_LIMIT {
        return refuse(at, Reason::NameTooLong);
    }
    let n = n as usize;
    if end - (at + 4) <= n {
        return refuse(at, Reason::Overrun);
    }
    Ok((n, zeros + 4))
}

/// A UINT32, and how many bytes it has with its padding. `ZeroSerial` at the number if it is to be
/// a serial and is 0.
pub fn uint32_front(
    serial: bool,
    bytes: &[u8],
    offset: usize,
    end: usize,
    order: Order,
) -> Result<(u32, usize), Stop>
    requires at_most { offset ≤ end }
    ensures gives { Fronts (λ x.
        x) offset bytes.now result (padded_number order end (uint32_row serial)) }
    ensures moves { IfOk result (λ x. (x.1 ≤ length bytes.now) × (offset + x.1 ≤ end)) }
    ensures short { IfErr result (λ e. e ≡ Partial → length bytes.now < 8) }
{
    let zeros = padding(bytes, offset, end, 4)?;
    let n = word(rest_after(bytes, zeros), offset + zeros, end, order)?;
    if !serial {
        return Ok((n, zeros + 4));
    }
    if n == 0 {
        return refuse(offset + zeros, Reason::ZeroSerial);
    }
    Ok((n, zeros + 4))
}
