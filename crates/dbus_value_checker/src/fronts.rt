//! Fronts: items at the front of some bytes, each of them short.
//! D-Bus Specification, "Marshaling (Wire Format)".
//!
//! `bytes` are those of a message from `offset` on, as far as they are there; `offset` counts from
//! the message's first byte, and an item is to end at or before `end`. Each call gives what the
//! item says and how many bytes it has, once all of them are there; `Partial` if the bytes end
//! within it and show no fault; `Refused` with its first fault, whatever bytes follow. None takes
//! memory.
#![tactic(auto)]

ghost use Rattle.std.specs.Prelude.{◌≡◌, ◌+◌, ◌<◌, ◌≤◌, ◌^◌, ℕ, length, take, drop, IfOk, IfErr};
ghost use Rattle.dbus_value_model.specs.Bytes.{gap_to};
ghost use Rattle.dbus_texts.specs.Types.{NumberCode, TextCode, TypeTree, number_code, text_code};
ghost use Rattle.dbus_types.specs.Alignments.{width, length_width};
ghost use Rattle.dbus_value_model.specs.Reading.{padding, number, text, nul};
ghost use Rattle.dbus_texts.specs.Kinds.{IsKind};
ghost use Rattle.dbus_value_model.specs.declared.fault.Reason.TheVariants as reasons;
ghost use Rattle.dbus_value_model.specs.declared.order.Order.{Order};
ghost use Rattle.dbus_value_model.specs.WantedTexts.{Of};
ghost use Rattle.dbus_value_model.specs.Items.{text_reason};
ghost use Rattle.dbus_value_model.specs.ValueItems.{number_row, text_row};
ghost use Rattle.dbus_value_model.specs.ValueReaders.{array_frame};
ghost use Rattle.dbus_types.specs.SignatureCodes.{first_code};
ghost use Rattle.dbus_value_model.specs.declared.stop.Stop.TheVariants.{Partial};
ghost use Rattle.dbus_value_checker.specs.Fronts.{Fronts, IsThere, IsWord, IsByte};
ghost use Rattle.dbus_value_checker.specs.Suspended.{onward, done, ended_text};

use dbus_types::{TextKind, boundary, text_break};
use dbus_value_model::{Bounds, Order, Reason, Stop, gap, refuse};
use dbus_value_validator::is_ended_text;

/// The bytes after the first n.
pub fn rest_after(bytes: &[u8], n: usize) -> &[u8]
    requires { n ≤ length bytes.now }
    ensures { result.now ≡ drop n bytes.now }
{
    &bytes[n..]
}

/// The first n bytes, or those that are there.
pub fn front(bytes: &[u8], n: usize) -> &[u8]
    ensures { result.now ≡ take n bytes.now }
{
    if n < bytes.len() { &bytes[..n] } else { bytes }
}

/// The zeros up to the next multiple of `alignment`: how many.
///
/// `Overrun` at `offset` if they end past the end; else `Padding` at the first byte that is not 0.
pub fn padding(bytes: &[u8], offset: usize, end: usize, alignment: u8) -> Result<usize, Stop>
    requires some { 0 < alignment }
    requires few { alignment ≤ 8 }
    requires at_most { offset ≤ end }
    ensures gives { Fronts (λ n. (tt, n)) offset bytes.now result (padding alignment end) }
    ensures moves { IfOk result (λ n.
        (n ≡ gap_to alignment offset) × (offset + n ≤ end) × (n ≤ length bytes.now) × (n < 8)) }
    ensures short { IfErr result (λ e. e ≡ Partial → length bytes.now < 8) }
{
    let zeros = gap(alignment, offset);
    if end - offset < zeros {
        return refuse(offset, Reason::Overrun);
    }
    for i in 0..zeros {
        if i >= bytes.len() {
            return Err(Stop::Partial);
        }
        if bytes[i] != 0 {
            return refuse(offset + i, Reason::Padding);
        }
    }
    Ok(zeros)
}

/// A number of `width` bytes, whatever it is.
///
/// `Overrun` at `offset` if it ends past the end.
pub fn fixed(bytes: &[u8], offset: usize, end: usize, width: usize) -> Result<(), Stop>
    requires at_most { offset ≤ end }
    ensures { IsThere width offset end bytes.now result }
{
    if end - offset < width {
        return refuse(offset, Reason::Overrun);
    }
    if bytes.len() < width {
        return Err(Stop::Partial);
    }
    Ok(())
}

/// A number of four bytes.
///
/// `Overrun` at `offset` if it ends past the end.
pub fn word(bytes: &[u8], offset: usize, end: usize, order: Order) -> Result<u32, Stop>
    requires at_most { offset ≤ end }
    ensures { IsWord order offset end bytes.now result }
{
    fixed(bytes, offset, end, 4)?;
    Ok(order.u32_at(bytes, 0))
}

/// A number of one byte.
///
/// `Overrun` at `offset` if it ends past the end.
pub fn byte(bytes: &[u8], offset: usize, end: usize) -> Result<u8, Stop>
    requires at_most { offset ≤ end }
    ensures { IsByte offset end bytes.now result }
{
    fixed(bytes, offset, end, 1)?;
    Ok(bytes[0])
}

/// The row of the fault table that a number of the type that has this code meets: that of BOOLEAN
/// or of UNIX_FD.
fn row_of(code: u8, n: u32, index_limit: Option<u32>) -> Option<Reason>
    ensures { (k : NumberCode) (p : ℕ) → number_code k ≡ code →
        result ≡ number_row index_limit k p n }
{
    if code == b'b' {
        return if n > 1 { Some(Reason::Bool) } else { None };
    }
    if code == b'h' {
        return match index_limit {
            Some(limit) if n >= limit => Some(Reason::FdIndex),
            _ => None,
        };
    }
    None
}

/// A number of the type that has this code: how many bytes it has. Its padding is taken already.
///
/// `Overrun` at `offset` if it ends past the end; `Bool` there if it is a BOOLEAN and neither 0 nor
/// 1; `FdIndex` there if it is a UNIX_FD and not below `index_limit`, if that is something. D-Bus
/// Specification, "Basic types".
pub fn number_front(
    code: u8,
    bytes: &[u8],
    offset: usize,
    end: usize,
    order: Order,
    index_limit: Option<u32>,
) -> Result<usize, Stop>
    requires at_most { offset ≤ end }
    ensures gives { (k : NumberCode) → number_code k ≡ code →
        Fronts (λ n. (tt, n)) offset bytes.now result
        (onward (number order (width k) end (number_row index_limit k)) done) }
    ensures moves { IfOk result (λ n. (0 < n) × (n ≤ length bytes.now) × (offset + n ≤ end)) }
    ensures short { IfErr result (λ e. e ≡ Partial → length bytes.now < 8) }
{
    if code == b'b' || code == b'h' {
        return match word(bytes, offset, end, order) {
            Ok(n) => match row_of(code, n, index_limit) {
                Some(reason) => refuse(offset, reason),
                None => Ok(4),
            },
            Err(stop) => Err(stop),
        };
    }
    // A number's boundary is its width.
    let width = usize::from(boundary(code));
    match fixed(bytes, offset, end, width) {
        Ok(()) => Ok(width),
        Err(stop) => Err(stop),
    }
}

/// The length of a signature.
///
/// `Overrun` at `offset` if the length, the text or the zero after it ends past the end.
pub fn short_length_front(bytes: &[u8], offset: usize, end: usize) -> Result<usize, Stop>
    requires at_most { offset ≤ end }
    ensures gives { (order : Order) →
        Fronts (λ n. (n, 1)) offset bytes.now result (number order 1 end (text_row end)) }
    ensures moves { IfOk result (λ n. (n < 256) × (1 ≤ length bytes.now) ×
        (offset + 1 + n + 1 ≤ end)) }
    ensures short { IfErr result (λ e. e ≡ Partial → length bytes.now < 1) }
{
    let n = match byte(bytes, offset, end) {
        Ok(n) => n as usize,
        Err(stop) => return Err(stop),
    };
    if end - (offset + 1) <= n {
        return refuse(offset, Reason::Overrun);
    }
    Ok(n)
}

/// The length of a text of the type that has this code, and how many bytes the length has: one for
/// a SIGNATURE, else four. Its padding is taken already.
///
/// `Overrun` at `offset` if the length, the text or the zero after it ends past the end.
pub fn length_front(
    code: u8,
    bytes: &[u8],
    offset: usize,
    end: usize,
    order: Order,
) -> Result<(usize, usize), Stop>
    requires at_most { offset ≤ end }
    ensures gives { (k : TextCode) → text_code k ≡ code →
        Fronts (λ x. x) offset bytes.now result (number order (length_width k) end (text_row end)) }
    ensures moves { IfOk result (λ x. (0 < x.1) × (x.1 ≤ length bytes.now) ×
        (offset + x.1 + x.0 + 1 ≤ end)) }
    ensures short { IfErr result (λ e. e ≡ Partial → length bytes.now < 4) }
{
    if code == b'g' {
        return match short_length_front(bytes, offset, end) {
            Ok(n) => Ok((n, 1)),
            Err(stop) => Err(stop),
        };
    }
    match word(bytes, offset, end, order) {
        Ok(n) => {
            let n = n as usize;
            if end - (offset + 4) <= n {
                refuse(offset, Reason::Overrun)
            } else {
                Ok((n, 4))
            }
        }
        Err(stop) => Err(stop),
    }
}

/// How many bytes the elements of an array have, whose type begins with this code, and how many
/// bytes come before them: those of the length and of the padding after it. The padding before the
/// length is taken already.
///
/// `ArrayTooLong` at `offset` if they are over the bounds' array; else `Overrun` there if they end
/// past the end; else the faults of the padding.
pub fn array_front(
    code: u8,
    bytes: &[u8],
    offset: usize,
    end: usize,
    order: Order,
    bounds: Bounds,
) -> Result<(usize, usize), Stop>
    requires at_most { offset ≤ end }
    ensures gives { (t : TypeTree) → first_code t ≡ code →
        Fronts (λ x. x) offset bytes.now result (array_frame bounds order end t) }
    ensures moves { IfOk result (λ x. (4 ≤ x.1) × (x.1 ≤ length bytes.now) ×
        (offset + x.1 + x.0 ≤ end)) }
    ensures short { IfErr result (λ e. e ≡ Partial → length bytes.now < 12) }
{
    let n = match word(bytes, offset, end, order) {
        Ok(n) => n,
        Err(stop) => return Err(stop),
    };
    if n > bounds.array {
        return refuse(offset, Reason::ArrayTooLong);
    }
    let n = n as usize;
    let boundary = boundary(code);
    if end - (offset + 4) < gap(boundary, offset + 4) + n {
        return refuse(offset, Reason::Overrun);
    }
    match padding(rest_after(bytes, 4), offset + 4, end, boundary) {
        Ok(zeros) => Ok((n, 4 + zeros)),
        Err(stop) => Err(stop),
    }
}

/// A text of n bytes of a kind, whose length is taken already.
///
/// The fault `reason` where the text breaks: at the first byte that no text of the kind goes on
/// with, or after its last byte if it may not end there.
pub fn text_front(
    kind: TextKind,
    n: usize,
    bytes: &[u8],
    offset: usize,
    reason: Reason,
) -> Result<(), Stop>
    requires near { offset + n < 2 ^ 64 }
    requires reason { text_reason (Of kind) ≡ reason }
    ensures gives { Fronts (λ _. (take n bytes.now, n)) offset bytes.now result (text (Of kind) n) }
    ensures kind { IfOk result (λ _. IsKind kind (take n bytes.now)) }
    ensures short { IfErr result (λ e. e ≡ Partial → length bytes.now < n) }
{
    let given = front(bytes, n);
    match text_break(kind, given) {
        None if given.len() < n => Err(Stop::Partial),
        None => Ok(()),
        Some(i) if i < given.len() => refuse(offset + i, reason),
        Some(_) if given.len() < n => Err(Stop::Partial),
        Some(i) => refuse(offset + i, reason),
    }
}

/// The zero after a text.
///
/// `Nul` at `offset` if the byte is not 0.
pub fn nul_front(bytes: &[u8], offset: usize) -> Result<(), Stop>
    ensures gives { Fronts (λ _. (tt, 1)) offset bytes.now result nul }
    ensures short { IfErr result (λ e. e ≡ Partial → length bytes.now < 1) }
{
    if bytes.is_empty() {
        return Err(Stop::Partial);
    }
    if bytes[0] != 0 {
        return refuse(offset, Reason::Nul);
    }
    Ok(())
}

/// A text of n bytes of a kind and the zero after it, whose length is taken already: the faults of
/// [`text_front`], then that of [`nul_front`].
pub fn ended_front(
    kind: TextKind,
    n: usize,
    bytes: &[u8],
    offset: usize,
    reason: Reason,
) -> Result<(), Stop>
    requires near { offset + n < 2 ^ 64 }
    requires reason { text_reason (Of kind) ≡ reason }
    ensures gives { Fronts (λ _.
        (take n bytes.now, n + 1)) offset bytes.now result (ended_text (Of kind) n) }
    ensures kind { IfOk result (λ _. IsKind kind (take n bytes.now)) }
    ensures there { IfOk result (λ _. n + 1 ≤ length bytes.now) }
    ensures short { IfErr result (λ e. e ≡ Partial → length bytes.now < n + 1) }
{
    // Most are there whole, and valid.
    if n < bytes.len() && is_ended_text(bytes, 0, n, kind) {
        return Ok(());
    }
    match text_front(kind, n, bytes, offset, reason) {
        Ok(()) => {}
        Err(stop) => return Err(stop),
    }
    match nul_front(rest_after(bytes, n), offset + n) {
        Ok(()) => Ok(()),
        Err(stop) => Err(stop),
    }
}
