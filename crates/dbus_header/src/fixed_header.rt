//! The items of a message that have fixed places: its first sixteen bytes.
#![tactic(auto)]

ghost use Rattle.std.specs.Prelude.{◌≡◌, ◌+◌, ◌≤◌, ◌<◌, length, drop, IfOk};
ghost use Rattle.dbus_value_model.specs.declared.fault.Reason.TheVariants as reasons;
ghost use Rattle.dbus_value_model.specs.declared.order.Order.{Order};
ghost use Rattle.dbus_value_model.specs.ValueReaders.{Gives};
ghost use Rattle.dbus_value_model.specs.Reading.{number};
ghost use Rattle.dbus_value_model.specs.Bytes.{gap_to};
ghost use Rattle.dbus_value_model.specs.Items.{no_row};
ghost use Rattle.dbus_header.specs.HeaderReading.{fixed_header, byte_order};
ghost use Rattle.dbus_header.specs.MessageItems.{not_zero_row, version_row, fields_row};

use crate::opening::check_open;
use dbus_message_model::order_named;
use dbus_value_model::{Limits, Order, Reason, Stop, padding_length, refuse};

/// What the first sixteen bytes of a message say. D-Bus Specification, "Message Format".
#[derive(Clone, Copy)]
pub struct FixedHeader {
    /// The byte order of its numbers.
    pub order: Order,
    /// The message type.
    pub kind: u8,
    /// The flags.
    pub flags: u8,
    /// The length of the body, in bytes.
    pub body: u32,
    /// The serial.
    pub serial: u32,
    /// The length of the field array's contents, in bytes.
    pub fields: u32,
}

/// The byte order, at 0: `ByteOrder` if the byte is neither `l` nor `B`.
#[tactic(auto, using(crate::proofs::Whole::orders))]
fn read_order(bytes: &[u8]) -> Result<Order, Stop>
    ensures gives { Gives (λ order. (order, 1)) bytes.now result (byte_order 0 bytes.now) }
    ensures there { IfOk result (λ _. 1 ≤ length bytes.now) }
{
    if bytes.is_empty() {
        return Err(Stop::Partial);
    }
    match order_named(u32::from(bytes[0])) {
        Some(order) => Ok(order),
        None => refuse(0, Reason::ByteOrder),
    }
}

/// A number of one byte.
fn read_byte(bytes: &[u8], at: usize) -> Result<u8, Stop>
    requires within { at < 16 }
    requires inside { at ≤ length bytes.now }
    ensures gives { (order : Order) →
        Gives (λ n. (n, at + 1)) bytes.now result (number order 1 16 no_row at (drop at bytes.now)) }
    ensures there { IfOk result (λ _. at + 1 ≤ length bytes.now) }
{
    if at == bytes.len() {
        return Err(Stop::Partial);
    }
    Ok(bytes[at])
}

/// A number of four bytes, which needs no padding.
fn read_u32(bytes: &[u8], at: usize, order: Order) -> Result<u32, Stop>
    requires within { at ≤ 12 }
    requires inside { at ≤ length bytes.now }
    ensures gives { Gives (λ n. (n, at + 4)) bytes.now result
        (number order 4 16 no_row at (drop at bytes.now)) }
    ensures there { IfOk result (λ _. at + 4 ≤ length bytes.now) }
{
    if bytes.len() - at < 4 {
        return Err(Stop::Partial);
    }
    Ok(order.u32_at(bytes, at))
}

/// The message type, at 1: `Kind` if it is 0.
fn read_kind(bytes: &[u8]) -> Result<u8, Stop>
    requires { 1 ≤ length bytes.now }
    ensures gives { (order : Order) →
        Gives (λ kind. (kind, 2)) bytes.now result
        (number order 1 16 (not_zero_row reasons.Kind) 1 (drop 1 bytes.now)) }
    ensures there { IfOk result (λ _. 2 ≤ length bytes.now) }
{
    let kind = read_byte(bytes, 1)?;
    if kind == 0 {
        return refuse(1, Reason::Kind);
    }
    Ok(kind)
}

/// The protocol version, at 3: `Version` if it is not 1.
fn read_version(bytes: &[u8]) -> Result<(), Stop>
    requires { 3 ≤ length bytes.now }
    ensures gives { (order : Order) →
        Gives (λ _. (1, 4)) bytes.now result (number order 1 16 version_row 3 (drop 3 bytes.now)) }
    ensures there { IfOk result (λ _. 4 ≤ length bytes.now) }
{
    let version = read_byte(bytes, 3)?;
    if version != 1 {
        return refuse(3, Reason::Version);
    }
    Ok(())
}

/// The serial, at 8: `ZeroSerial` if it is 0.
fn read_serial(bytes: &[u8], order: Order) -> Result<u32, Stop>
    requires { 8 ≤ length bytes.now }
    ensures gives { Gives (λ serial. (serial, 12)) bytes.now result
        (number order 4 16 (not_zero_row reasons.ZeroSerial) 8 (drop 8 bytes.now)) }
    ensures there { IfOk result (λ _. 12 ≤ length bytes.now) }
{
    let serial = read_u32(bytes, 8, order)?;
    if serial == 0 {
        return refuse(8, Reason::ZeroSerial);
    }
    Ok(serial)
}

/// The length of the field array, at 12, if the body has `body` bytes: `ArrayTooLong` if it is over
/// the limits' array, else `MessageTooLong` if the message is over their message.
fn read_fields_length(bytes: &[u8], order: Order, body: u32, limits: Limits) -> Result<u32, Stop>
    requires { 12 ≤ length bytes.now }
    ensures gives { Gives (λ n. (n, 16)) bytes.now result
        (number order 4 16 (fields_row limits body) 12 (drop 12 bytes.now)) }
    ensures there { IfOk result (λ n.
        (16 ≤ length bytes.now) × (16 + n + gap_to 8 (16 + n) + body ≤ limits.message)) }
{
    let fields = read_u32(bytes, 12, order)?;
    if fields > limits.array {
        return refuse(12, Reason::ArrayTooLong);
    }
    let end = 16 + u64::from(fields);
    if end + u64::from(padding_length(8, end)) + u64::from(body) > u64::from(limits.message) {
        return refuse(12, Reason::MessageTooLong);
    }
    Ok(fields)
}

/// The items that have fixed places, in their order. `TooDeep` at 12 if the field array may not be
/// opened.
#[tactic(auto, unfolding(crate::specs::HeaderReading::fixed_header))]
pub fn read_fixed_header(bytes: &[u8], limits: Limits) -> Result<FixedHeader, Stop>
    ensures gives { Gives (λ h. (h, 16)) bytes.now result (fixed_header limits 0 bytes.now) }
    ensures there { IfOk result (λ h.
        (0 < limits.depth) × (16 ≤ length bytes.now) ×
        (16 + h.fields + gap_to 8 (16 + h.fields) + h.body ≤ limits.message)) }
{
    let order = read_order(bytes)?;
    let kind = read_kind(bytes)?;
    let flags = read_byte(bytes, 2)?;
    read_version(bytes)?;
    let body = read_u32(bytes, 4, order)?;
    let serial = read_serial(bytes, order)?;
    check_open(limits, 0, 12)?;
    let fields = read_fields_length(bytes, order, body, limits)?;
    Ok(FixedHeader {
        order,
        kind,
        flags,
        body,
        serial,
        fields,
    })
}
