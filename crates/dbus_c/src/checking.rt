//! Whether bytes begin with a message, in numbers.
#![tactic(auto)]

ghost use Rattle.std.specs.Prelude.{◌≡◌, ◌<◌, ◌≤◌, length, IfOk, IfErr};
ghost use Rattle.dbus_header.specs.MessageOutcomes.{IsRefused, IsWhole};
ghost use Rattle.dbus_message_model.specs.Messages.{MessageTree};
ghost use Rattle.dbus_value_model.specs.declared.limits.Limits.{Limits};
ghost use Rattle.dbus_value_model.specs.declared.order.Order.{Order};
ghost use Rattle.dbus_c.specs.Checking.{IsChecked, answer_of as check_answer, fault_told};
ghost use Rattle.dbus_c.specs.Checking.{nothing_told, whole_told};
ghost use Rattle.dbus_check.specs.declared.check.Check.TheVariants.{Refused};
ghost use Rattle.dbus_value_model.specs.declared.fault.Fault.{Fault as FaultOf};
ghost use Rattle.dbus_c.specs.GivenLimits.{limits_of};
ghost use Rattle.dbus_c.specs.Outcomes.{IsFirstView, answer_of};
ghost use Rattle.dbus_c.specs.declared.answers.TheConstants.{REFUSED};
ghost use Rattle.dbus_validate.specs.Validating.{IsValidated};

use crate::answers::WHOLE;
use crate::checkers::answer_of;
use crate::given_limits::{WireLimits, given_limits};
use crate::reasons::{field_named, reason_number};
use dbus_check::{Check, Checker};
use dbus_validate::{Validated, validate};
use dbus_value_model::{Fault, Limits};
use dbus_view::MessageView;

/// The result of checking bytes. Fields that do not apply are 0.
#[repr(C)]
#[derive(Drop)]
pub struct Checked {
    /// Of a message: its number of bytes.
    pub length: u64,
    /// Of a fault: its offset, in bytes from the first.
    pub offset: u64,
    /// Of a message: its first byte, `l` or `B`, which names its byte order.
    pub order: u32,
    /// Of a fault: the number of its reason.
    pub reason: u32,
    /// Of a fault: the code of the header field that is missing, if that is the reason.
    pub field: u32,
    /// 0.
    pub reserved: u32,
}

// The result for bytes that begin with a message of this length.
fn whole_told(bytes: &[u8], count: usize) -> Checked
    requires { 0 < length bytes.now }
    ensures { (limits : Limits) (order : Order) (m : MessageTree) →
        IsWhole limits bytes.now order m count → result ≡ whole_told order count }
{
    Checked {
        length: count as u64,
        offset: 0,
        order: u32::from(bytes[0]),
        reason: 0,
        field: 0,
        reserved: 0,
    }
}

// The result for PARTIAL: all zeros.
pub(crate) fn nothing_told() -> Checked
    ensures { result ≡ nothing_told }
{
    Checked {
        length: 0,
        offset: 0,
        order: 0,
        reason: 0,
        field: 0,
        reserved: 0,
    }
}

// The result for a fault.
pub(crate) fn fault_told(fault: Fault) -> Checked
    ensures { result ≡ fault_told fault }
{
    Checked {
        length: 0,
        offset: fault.at,
        order: 0,
        reason: reason_number(fault.reason),
        field: field_named(fault.reason),
        reserved: 0,
    }
}

/// Whether the bytes begin with a message within the limits: [`WHOLE`] with its length and byte
/// order, [`REFUSED`] with the fault that they show, [`PARTIAL`] if they do neither, so that more
/// bytes are needed. Bytes after the message are not looked at.
///
/// It allocates nothing, and takes some 43,000 bytes of the stack. D-Bus Specification, "Message
/// Protocol".
#[unsafe(no_mangle)]
pub extern "C" fn dbus_wire_check(bytes: &[u8], limits: &WireLimits, out: &mut Checked) -> u32
    ensures { IsChecked (limits_of limits.now) bytes.now result out.new }
{
    match first_validated(bytes, limits, out) {
        Ok(_) => WHOLE,
        Err(answer) => answer,
    }
}

// The message within the limits that the bytes begin with, validated; or the answer to bytes that
// begin with none. What a check of the bytes reports is written.
pub(crate) fn first_validated(
    bytes: &[u8],
    limits: &WireLimits,
    told: &mut Checked,
) -> Result<Validated, u32>
    ensures checked { IsChecked (limits_of limits.now) bytes.now (answer_of result) told.new }
    ensures validated { IfOk result (λ v. IsValidated (limits_of limits.now) bytes.now v) }
    ensures none { IfErr result (λ answer. WHOLE < answer) }
    ensures most { IfErr result (λ answer. answer ≤ REFUSED) }
{
    let within = given_limits(limits);
    match validate(bytes, within) {
        Some(validated) => {
            *told = whole_told(bytes, validated.length);
            Ok(validated)
        }
        None => Err(answer_of(check_all(bytes, within, told))),
    }
}

// What a checker returns for the bytes. What a check of them reports is written.
#[inline(never)]
pub(crate) fn check_all(bytes: &[u8], limits: Limits, out: &mut Checked) -> Check
    ensures checked { IsChecked limits bytes.now (check_answer result) out.new }
    ensures refused { (fault : FaultOf) → result ≡ Refused fault →
        IsRefused limits bytes.now fault }
{
    let mut checker = Checker::within(limits);
    match checker.take(bytes) {
        Check::Done(count) => {
            *out = whole_told(bytes, count);
            Check::Done(count)
        }
        Check::Partial => {
            *out = nothing_told();
            Check::Partial
        }
        Check::Refused(fault) => {
            *out = fault_told(fault);
            Check::Refused(fault)
        }
    }
}

// A view of the message that the bytes begin with, taken by itself.
pub(crate) fn first_view<'a>(
    bytes: &'a [u8],
    limits: &WireLimits,
    validated: Validated,
) -> MessageView<'a>
    requires validated { IsValidated (limits_of limits.now) bytes.now validated }
    ensures viewed { IsFirstView (limits_of limits.now) bytes.now result }
{
    let message = &bytes[..validated.length];
    MessageView::of_validated(message, given_limits(limits), validated)
}
