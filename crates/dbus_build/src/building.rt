//! Making a message of its parts.
#![tactic(auto)]

ghost use Rattle.std.specs.Prelude.{◌≡◌, length, MatchResult};
ghost use Rattle.dbus_value_model.specs.FirstPast.{IsFirstPast};
ghost use Rattle.dbus_value_model.specs.declared.order.Order.TheVariants.{Little};
ghost use Rattle.dbus_value_model.specs.Specification.{specification};
ghost use Rattle.dbus_value_model.specs.declared.limits.Limits.{Limits};
ghost use Rattle.dbus_build.specs.BuildFaults.{IsAccepted, IsBuilt, IsTaken, IsFirstFault, NoFault, NoneIsMissing, SignaturePasses, SizePasses, HoldTheirNumbers};
ghost use Rattle.dbus_message_model.specs.Messages.{body_fds, message_bytes, IsValidMessage};
ghost use Rattle.dbus_message_model.specs.PartsViews.{parts_tree};

use crate::build_fault::BuildFault;
use crate::faulty_body::{first_unsound, has_types};
use crate::faulty_fields::{Rule, first_twice, first_unsound_field, first_without};
use crate::message_size::message_end;
use dbus_message_model::known_fields::{body_signature, fd_count, has_field, missing_field};
use dbus_message_model::{Message, Parts};
use dbus_value_model::{Limits, first_past};
use std::alloc::Allocator;

/// Validates the type, the serial, and which fields there are.
fn check_header<A: Allocator>(parts: &Parts<A>) -> Result<(), BuildFault>
    ensures { (limits : Limits) →
        MatchResult result (λ _. NoneIsMissing parts.now) (λ f.
        IsFirstFault limits parts.now f) }
{
    if parts.kind == 0 {
        return Err(BuildFault::Kind);
    }
    if parts.serial == 0 {
        return Err(BuildFault::ZeroSerial);
    }
    match first_without(&parts.fields, Rule::Nonzero) {
        Some(_) => return Err(BuildFault::ZeroSerial),
        None => {}
    }
    if has_field(&parts.fields, 0) {
        return Err(BuildFault::FieldCode);
    }
    match first_twice(&parts.fields) {
        Some(code) => return Err(BuildFault::FieldTwice(code)),
        None => {}
    }
    match first_without(&parts.fields, Rule::OwnType) {
        Some(code) => return Err(BuildFault::FieldType(code)),
        None => {}
    }
    match missing_field(parts.kind, &parts.fields) {
        Some(code) => Err(BuildFault::FieldMissing(code)),
        None => Ok(()),
    }
}

/// Validates how deep the values nest, the texts of the fields, the values, and their types.
fn check_contents<A: Allocator>(parts: &Parts<A>, limits: Limits) -> Result<(), BuildFault>
    requires header { NoneIsMissing parts.now }
    ensures { MatchResult result
        (λ _. SignaturePasses limits parts.now × HoldTheirNumbers (parts_tree parts.now)) (λ f.
        IsFirstFault limits parts.now f) }
{
    let (_kind, _flags, _serial) = (parts.kind, parts.flags, parts.serial);
    let field = first_unsound_field(&parts.fields, limits.depth)?;
    let value = first_unsound(&parts.body, limits.depth)?;
    match first_without(&parts.fields, Rule::OwnKind) {
        Some(code) => return Err(BuildFault::Name(code)),
        None => {}
    }
    match field {
        Some(code) => return Err(BuildFault::FieldValue(code)),
        None => {}
    }
    match value {
        Some(n) => return Err(BuildFault::Value(n)),
        None => {}
    }
    if !has_types(&parts.body, body_signature(&parts.fields)) {
        return Err(BuildFault::SignatureDiffers);
    }
    Ok(())
}

/// The number of bytes that spell the parts, within the limits.
fn measure<A: Allocator>(parts: &Parts<A>, limits: Limits) -> Result<usize, BuildFault>
    requires passed { SignaturePasses limits parts.now }
    requires ranged { HoldTheirNumbers (parts_tree parts.now) }
    ensures { MatchResult result
        (λ n.
        IsValidMessage specification (parts_tree parts.now) ×
        (n ≡ length (message_bytes Little (parts_tree parts.now))) × SizePasses limits parts.now)
        (λ f. IsFirstFault limits parts.now f) }
{
    match message_end(parts, limits) {
        None => Err(BuildFault::ArrayTooLong),
        Some(end) => {
            if end > u64::from(limits.message) {
                return Err(BuildFault::MessageTooLong);
            }
            Ok(end as usize)
        }
    }
}

/// The number of the first value of the body that holds an index of a descriptor not below the
/// number that the limits' rule asks for.
pub(crate) fn first_index_past<A: Allocator>(parts: &Parts<A>, limits: Limits) -> Option<usize>
    ensures { IsFirstPast (body_fds limits (parts_tree parts.now).fields) 0
        (parts_tree parts.now).body result }
{
    let fds = limits.fds.index_limit(fd_count(&parts.fields));
    first_past(&parts.body, fds)
}

/// The number of bytes that spell the parts, or the first case of [`BuildFault`] that holds of them
/// under the limits.
fn check<A: Allocator>(parts: &Parts<A>, limits: Limits) -> Result<usize, BuildFault>
    ensures { MatchResult result
        (λ n.
        IsValidMessage specification (parts_tree parts.now) ×
        (n ≡ length (message_bytes Little (parts_tree parts.now))) × NoFault limits parts.now)
        (λ f. IsFirstFault limits parts.now f) }
{
    check_header(parts)?;
    check_contents(parts, limits)?;
    let size = measure(parts, limits)?;
    match first_index_past(parts, limits) {
        Some(n) => Err(BuildFault::FdIndex(n)),
        None => Ok(size),
    }
}

/// The message of these parts, or the parts and the first case of [`BuildFault`] that holds of them
/// under the limits.
#[tactic(auto, using(crate::proofs::SoundParts::parts_packed))]
pub(crate) fn build_within<A: Allocator>(
    parts: Parts<A>,
    limits: Limits,
) -> Result<Message<A>, (Parts<A>, BuildFault)>
    ensures built { IsBuilt limits parts result }
    ensures accepted { IsAccepted limits parts result }
    ensures taken { IsTaken limits parts result }
{
    match check(&parts, limits) {
        Ok(size) => Ok(Message::of_valid(parts, size)),
        Err(fault) => Err((parts, fault)),
    }
}
