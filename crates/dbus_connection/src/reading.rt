//! The message that bytes begin with.
#![tactic(auto)]

ghost use Rattle.std.specs.Prelude.{◌≡◌, ◌<◌, ◌≤◌, ◌-◌, length};
ghost use Rattle.dbus_connection.specs.Answers.{IsReadPast};
ghost use Rattle.dbus_connection.specs.Reading.{Fits, IsRead};
ghost use Rattle.dbus_connection.specs.Shown.{told};
ghost use Rattle.dbus_header.specs.NoMessage.{BeginsWithNone};
ghost use Rattle.dbus_header.specs.StatedLengths.{StatesLength};
ghost use Rattle.dbus_validate.specs.Validating.{IsValidated};

use crate::event::{Event, Incoming, PassedOver, Step};
use crate::settings::Settings;
use dbus_check::fault_of;
use dbus_header::{FIXED_HEADER_LENGTH, read_fixed_header, stated_length_within};
use dbus_validate::{Validated, validate};
use dbus_view::MessageView;

/// What the bytes behind those to skip are past the handshake. Those are taken, as far as they are
/// at hand, and fewer are to skip then.
pub(crate) fn read_past<'a>(skip: &mut u64, bytes: &'a [u8], settings: Settings) -> Step<'a>
    ensures read { IsReadPast settings skip.old bytes.now result.taken (told result.event) }
    ensures skip { skip.new ≡ skip.old - length bytes.now }
{
    let skipped = (*skip).min(bytes.len() as u64);
    *skip -= skipped;
    let Step { taken, event } = read(&bytes[skipped as usize..], settings);
    Step {
        taken: skipped as usize + taken,
        event,
    }
}

// What the bytes are past the handshake. Nothing but the first 16 is looked at before as many are
// there as these state.
fn read(bytes: &[u8], settings: Settings) -> Step<'_>
    ensures read { IsRead settings bytes.now result.taken (told result.event) }
    ensures inside { result.taken ≤ length bytes.now }
{
    match stated_length_within(bytes, settings.limits) {
        Err(fault) => not_taken(Event::Refused(fault)),
        Ok(None) => not_taken(Event::Wants(FIXED_HEADER_LENGTH as u64)),
        Ok(Some(stated)) => {
            if stated > u64::from(settings.longest) {
                return passed(bytes, settings, stated);
            }
            if (bytes.len() as u64) < stated {
                return not_taken(Event::Wants(stated));
            }
            match validate(bytes, settings.limits) {
                Some(validated) => given(bytes, settings, validated),
                None => unread(bytes, settings, stated),
            }
        }
    }
}

// What came while nothing was taken.
fn not_taken(event: Event<'_>) -> Step<'_>
    ensures taken { result.taken ≡ 0 }
    ensures event { result.event ≡ event.entry }
{
    Step { taken: 0, event }
}

// A message that is longer than those that are given.
fn passed(bytes: &[u8], settings: Settings, length: u64) -> Step<'_>
    requires stated { StatesLength settings.limits bytes.now length }
    requires long { settings.longest < length }
    ensures read { IsRead settings bytes.now result.taken (told result.event) }
    ensures taken { result.taken ≡ 0 }
{
    match read_fixed_header(bytes, settings.limits) {
        Ok(header) => not_taken(Event::Passed(PassedOver { length, header })),
        // Bytes that state a length have a header.
        Err(_) => not_taken(Event::Wants(length)),
    }
}

// The message is taken, and seen in place.
fn given(bytes: &[u8], settings: Settings, validated: Validated) -> Step<'_>
    requires validated { IsValidated settings.limits bytes.now validated }
    requires fits { Fits settings bytes.now }
    ensures read { IsRead settings bytes.now result.taken (told result.event) }
    ensures inside { result.taken ≤ length bytes.now }
{
    let taken = validated.length;
    let fds = validated.fields.fd_count();
    let view = MessageView::of_validated(&bytes[..taken], settings.limits, validated);
    Step {
        taken,
        event: Event::Message(Incoming { view, fds }),
    }
}

// Why the bytes begin with no message, though as many are there as they state.
fn unread(bytes: &[u8], settings: Settings, stated: u64) -> Step<'_>
    requires none { BeginsWithNone settings.limits bytes.now }
    requires stated { StatesLength settings.limits bytes.now stated }
    requires fits { Fits settings bytes.now }
    ensures read { IsRead settings bytes.now result.taken (told result.event) }
    ensures taken { result.taken ≡ 0 }
{
    match fault_of(bytes, settings.limits) {
        Some(fault) => not_taken(Event::Refused(fault)),
        None => not_taken(Event::Wants(stated)),
    }
}
