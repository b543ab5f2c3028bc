//! The parts of a message in the caller's bytes, in numbers.
#![tactic(auto)]

ghost use Rattle.std.specs.Prelude.{◌≡◌, ◌≢◌, List, ℕ, true};
ghost use Rattle.dbus_c.specs.Checking.{IsChecked};
ghost use Rattle.dbus_c.specs.GivenLimits.{limits_of};
ghost use Rattle.dbus_c.specs.Parting.{HasFields, HasParts, IsOwnPlace, IsPlaceOf, no_place};
ghost use Rattle.dbus_c.specs.Parting.{number_of};
ghost use Rattle.dbus_validate.specs.Seen.{AreNoted, ArePlaced};
ghost use Rattle.dbus_validate.specs.Validating.{IsValidated};
ghost use Rattle.dbus_value_model.specs.declared.limits.Limits.{Limits};
ghost use Rattle.dbus_value_model.specs.declared.order.Order.{Order};
ghost use Rattle.dbus_message_model.specs.KnownFields.{field_value};
ghost use Rattle.dbus_message_model.specs.Messages.{FieldTree, is_known, order_byte};

use crate::answers::WHOLE;
use crate::checking::{Checked, first_validated};
use crate::given_limits::WireLimits;
use dbus_message_model::field_code::{
    DESTINATION, ERROR_NAME, INTERFACE, MEMBER, PATH, REPLY_SERIAL, SENDER, SIGNATURE, UNIX_FDS,
};
use dbus_validate::{FieldPlaces, Validated};
use dbus_value_model::Order;

/// The place of a text, such as that of a header field, in the caller's bytes.
#[repr(C)]
#[derive(Clone, Copy)]
pub struct TextPlace {
    /// Its offset, in bytes from the first, or 0 if there is no such text.
    pub offset: u64,
    /// The number of bytes that it has, or 0.
    pub length: u64,
    /// 1, or 0 if there is no such text.
    pub is_there: u64,
}

/// The parts of a message. D-Bus Specification, "Message Format" and "Header Fields".
#[repr(C)]
#[derive(Clone, Copy)]
pub struct WireParts {
    /// The number of bytes that it has.
    pub length: u64,
    /// The offset of its body, which begins after the header and its padding, also if it is empty,
    /// and ends at the end of the message.
    pub body: u64,
    /// Its first byte, `l` or `B`, which names its byte order.
    pub order: u32,
    /// The message type.
    pub kind: u32,
    /// The flags.
    pub flags: u32,
    /// The serial.
    pub serial: u32,
    /// The REPLY_SERIAL, which is never 0, or 0 if there is none.
    pub reply_serial: u32,
    /// The number of the UNIX_FDS field, or 0 if there is none.
    pub unix_fds: u32,
    /// The PATH.
    pub path: TextPlace,
    /// The INTERFACE.
    pub interface: TextPlace,
    /// The MEMBER.
    pub member: TextPlace,
    /// The ERROR_NAME.
    pub error_name: TextPlace,
    /// The DESTINATION.
    pub destination: TextPlace,
    /// The SENDER.
    pub sender: TextPlace,
    /// The SIGNATURE of the body.
    pub signature: TextPlace,
}

/// Writes the parts of the message within the limits that the bytes begin with, and returns
/// [`WHOLE`]. If they begin with none, returns [`crate::PARTIAL`] or [`crate::REFUSED`], and `out`
/// stays as it is. `told` has what [`crate::dbus_wire_check`] reports. Each part lies within the
/// message, whatever bytes follow it. It allocates nothing.
///
/// D-Bus Specification, "Message Format" and "Header Fields".
#[unsafe(no_mangle)]
pub extern "C" fn dbus_wire_parts_of(
    bytes: &[u8],
    limits: &WireLimits,
    out: &mut WireParts,
    told: &mut Checked,
) -> u32
    ensures checked { IsChecked (limits_of limits.now) bytes.now result told.new }
    ensures parts { result ≡ WHOLE → HasParts (limits_of limits.now) bytes.now out.new }
    ensures unchanged { result ≢ WHOLE → out.new ≡ out.old }
{
    match first_validated(bytes, limits, told) {
        Ok(validated) => {
            *out = parts_in(&validated);
            WHOLE
        }
        Err(answer) => answer,
    }
}

// The parts of a message that was validated.
pub(crate) fn parts_in(validated: &Validated) -> WireParts
    ensures { (limits : Limits) (bytes : List ℕ) → IsValidated limits bytes validated.now →
        HasParts limits bytes result }
{
    let seen = &validated.fields;
    WireParts {
        length: validated.length as u64,
        body: validated.body as u64,
        order: order_byte(validated.order),
        kind: u32::from(validated.kind),
        flags: u32::from(validated.flags),
        serial: validated.serial,
        reply_serial: number_of(seen, REPLY_SERIAL),
        unix_fds: number_of(seen, UNIX_FDS),
        path: place_of(seen, PATH),
        interface: place_of(seen, INTERFACE),
        member: place_of(seen, MEMBER),
        error_name: place_of(seen, ERROR_NAME),
        destination: place_of(seen, DESTINATION),
        sender: place_of(seen, SENDER),
        signature: place_of(seen, SIGNATURE),
    }
}

// The byte that names an order.
pub(crate) fn order_byte(order: Order) -> u32
    ensures { result ≡ order_byte order }
{
    u32::from(dbus_message_model::order_byte(order))
}

// Where the text of the field of a known code is.
fn place_of(seen: &FieldPlaces, code: u8) -> TextPlace
    ensures there { (bytes : List ℕ) (fs : List FieldTree) → AreNoted fs bytes seen.now →
        is_known code ≡ true → IsPlaceOf (field_value code fs) bytes result }
    ensures own { (order : Order) (bytes : List ℕ) (fs : List FieldTree) →
        AreNoted fs bytes seen.now → ArePlaced order fs seen.now → is_known code ≡ true →
        IsOwnPlace order code fs result }
{
    match seen.get(code) {
        Some(place) => TextPlace {
            offset: u64::from(place.start),
            length: u64::from(place.length),
            is_there: 1,
        },
        None => no_place(),
    }
}

// What is told of a text that is not there.
pub(crate) fn no_place() -> TextPlace
    ensures { result ≡ no_place }
{
    TextPlace {
        offset: 0,
        length: 0,
        is_there: 0,
    }
}

// The number of the field of a known code.
fn number_of(seen: &FieldPlaces, code: u8) -> u32
    ensures { (bytes : List ℕ) (fs : List FieldTree) → AreNoted fs bytes seen.now →
        is_known code ≡ true → result ≡ number_of (field_value code fs) }
{
    match seen.get(code) {
        Some(place) => place.number,
        None => 0,
    }
}
