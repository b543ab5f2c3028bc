//! All values of a message's body, and its header fields, as one row of items.
#![tactic(auto)]

ghost use Rattle.std.specs.Prelude.{◌≡◌, ◌↔◌, ◌≤◌, ◌+◌, ℕ, List, length};
ghost use Rattle.dbus_c.specs.Checking.{IsChecked};
ghost use Rattle.dbus_c.specs.Parting.{IsPartFlat, start_of, values_of};
ghost use Rattle.dbus_c.specs.GivenLimits.{limits_of};
ghost use Rattle.dbus_c.specs.Outcomes.{IsTold, with_room};
ghost use Rattle.dbus_c.specs.declared.flattening.Part.TheVariants.{Body, Fields};
ghost use Rattle.dbus_message_model.specs.Messages.{MessageTree};
ghost use Rattle.dbus_types.specs.SignatureCodes.{AreLengths};
ghost use Rattle.dbus_validate.specs.Validating.{IsOwn, IsWholeOf, WasValidated};
ghost use Rattle.dbus_walk.specs.Standing.{AllStandAt};
ghost use Rattle.dbus_walk.specs.declared.spot.MessageBytes.{MessageBytes};

use crate::answers::{NO_ROOM, WHOLE};
use crate::checking::{Checked, first_validated};
use crate::given_limits::{WireLimits, given_limits};
use dbus_flatten::{FlatItem, flatten};
use dbus_validate::Whole;
use dbus_walk::Spot;

/// What of a message is flattened.
#[derive(Clone, Copy)]
pub(crate) enum Part {
    /// The array of its header fields.
    Fields,
    /// The values of its body.
    Body,
}

/// Writes items of the body of the message within the limits that the bytes begin with: a row of
/// one for each value and all its parts, each container before its parts. Those from place `first`
/// of the row on, which begins at 0, go to the start of `items`, as many as it has room for; what
/// is after them stays as it was. Writes to `count` the number of items of the whole row.
///
/// [`WHOLE`] if there is room for all from `first` on, else [`NO_ROOM`]: the same call at a place
/// after those written goes on. If the bytes begin with no message, [`crate::PARTIAL`] or
/// [`crate::REFUSED`]; then `items` and `count` stay as they are. `told` has what
/// [`crate::dbus_wire_check`] reports. Whatever room there is, each call validates the whole
/// message and then walks it once. It allocates nothing. D-Bus Specification, "Message Format".
#[unsafe(no_mangle)]
pub extern "C" fn dbus_wire_flatten(
    bytes: &[u8],
    limits: &WireLimits,
    first: usize,
    items: &mut [FlatItem],
    count: &mut u64,
    told: &mut Checked,
) -> u32
    ensures checked { IsChecked (limits_of limits.now) bytes.now (with_room result) told.new }
    ensures flat { IsTold result → IsPartFlat Body (limits_of limits.now) bytes.now first items.old items.new count.new }
    ensures room { IsTold result → (result ≡ WHOLE) ↔ (count.new ≤ first + length items.old) }
    ensures unchanged { (IsTold result → ⊥) → (items.new ≡ items.old) × (count.new ≡ count.old) }
{
    match first_validated(bytes, limits, told) {
        Ok(validated) => {
            let whole = Whole {
                bytes,
                limits: given_limits(limits),
                validated: &validated,
            };
            flatten_part(Part::Body, &whole, first, items, count)
        }
        Err(answer) => answer,
    }
}

/// Writes the items of the array of the header fields of the message within the limits that the
/// bytes begin with, as [`dbus_wire_flatten`] does those of its body: the first is that of the
/// array, and then comes each field, a struct, with its code and the variant of its value. It
/// returns what [`dbus_wire_flatten`] does. D-Bus Specification, "Header Fields".
#[unsafe(no_mangle)]
pub extern "C" fn dbus_wire_flatten_fields(
    bytes: &[u8],
    limits: &WireLimits,
    first: usize,
    items: &mut [FlatItem],
    count: &mut u64,
    told: &mut Checked,
) -> u32
    ensures checked { IsChecked (limits_of limits.now) bytes.now (with_room result) told.new }
    ensures flat { IsTold result → IsPartFlat Fields (limits_of limits.now) bytes.now first items.old items.new count.new }
    ensures room { IsTold result → (result ≡ WHOLE) ↔ (count.new ≤ first + length items.old) }
    ensures unchanged { (IsTold result → ⊥) → (items.new ≡ items.old) × (count.new ≡ count.old) }
{
    match first_validated(bytes, limits, told) {
        Ok(validated) => {
            let whole = Whole {
                bytes,
                limits: given_limits(limits),
                validated: &validated,
            };
            flatten_part(Part::Fields, &whole, first, items, count)
        }
        Err(answer) => answer,
    }
}

// Writes the items of a part of the message that was validated, from a place on, and how many the
// whole row has. Whether there was room for all from there on.
pub(crate) fn flatten_part(
    part: Part,
    whole: &Whole<'_>,
    first: usize,
    items: &mut [FlatItem],
    count: &mut u64,
) -> u32
    requires validated { WasValidated whole.now }
    ensures told { IsTold result }
    ensures flat { IsPartFlat part whole.now.limits whole.now.bytes.now first items.old items.new count.new }
    ensures room { (result ≡ WHOLE) ↔ (count.new ≤ first + length items.old) }
{
    let room = items.len();
    let total = flat_part(part, whole, first, items);
    tell_count(total, first, room, count)
}

// Tells how many items a row has, and whether there is room for all from a place on.
pub(crate) fn tell_count(total: usize, first: usize, room: usize, count: &mut u64) -> u32
    ensures counted { count.new ≡ total }
    ensures told { IsTold result }
    ensures room { (result ≡ WHOLE) ↔ (total ≤ first + room) }
{
    *count = total as u64;
    if total.saturating_sub(first) > room {
        NO_ROOM
    } else {
        WHOLE
    }
}

// The items of a part of the message that was validated, from a place on: how many the whole row
// has.
fn flat_part(part: Part, whole: &Whole<'_>, first: usize, items: &mut [FlatItem]) -> usize
    requires validated { WasValidated whole.now }
    ensures { IsPartFlat part whole.now.limits whole.now.bytes.now first items.old items.new result }
{
    let source = whole.source();
    let whole = *whole;
    let mut table = [0; 255];
    let spot = spot_of(part, &whole, &mut table);
    flatten(&source, &spot, first, items)
}

// Where the values of a part are. The table gets how long their types are.
fn spot_of<'a>(part: Part, whole: &Whole<'a>, table: &'a mut [u8; 255]) -> Spot<'a>
    requires validated { WasValidated whole.now }
    ensures begins { (m : MessageTree) → IsWholeOf whole.now m →
        result.at ≡ start_of part whole.now.validated.now.order m }
    ensures noted { AreLengths result.types.now result.lengths.now }
    ensures stand { (source : MessageBytes) (m : MessageTree) → IsOwn whole.now source →
        IsWholeOf whole.now m →
        (rest : List ℕ) × AllStandAt source result (values_of part m) rest }
{
    match part {
        Part::Fields => whole.fields(table),
        Part::Body => whole.body(table),
    }
}
