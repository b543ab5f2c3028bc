//! What of a message that is refused is whole, as one row of items: its header fields, and values
//! of its body.
#![tactic(auto)]

ghost use Rattle.std.specs.Prelude.{◌≡◌, ◌↔◌, ◌≤◌, ◌+◌, length};
ghost use Rattle.dbus_c.specs.Checking.{IsChecked};
ghost use Rattle.dbus_c.specs.Explaining.{AreWholeFlat, checked_answer};
ghost use Rattle.dbus_c.specs.GivenLimits.{limits_of};
ghost use Rattle.dbus_c.specs.Outcomes.{IsTold};
ghost use Rattle.dbus_c.specs.declared.answers.TheConstants.{WHOLE};
ghost use Rattle.dbus_header.specs.MessageOutcomes.{IsRefused};
ghost use Rattle.dbus_value_model.specs.declared.fault.Fault.{Fault as FaultOf};

use crate::answers::{NO_VALUE, PARTIAL};
use crate::checking::{Checked, check_all};
use crate::flattening::tell_count;
use crate::given_limits::{WireLimits, given_limits};
use dbus_check::Check;
use dbus_explain::parts_before;
use dbus_flatten::{FlatItem, PartsCount, flatten_parts};
use dbus_value_model::Fault;

/// Writes items of what is whole before the fault of bytes that begin with no message within the
/// limits: of the header fields, as [`crate::dbus_wire_flatten_fields`] does but for the item of
/// their array, and then of the values of the body, as [`crate::dbus_wire_flatten`] does. A field
/// or a value is there if it ends at the fault or before it, and so do all before it; the parts of
/// one that does not are not.
///
/// [`crate::WHOLE`] if there is room for all from `first` on, else [`crate::NO_ROOM`]. If the bytes
/// begin with a message, [`NO_VALUE`], and [`PARTIAL`] if they show no fault yet; then `items` and
/// `count` stay as they are. `told` has what [`crate::dbus_wire_check`] reports. It allocates
/// nothing. D-Bus Specification, "Message Format".
#[unsafe(no_mangle)]
pub extern "C" fn dbus_wire_flatten_whole(
    bytes: &[u8],
    limits: &WireLimits,
    first: usize,
    items: &mut [FlatItem],
    count: &mut PartsCount,
    told: &mut Checked,
) -> u32
    ensures checked { IsChecked (limits_of limits.now) bytes.now (checked_answer result) told.new }
    ensures refused { (fault : FaultOf) → IsRefused (limits_of limits.now) bytes.now fault →
        IsTold result }
    ensures flat { IsTold result → (fault : FaultOf) ×
        IsRefused (limits_of limits.now) bytes.now fault ×
        AreWholeFlat bytes.now fault first items.old items.new count.new }
    ensures room { IsTold result → (result ≡ WHOLE) ↔ (count.new.all ≤ first + length items.old) }
    ensures unchanged { (IsTold result → ⊥) →
        (items.new ≡ items.old) × (count.new ≡ count.old) }
{
    match check_all(bytes, given_limits(limits), told) {
        Check::Done(_) => NO_VALUE,
        Check::Partial => PARTIAL,
        Check::Refused(fault) => {
            let room = items.len();
            let whole = flatten_before(bytes, fault, first, items);
            count.fields = whole.fields;
            tell_count(whole.all as usize, first, room, &mut count.all)
        }
    }
}

// The items of what is whole before a fault, from a place on: how many the whole row has.
fn flatten_before(bytes: &[u8], fault: Fault, first: usize, items: &mut [FlatItem]) -> PartsCount
    ensures { AreWholeFlat bytes.now fault first items.old items.new result }
{
    let mut table = [0; 255];
    match parts_before(bytes, fault, &mut table) {
        Some(parts) => {
            let run = &parts.fields;
            flatten_parts(
                &run.source,
                run.depth_left,
                run.end,
                &parts.body,
                first,
                items,
            )
        }
        None => PartsCount { fields: 0, all: 0 },
    }
}
