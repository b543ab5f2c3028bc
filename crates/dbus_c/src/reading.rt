//! The parts of a message and all values of its body, by one validation.
#![tactic(auto)]

ghost use Rattle.std.specs.Prelude.{◌≡◌, ◌↔◌, ◌≤◌, length};
ghost use Rattle.dbus_c.specs.Checking.{IsChecked};
ghost use Rattle.dbus_c.specs.GivenLimits.{limits_of};
ghost use Rattle.dbus_c.specs.Outcomes.{IsTold, with_room};
ghost use Rattle.dbus_c.specs.Parting.{HasParts, IsPartFlat};
ghost use Rattle.dbus_c.specs.declared.answers.TheConstants.{WHOLE};
ghost use Rattle.dbus_c.specs.declared.flattening.Part.TheVariants.{Body};

use crate::checking::{Checked, first_validated};
use crate::flattening::{Part, flatten_part};
use crate::given_limits::{WireLimits, given_limits};
use crate::parts::{WireParts, parts_in};
use dbus_flatten::FlatItem;
use dbus_validate::Whole;

/// Writes the parts of the message within the limits that the bytes begin with to `parts`, as
/// [`crate::dbus_wire_parts_of`] does, and the items of its body from the first on to `items`, as
/// [`crate::dbus_wire_flatten`] does, whose answers it returns. After [`crate::NO_ROOM`], which
/// says that there are more items than `items` has room for, the parts are there too. `told` has
/// what [`crate::dbus_wire_check`] reports.
///
/// It validates the message once, and allocates nothing. D-Bus Specification, "Message Format" and
/// "Header Fields".
#[unsafe(no_mangle)]
pub extern "C" fn dbus_wire_read(
    bytes: &[u8],
    limits: &WireLimits,
    parts: &mut WireParts,
    items: &mut [FlatItem],
    count: &mut u64,
    told: &mut Checked,
) -> u32
    ensures checked { IsChecked (limits_of limits.now) bytes.now (with_room result) told.new }
    ensures parts { IsTold result → HasParts (limits_of limits.now) bytes.now parts.new }
    ensures flat { IsTold result → IsPartFlat Body (limits_of limits.now) bytes.now 0 items.old items.new count.new }
    ensures room { IsTold result → (result ≡ WHOLE) ↔ (count.new ≤ length items.old) }
    ensures unchanged { (IsTold result → ⊥) → (parts.new ≡ parts.old) × (items.new ≡ items.old) × (count.new ≡ count.old) }
{
    match first_validated(bytes, limits, told) {
        Ok(validated) => {
            *parts = parts_in(&validated);
            let whole = Whole {
                bytes,
                limits: given_limits(limits),
                validated: &validated,
            };
            flatten_part(Part::Body, &whole, 0, items, count)
        }
        Err(answer) => answer,
    }
}
