//! The first value of a body that is at fault, and the body's types.
#![tactic(auto)]

ghost use Rattle.std.specs.Prelude.{◌≡◌, ◌↔◌, ◌<◌, None, IsTrue, length};
ghost use Rattle.dbus_texts.specs.Types.{sigs};
ghost use Rattle.dbus_value_model.specs.Forming.{NestWithin};
ghost use Rattle.dbus_value_model.specs.Verdicts.{HoldNumbers};
ghost use Rattle.dbus_value_model.specs.Values.{types_of};
ghost use Rattle.dbus_value_model.specs.ValueViews.{value_trees_of};
ghost use Rattle.dbus_build.specs.BuildFaults.{IsFound, IsFirstUnsound};

use crate::build_fault::BuildFault;
use dbus_marshal::{signature_length, write_type_of};
use dbus_value_model::{Value, Verdict, check_nested};
use std::alloc::Allocator;

/// The number of the first value that is not sound, or `TooDeep` if more than `depth_left` arrays,
/// structs and variants are open at once in any value.
pub fn first_unsound<A: Allocator>(
    values: &[Value<A>],
    depth_left: u8,
) -> Result<Option<usize>, BuildFault>
    ensures { IsFound (NestWithin depth_left (value_trees_of values.now))
        (IsFirstUnsound values.now) (HoldNumbers (value_trees_of values.now)) result }
{
    let mut first = None;
    for (i, value) in values.iter().enumerate() {
        match check_nested(value, depth_left) {
            Verdict::TooDeep => return Err(BuildFault::TooDeep),
            Verdict::Sound => {}
            _ => first = first.or(Some(i)),
        }
    }
    Ok(first)
}

/// Whether the values, each of them sound, are of the types that the signature spells.
pub fn has_types<A: Allocator>(values: &[Value<A>], signature: &[u8]) -> bool
    requires sound { IsFirstUnsound values.now None }
    requires short { length signature.now < 256 }
    ensures { IsTrue result ↔ (sigs (types_of (value_trees_of values.now)) ≡ signature.now) }
{
    let mut room = [0; 255];
    let spelled = &mut room[..signature.len()];
    let mut end = 0;
    for value in values {
        if signature.len() - end < signature_length(value) {
            return false;
        }
        end = write_type_of(spelled, end, value);
    }
    &spelled[..end] == signature
}
