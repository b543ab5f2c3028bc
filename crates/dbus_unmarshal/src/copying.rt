//! Values that are seen in place, as trees. D-Bus Specification, "Marshaling (Wire Format)".
#![tactic(auto)]

ghost use Rattle.std.specs.Prelude.{◌≡◌, ℕ, List, IsTrue, IfOk, IfSome, MatchOption};
ghost use Rattle.dbus_value_model.specs.PackedBytes.{keeps_bytes, keep_bytes};
ghost use Rattle.dbus_value_model.specs.ValueViews.{value_tree, value_trees_of};
ghost use Rattle.dbus_value_model.specs.Values.{ValueTrees, NoValues, MoreValues};
ghost use Rattle.dbus_values.specs.States.{AreLeft};

use crate::values::{build_typed, build_values};
use dbus_types::type_end;
use dbus_value_model::Value;
use dbus_values::Values;
use dbus_walk::{Spot, lengths_of};
use std::alloc::{AllocError, Allocator};

/// The first of the values as a tree, as decoding gives it: the value that `next` sees. `None` if
/// there are no values. An array of BYTE comes as `Bytes`, also within the value. The values stay
/// what they are.
///
/// `AllocError` if an allocation failed. D-Bus Specification, "Marshaling (Wire Format)".
///
/// ```rust
/// use dbus_message::{MessageView, copy_value};
/// use dbus_value::Value;
///
/// let view = MessageView::of(bytes)?;
/// if let Some(Value::Str(text)) = copy_value(alloc, &view.body())? {
///     println!(rt; "{text}")?;
/// }
/// ```
pub fn copy_value<A: Allocator + Copy>(
    alloc: A,
    values: &Values<'_>,
) -> Result<Option<Value<A>>, AllocError>
    ensures copied { (xs : ValueTrees) (rest : List ℕ) → AreLeft values.now xs rest →
        IfOk result (λ r. MatchOption r (xs ≡ NoValues) (λ v.
        (us : ValueTrees) × (xs ≡ MoreValues (value_tree v) us))) }
    ensures packed { IfOk result (λ r. IfSome r (λ v. IsTrue (keeps_bytes v))) }
{
    let (source, spot) = values.place();
    if spot.types.is_empty() {
        return Ok(None);
    }
    let end = type_end(spot.types, 0);
    let first = &spot.types[..end];
    let (value, _) = build_typed(alloc, &source, spot.at, first, spot.depth_left)?;
    Ok(Some(value))
}

/// All of the values as trees, as decoding gives them. The values stay what they are.
///
/// `AllocError` if an allocation failed. D-Bus Specification, "Marshaling (Wire Format)".
pub fn copy_values<A: Allocator + Copy>(
    alloc: A,
    values: &Values<'_>,
) -> Result<Vec<Value<A>, A>, AllocError>
    ensures copied { (xs : ValueTrees) (rest : List ℕ) → AreLeft values.now xs rest →
        IfOk result (λ vs. value_trees_of vs.items ≡ xs) }
    ensures packed { IfOk result (λ vs. IsTrue (keep_bytes vs.items)) }
{
    let (source, place) = values.place();
    let mut table = [0; 255];
    let spot = Spot {
        at: place.at,
        types: place.types,
        lengths: lengths_of(place.types, &mut table),
        depth_left: place.depth_left,
    };
    build_values(alloc, &source, &spot)
}
