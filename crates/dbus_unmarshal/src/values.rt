//! Values of any type as trees, from a message's bytes. D-Bus Specification, "Marshaling (Wire
//! Format)".
#![tactic(auto)]

ghost use Rattle.std.specs.Prelude.{◌≡◌, ℕ, ◌+◌, ◌≤◌, List, length, IsTrue, IfOk};
ghost use Rattle.dbus_texts.specs.Types.{sig};
ghost use Rattle.dbus_types.specs.SigTypes.{type_tree};
ghost use Rattle.dbus_types.specs.SignatureCodes.{AreLengths};
ghost use Rattle.dbus_value_model.specs.PackedBytes.{keeps_bytes, keep_bytes};
ghost use Rattle.dbus_value_model.specs.Spelling.{spelling};
ghost use Rattle.dbus_value_model.specs.ValueViews.{value_tree, value_trees_of};
ghost use Rattle.dbus_value_model.specs.Values.{ValueTree, ValueTrees};
ghost use Rattle.dbus_walk.specs.Standing.{Stands, StandsAt, StandsThere, AllStandAt, AllStandThere, end_of};

use crate::gathered::{Builder, Gathered};
use crate::numbers::number_at;
use crate::placing::{fields_of, held_value};
use crate::texts::{long_text_at, short_text_at};
use dbus_types::{SigType, spelled_type, spelled_types};
use dbus_value_model::Value;
use dbus_walk::{Layout, MessageBytes, Spot, layout, lengths_of, walk_value, walk_values};
use std::alloc::{AllocError, Allocator};
use std::sync::Arc;

/// The value at a spot as a tree, and the offset after it. An array of BYTE comes as `Bytes`, also
/// within the value.
///
/// `AllocError` if an allocation failed. D-Bus Specification, "Marshaling (Wire Format)".
pub fn build_value<A: Allocator + Copy>(
    alloc: A,
    source: &MessageBytes<'_>,
    spot: &Spot<'_>,
    wanted: &SigType<A>,
) -> Result<(Value<A>, usize), AllocError>
    requires stands { StandsThere source.now spot.now }
    requires noted { AreLengths spot.now.types.now spot.now.lengths.now }
    requires wanted { sig (type_tree wanted.now) ≡ spot.now.types.now }
    ensures built { (v : ValueTree) (rest : List ℕ) → StandsAt source.now spot.now v rest →
        IfOk result (λ r. (value_tree r.0 ≡ v) × (r.1 ≡ end_of source.now spot.now v)) }
    ensures packed { IfOk result (λ r. IsTrue (keeps_bytes r.0)) }
{
    let mut builder = Builder { alloc };
    let mut gathered = Gathered::Variant(wanted.clone()?);
    let after = walk_value(&mut builder, &mut gathered, source, spot)?;
    Ok((held_value(gathered), after))
}

/// The values that follow one another at a spot, one of each type that the text there spells. They
/// take one block of memory besides what each takes.
///
/// `AllocError` if an allocation failed. D-Bus Specification, "Marshaling (Wire Format)".
pub fn build_values<A: Allocator + Copy>(
    alloc: A,
    source: &MessageBytes<'_>,
    spot: &Spot<'_>,
) -> Result<Vec<Value<A>, A>, AllocError>
    requires stand { AllStandThere source.now spot.now }
    requires noted { AreLengths spot.now.types.now spot.now.lengths.now }
    ensures built { (vs : ValueTrees) (rest : List ℕ) → AllStandAt source.now spot.now vs rest →
        IfOk result (λ r. value_trees_of r.items ≡ vs) }
    ensures packed { IfOk result (λ r. IsTrue (keep_bytes r.items)) }
{
    let types = spelled_types(alloc, spot.types)?;
    let list = Vec::with_capacity(alloc, types.len())?;
    let mut builder = Builder { alloc };
    let mut gathered = Gathered::Fields(Arc::new(alloc, types)?, list);
    walk_values(&mut builder, &mut gathered, source, spot)?;
    Ok(fields_of(gathered))
}

/// The value at `at`, whose one type these bytes spell, as a tree, and the offset after it. So many
/// containers may be open in it. How long the types in it are is noted first.
///
/// `AllocError` if an allocation failed. D-Bus Specification, "Marshaling (Wire Format)".
pub fn build_typed<A: Allocator + Copy>(
    alloc: A,
    source: &MessageBytes<'_>,
    at: usize,
    types: &[u8],
    depth_left: u8,
) -> Result<(Value<A>, usize), AllocError>
    requires few { length types.now ≤ 255 }
    requires stands { (v : ValueTree) × (rest : List ℕ) ×
        Stands source.now.order depth_left types.now at source.now.bytes.now v rest }
    ensures built { (v : ValueTree) (rest : List ℕ) →
        Stands source.now.order depth_left types.now at source.now.bytes.now v rest →
        IfOk result (λ r.
        (value_tree r.0 ≡ v) × (r.1 ≡ at + length (spelling source.now.order at v))) }
    ensures packed { IfOk result (λ r. IsTrue (keeps_bytes r.0)) }
{
    let mut table = [0; 255];
    let spot = Spot {
        at,
        types,
        lengths: lengths_of(types, &mut table),
        depth_left,
    };
    build_at(alloc, source, &spot)
}

/// The value at a spot as a tree, and the offset after it. A number or a text is built at once,
/// without its type and without a walk.
fn build_at<A: Allocator + Copy>(
    alloc: A,
    source: &MessageBytes<'_>,
    spot: &Spot<'_>,
) -> Result<(Value<A>, usize), AllocError>
    requires stands { StandsThere source.now spot.now }
    requires noted { AreLengths spot.now.types.now spot.now.lengths.now }
    ensures built { (v : ValueTree) (rest : List ℕ) → StandsAt source.now spot.now v rest →
        IfOk result (λ r. (value_tree r.0 ≡ v) × (r.1 ≡ end_of source.now spot.now v)) }
    ensures packed { IfOk result (λ r. IsTrue (keeps_bytes r.0)) }
{
    match layout(source, spot) {
        Layout::Number { start, size } => {
            let value = number_at(source, start, spot.types[0]);
            Ok((value, start + usize::from(size)))
        }
        Layout::LongText { start, size } => {
            let value = long_text_at(alloc, source, spot, start, size)?;
            Ok((value, start + 4 + size + 1))
        }
        Layout::ShortText { size } => {
            let value = short_text_at(alloc, source, spot, size)?;
            Ok((value, spot.at + 1 + size + 1))
        }
        _ => {
            let wanted = spelled_type(alloc, spot.types)?;
            build_value(alloc, source, spot, &wanted)
        }
    }
}
