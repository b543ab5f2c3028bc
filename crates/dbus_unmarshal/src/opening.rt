//! Containers that open: which types their parts have, and room for these. D-Bus Specification,
//! "Type System".
#![tactic(auto)]

ghost use Rattle.std.specs.Prelude.{◌≡◌, false, List, [], IfOk, MatchOption};
ghost use Rattle.dbus_texts.specs.Kinds.{IsKind};
ghost use Rattle.dbus_texts.specs.Types.{TypeTree, ArrayType, sigs};
ghost use Rattle.dbus_texts.specs.PlainTypes.{is_byte};
ghost use Rattle.dbus_texts.specs.declared.text_kind.TextKind.TheVariants.{Single};
ghost use Rattle.dbus_types.specs.SigTypes.{type_tree};
ghost use Rattle.dbus_value_model.specs.Values.{ValueTree, ValueTrees, ArrayValue, type_of, types_of};
ghost use Rattle.dbus_walk.specs.Containers.{IsOf, parts};
ghost use Rattle.dbus_walk.specs.declared.container.Container.TheVariants.{Variant, Struct, Entry};
ghost use Rattle.dbus_unmarshal.specs.Builds.{Holds, IsNext, Opens};

use crate::gathered::Gathered;
use crate::rooms::first_room;
use dbus_types::{SigType, spelled_type};
use std::alloc::{AllocError, Allocator};

/// The type of the part that comes next, if one does.
fn next_type<A: Allocator>(gathered: &Gathered<A>) -> Option<&SigType<A>>
    ensures { (v x : ValueTree) (done us : List ValueTree) → IsNext gathered.now v done x us →
        MatchOption result ⊥ (λ t. type_tree t.now ≡ type_of x) }
{
    match gathered {
        Gathered::Variant(held) => Some(held),
        Gathered::Entry(key, _) => Some(key),
        Gathered::Key(value, _) => Some(value),
        Gathered::Fields(types, values) => types.get(values.len()),
        Gathered::Elements(item, _) => Some(item),
        _ => None,
    }
}

/// A variant opens, which holds a value of the one type that these bytes spell.
pub(crate) fn open_variant<A: Allocator + Copy>(
    alloc: A,
    types: &[u8],
) -> Result<Gathered<A>, AllocError>
    requires { IsKind Single types.now }
    ensures { (v : ValueTree) → IsOf Variant v → sigs (types_of (parts v)) ≡ types.now →
        IfOk result (λ m. Holds m v []) }
{
    Ok(Gathered::Variant(spelled_type(alloc, types)?))
}

/// A struct opens.
pub(crate) fn open_struct<A: Allocator + Copy>(
    alloc: A,
    gathered: &Gathered<A>,
) -> Result<Gathered<A>, AllocError>
    ensures { (v : ValueTree) → IsOf Struct v → IfOk result (λ m. Opens gathered.now v m) }
{
    let Some(wanted) = next_type(gathered) else {
        return Ok(Gathered::Variant(SigType::Byte));
    };
    let SigType::Struct(fields) = wanted else {
        // The part that comes next is a struct.
        return Ok(Gathered::Variant(SigType::Byte));
    };
    let types = fields.clone()?;
    let values = Vec::with_capacity(alloc, types.len())?;
    Ok(Gathered::Fields(types, values))
}

/// A dict entry opens.
pub(crate) fn open_entry<A: Allocator>(gathered: &Gathered<A>) -> Result<Gathered<A>, AllocError>
    ensures { (v : ValueTree) → IsOf Entry v → IfOk result (λ m. Opens gathered.now v m) }
{
    let Some(wanted) = next_type(gathered) else {
        return Ok(Gathered::Variant(SigType::Byte));
    };
    let SigType::Entry(key, value) = wanted else {
        // The part that comes next is a dict entry.
        return Ok(Gathered::Variant(SigType::Byte));
    };
    Ok(Gathered::Entry(SigType::clone(key)?, SigType::clone(value)?))
}

/// The type of the elements of the array that comes next. If none does, it may be any.
pub(crate) fn element_type<A: Allocator>(gathered: &Gathered<A>) -> Result<SigType<A>, AllocError>
    ensures { IfOk result (λ t. (v x : ValueTree) (done us : List ValueTree) (u : TypeTree) →
        IsNext gathered.now v done x us → type_of x ≡ ArrayType u → type_tree t ≡ u) }
{
    let Some(wanted) = next_type(gathered) else {
        return Ok(SigType::Byte);
    };
    match wanted {
        SigType::Array(element) => SigType::clone(element),
        _ => Ok(SigType::Byte),
    }
}

/// An array opens, whose elements are not of BYTE. They have so many bytes.
pub(crate) fn open_elements<A: Allocator + Copy>(
    alloc: A,
    gathered: &Gathered<A>,
    size: usize,
) -> Result<Gathered<A>, AllocError>
    ensures { (u : TypeTree) (xs : ValueTrees) → is_byte u ≡ false →
        IfOk result (λ m. Opens gathered.now (ArrayValue u xs) m) }
{
    let item = element_type(gathered)?;
    let values = Vec::with_capacity(alloc, first_room(&item, size))?;
    Ok(Gathered::Elements(item, values))
}
