//! Structs that open together.
#![tactic(auto)]

ghost use Rattle.std.specs.Prelude.{◌≤◌, length};
ghost use Rattle.dbus_types.specs.SignatureCodes.{AreLengths};
ghost use Rattle.dbus_walk.specs.Standing.{IsRow};

/// How many structs open where a type begins, if each but the first is the only field of the one
/// around it: 0 if the type is no struct. `lengths` are those of the types in it.
pub(crate) fn row_of(types: &[u8], lengths: &[u8]) -> usize
    requires noted { AreLengths types.now lengths.now }
    ensures { IsRow types.now lengths.now result }
{
    let mut n = 0;
    while n < types.len() / 2
        && types[n] == b'('
        && usize::from(lengths[n]) == types.len() - n - n
    {
        n += 1;
    }
    n
}

/// The same of a struct's type, of which so many are known already, or 0 if they were not looked
/// for.
#[inline(always)]
pub(crate) fn known_row(types: &[u8], lengths: &[u8], known: usize) -> usize
    requires noted { AreLengths types.now lengths.now }
    requires long { 2 ≤ length types.now }
    requires together { IsRow types.now lengths.now known }
    ensures { IsRow types.now lengths.now result }
{
    // A struct that opens alone is walked the same with no row.
    if known > 0 || usize::from(lengths[1]) != types.len() - 2 || types[1] != b'(' {
        return known;
    }
    row_of(types, lengths)
}
