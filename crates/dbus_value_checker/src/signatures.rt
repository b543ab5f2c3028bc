//! The signatures that are in use, and how long each type in them is.
#![tactic(auto)]

ghost use Rattle.std.specs.Prelude.{◌≡◌, ◌+◌, ◌≤◌, ℕ, List, ◌++◌, length, take};
ghost use Rattle.dbus_types.specs.SignatureCodes.{AreLengths};

use arrayvec::ArrayVec;
use dbus_types::lengths_in;

/// Other bytes follow the first `top`, for which there is room.
fn put(bytes: &mut ArrayVec<u8, 16640>, top: usize, more: &[u8])
    requires { top + length more.now ≤ 16640 }
    ensures { bytes.new.items ≡ take top bytes.old.items ++ more.now }
{
    if bytes.len() == top + more.len() {
        // They take the room of those that were there, which need not be blanked first.
        bytes.as_mut_slice()[top..].copy_from_slice(more);
        return;
    }
    bytes.truncate(top);
    match bytes.try_extend_from_slice(more) {
        Ok(()) => {}
        // There is room for them.
        Err(_) => {}
    }
}

/// The lengths of the types of a signature follow the first `top`.
fn put_lengths(lengths: &mut ArrayVec<u8, 16640>, top: usize, types: &[u8])
    requires few { length types.now ≤ 255 }
    requires fits { top + length types.now ≤ 16640 }
    ensures { (more : List ℕ) × AreLengths types.now more × (lengths.new.items ≡ take top lengths.old.items ++ more) }
{
    if types.len() == 1 {
        put(lengths, top, &[1]);
        return;
    }
    let mut table = [0; 255];
    put(lengths, top, lengths_in(types, &mut table));
}

/// A signature follows the first `top` bytes of those in use, with the lengths of its types.
pub(crate) fn sign(
    text: &mut ArrayVec<u8, 16640>,
    lengths: &mut ArrayVec<u8, 16640>,
    top: usize,
    types: &[u8],
)
    requires few { length types.now ≤ 255 }
    requires fits { top + length types.now ≤ 16640 }
    ensures text { text.new.items ≡ take top text.old.items ++ types.now }
    ensures lengths { (more : List ℕ) × AreLengths types.now more ×
        (lengths.new.items ≡ take top lengths.old.items ++ more) }
{
    put(text, top, types);
    put_lengths(lengths, top, types);
}
