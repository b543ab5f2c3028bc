//! How long each type of a signature is, noted once. D-Bus Specification, "Valid Signatures",
//! "Container types".
#![tactic(auto)]

ghost use Rattle.std.specs.Prelude.{◌≡◌, ◌+◌, ◌<◌, ◌≤◌, ◌⊎◌, ℕ, List, ◌++◌, length, drop, slice_index};
ghost use Rattle.dbus_texts.specs.Types.{TypeTree, sig};
ghost use Rattle.dbus_types.specs.SignatureCodes.{AreLengths, AreNoted};

/// Notes for each place of a signature the length of the complete type that begins there, so that
/// none is looked for again.
///
/// If no type begins it notes some length, of 1 byte or more, and no more than are left.
/// D-Bus Specification, "Valid Signatures".
pub fn note_lengths(types: &[u8], lengths: &mut [u8])
    requires few { length types.now ≤ 255 }
    requires same { length lengths.old ≡ length types.now }
    ensures { AreLengths types.now lengths.new }
{
    let mut at = types.len();
    while at > 0 {
        at -= 1;
        lengths[at] = length_at(types, lengths, at);
    }
}

/// The lengths of the types of a signature, as [`note_lengths`] says, noted in a table, which has
/// room for those of any signature.
///
/// D-Bus Specification, "Valid Signatures".
pub fn lengths_in<'t>(types: &[u8], table: &'t mut [u8; 255]) -> &'t [u8]
    requires few { length types.now ≤ 255 }
    ensures { AreLengths types.now result.now }
{
    let lengths = &mut table[..types.len()];
    note_lengths(types, lengths);
    lengths
}

/// The length of the type that begins at `at`, if this is noted for the places after it.
fn length_at(types: &[u8], lengths: &[u8], at: usize) -> u8
    requires few { length types.now ≤ 255 }
    requires inside { at < length types.now }
    requires noted { AreNoted (at + 1) types.now lengths.now }
    ensures value { (t : TypeTree) (more : List ℕ) → drop at types.now ≡ sig t ++ more → result ≡ length (sig t) }
    ensures some { 0 < result }
    ensures within { at + result ≤ length types.now }
{
    match types[at] {
        b'a' if at + 1 < types.len() => 1 + lengths[at + 1],
        b'(' => enclosed_length(types, lengths, at),
        b'{' => enclosed_length(types, lengths, at),
        _ => 1,
    }
}

/// The length of the struct or dict entry that begins at `at`, with its brackets.
fn enclosed_length(types: &[u8], lengths: &[u8], at: usize) -> u8
    requires few { length types.now ≤ 255 }
    requires inside { at < length types.now }
    requires opens { (slice_index types.now at ≡ 40) ⊎ (slice_index types.now at ≡ 123) }
    requires noted { AreNoted (at + 1) types.now lengths.now }
    ensures value { (t : TypeTree) (more : List ℕ) → drop at types.now ≡ sig t ++ more → result ≡ length (sig t) }
    ensures some { 0 < result }
    ensures within { at + result ≤ length types.now }
{
    let mut place = at + 1;
    while place < types.len() && types[place] != b')' && types[place] != b'}' {
        place += usize::from(lengths[place]);
    }
    let end = types.len().min(place + 1);
    (end - at) as u8
}
