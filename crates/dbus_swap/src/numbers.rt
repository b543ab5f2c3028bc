//! Numbers, each byteswapped in the copy. D-Bus Specification, "Marshaling (Wire Format)".
#![tactic(auto)]

ghost use Rattle.std.specs.Prelude.{◌≡◌, ◌+◌, ◌<◌, ◌≤◌, ◌++◌, length, take, drop, reverse};
ghost use Rattle.dbus_texts.specs.Types.{NumberCode, NumberType};
ghost use Rattle.dbus_types.specs.Alignments.{width};
ghost use Rattle.dbus_value_model.specs.Bytes.{gap_to};
ghost use Rattle.dbus_value_model.specs.declared.order.Order.{Order};
ghost use Rattle.dbus_value_model.specs.Spelling.{spellings};
ghost use Rattle.dbus_value_model.specs.Values.{ValueTrees, AllOf};
ghost use Rattle.dbus_swap.specs.Byteswapping.{other, Replaces};

/// The number of four bytes at `at`, byteswapped.
#[inline]
pub(crate) fn byteswap_4(out: &mut [u8], at: usize)
    requires { at + 4 ≤ length out.old }
    ensures { out.new ≡ take at out.old
        ++ (reverse (take 4 (drop at out.old)) ++ drop (at + 4) out.old) }
{
    out[at..at + 4].reverse();
}

/// The number of `size` bytes at `at`, byteswapped: 1, 2, 4 or 8.
#[inline]
pub(crate) fn byteswap_number(out: &mut [u8], at: usize, size: u8)
    requires { at + size ≤ length out.old }
    ensures { (k : NumberCode) → width k ≡ size →
        out.new ≡
        take at out.old ++ (reverse (take size (drop at out.old)) ++ drop (at + size) out.old) }
{
    if size == 2 {
        out[at..at + 2].reverse();
    } else if size == 4 {
        out[at..at + 4].reverse();
    } else if size == 8 {
        out[at..at + 8].reverse();
    }
}

/// The numbers from `at` up to `end`, each of `size` bytes, byteswapped.
#[inline]
pub(crate) fn byteswap_numbers(out: &mut [u8], at: usize, end: usize, size: u8)
    requires some { 0 < size }
    requires at_most { at ≤ end }
    requires inside { end ≤ length out.old }
    ensures { (order : Order) (k : NumberCode) (xs : ValueTrees) → width k ≡ size →
        AllOf (NumberType k) xs → gap_to size at ≡ 0 →
        end ≡ at + length (spellings order at xs) →
        Replaces at (spellings order at xs) (spellings (other order) at xs) out.old out.new }
{
    if size == 1 {
        // A byte is the same in both orders.
        return;
    }
    let step = usize::from(size);
    let mut place = at;
    while end - place >= step {
        byteswap_number(out, place, size);
        place += step;
    }
}
